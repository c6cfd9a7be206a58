//! What is set of all rounds.

use mc_settings::Mix;

/// What decides which requests the rounds have, beside the replies.
#[derive(Clone, Copy, Debug, PartialEq, Eq)]
pub struct Plan {
    pub seed: u64,
    /// How many clients there are: 2 to 64.
    pub clients: u8,
    /// How many requests each client sends in a round: 1 to 1,000.
    pub requests: u16,
    /// How many keys a round has: 1 to 16.
    pub keys: u8,
    /// The verbs that clients send.
    pub mix: Mix,
}
