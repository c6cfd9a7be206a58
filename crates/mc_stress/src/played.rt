//! The clients of a round, once it is over.

use mc_protocol::Fault;

/// A client of a round: its number, its lane, and the fault that ended it before its last reply, if one did.
#[derive(Debug, Drop)]
pub struct Played<L> {
    pub client: u8,
    pub lane: L,
    pub ended: Option<Fault>,
}
