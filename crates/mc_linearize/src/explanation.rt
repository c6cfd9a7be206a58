//! What an explanation of a timeline claims.
use mc_model::Choice;
use mc_protocol::Bytes;
use std::marker::Model;

/// A claim that a timeline can be explained: what the cache held at the start, and an order in which the clients' requests took
/// effect. Contracts see both vectors as lists.
#[derive(Debug, Drop)]
pub struct TimelineExplanation {
    /// The keys that held something, each with the number of what it held: an empty body with flags 0.
    pub start: Vec<(Bytes, u64)>,
    /// With each move the next request of its client takes effect.
    pub moves: Vec<TimelineMove>,
}

impl Model for TimelineExplanation {
    ghost use Rattle.mc_linearize.specs.Claims.{TimelineClaim};

    ghost Value = { TimelineClaim };

    ghost view = { λ e. record { start = e.start.items; moves = e.moves.items } };
}

/// The next request of a client takes effect.
#[derive(Clone, Copy, Debug, PartialEq, Eq)]
pub struct TimelineMove {
    pub client: u8,
    pub choice: Choice,
    /// The number of the version that is made; not looked at if none is.
    pub number: u64,
}
