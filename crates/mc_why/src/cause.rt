//! What is found of a history that nothing explains.
ghost use Rattle.std.specs.Prelude.{◌≡◌};
ghost use Rattle.mc_why.specs.Causes.{place_of};

use crate::{Answer, Form};
use mc_explain::Explanation;
use mc_protocol::Sections;

/// From where on nothing explains a history, and what a cache answers there.
#[derive(Debug, Drop)]
pub struct Cause {
    /// The place in the history's notes, counted from 0: nothing explains the notes up to this one, or any longer beginning.
    /// Where the history keeps no notes it is a place in its requests, P's first, then A's, then B's.
    pub place: usize,
    /// What explains the part of the history before that place.
    pub explanation: Explanation,
    /// What a cache that acts by the explanation answers: to the next request of each section that stands up to the place, and to
    /// one in the explanation that was not answered before it.
    pub answers: Sections<Option<Answer>>,
    /// The forms of the replies that would be explained in place of the one that came there, words first, then numbers from the smallest,
    /// or hits. There are none if there would be more than four, or if it took too much to find out.
    pub forms: Vec<Form>,
}

/// What is found of a history that nothing explains.
#[derive(Debug, Drop)]
pub enum Finding {
    Cause(Cause),
    /// The search for an explanation of what stands before this place used up its turns.
    Undecided(usize),
}

impl Finding {
    /// The place: from there on nothing explains the history, or the search for an explanation of what stands before it was left
    /// open.
    pub fn place(&self) -> usize
        ensures { result ≡ place_of self.now }
    {
        match self {
            Finding::Cause(cause) => cause.place,
            Finding::Undecided(place) => *place,
        }
    }
}
