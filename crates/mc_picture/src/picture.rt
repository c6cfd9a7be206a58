//! What a picture shows, whichever form it has.

use crate::rows::Row;
use mc_model::Choice;
use mc_protocol::{Bytes, Reply};

/// What a picture shows.
pub struct Picture<'a> {
    /// The verdict, in a sentence.
    pub headline: String,
    /// What is to be known beside it, each in a sentence.
    pub remarks: Vec<String>,
    /// The names of the lanes, from the top down. A lane without rows isn't shown.
    pub lanes: Vec<String>,
    /// Whether the order of the begins and of the replies is known.
    pub is_ordered: bool,
    /// The requests, in the order in which they began if that is known.
    pub rows: Vec<Row<'a>>,
    /// The number of the first row.
    pub first: usize,
    /// The items that were there before, by an order that explains the requests or their beginning.
    pub start: &'a [(Bytes, u64)],
    /// That order.
    pub steps: Vec<Step>,
    /// The reply that nothing explains.
    pub blame: Option<Blame<'a>>,
}

// One call drops its parts. A derived `Drop` would write them out at each end of each function that holds one.
impl Drop for Picture<'_> {
    fn drop(self) {
        let Picture {
            headline: _,
            remarks: _,
            lanes: _,
            is_ordered: _,
            rows: _,
            first: _,
            start: _,
            steps: _,
            blame: _,
        } = self;
    }
}

/// A request takes effect.
#[derive(Clone, Copy, Debug, Drop)]
pub struct Step {
    pub row: usize,
    pub choice: Choice,
}

/// A reply that nothing explains.
#[derive(Clone, Copy, Debug, Drop)]
pub struct Blame<'a> {
    pub row: usize,
    /// What a correct server answers after the steps, or at the request's own step, if that was found out.
    pub correct: Option<&'a Reply>,
}

impl Picture<'_> {
    /// Whether nothing explains the reply to the row's request.
    pub(crate) fn is_wrong(&self, row: usize) -> bool {
        match self.blame {
            Some(blame) => blame.row == row,
            None => false,
        }
    }

    /// What a correct server answers in place of the reply that nothing explains.
    pub(crate) fn correct(&self) -> Option<&Reply> {
        self.blame?.correct
    }

    /// The name of a lane.
    pub(crate) fn name(&self, lane: usize) -> &str {
        match self.lanes.get(lane) {
            Some(name) => name.as_str(),
            None => "",
        }
    }

    /// The number of a row.
    pub(crate) fn number(&self, row: usize) -> usize {
        row.saturating_add(self.first)
    }
}
