//! What is found of requests on a key that nothing explains.
ghost use Rattle.std.specs.Prelude.{◌≡◌};
ghost use Rattle.mc_timeline_why.specs.TimelineCauses.{overlap_of, place_of};

use mc_linearize::TimelineExplanation;

/// The note with which the requests on a key become unexplained.
#[derive(Debug, Drop)]
pub struct TimelineCause {
    /// Its place in the notes of the whole timeline, counted from 0: nothing explains the requests on the key up to this note.
    pub place: usize,
    /// What explains the requests on the key before that place.
    pub explanation: TimelineExplanation,
    /// The places in the notes of the whole timeline at which the requests on the key began that overlap the place: they were not
    /// answered before it.
    pub overlap: Vec<usize>,
}

/// What is found of requests on a key that nothing explains.
#[derive(Debug, Drop)]
pub enum TimelineFinding {
    Cause(TimelineCause),
    /// The search for an explanation of what stands before this place used up its turns.
    Undecided(usize),
}

impl TimelineFinding {
    /// The place of the note with which the requests become unexplained, or before which a search was left open.
    pub fn place(&self) -> usize
        ensures { result ≡ place_of self.now }
    {
        match self {
            TimelineFinding::Cause(cause) => cause.place,
            TimelineFinding::Undecided(place) => *place,
        }
    }

    /// The places at which the requests began that overlap it. There are none where a search was left open.
    pub fn overlap(&self) -> &[usize]
        ensures { result.now ≡ overlap_of self.now }
    {
        match self {
            TimelineFinding::Cause(cause) => cause.overlap.as_slice(),
            TimelineFinding::Undecided(_) => &[],
        }
    }
}
