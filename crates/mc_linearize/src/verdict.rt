//! Verdicts on timelines.
use crate::explanation::TimelineExplanation;
use mc_protocol::Bytes;

/// What a search finds out about the requests on one key.
#[derive(Debug, Drop)]
pub enum KeyVerdict {
    /// This explains them.
    Explained(TimelineExplanation),
    /// Nothing explains them.
    Unexplained,
    /// Neither is known.
    Undecided,
}

/// What searches find out about a timeline, key by key.
#[derive(Debug, Drop)]
pub enum TimelineVerdict {
    /// This explains it.
    Explained(TimelineExplanation),
    /// Nothing explains the requests on this key, so nothing explains the timeline.
    Unexplained(Bytes),
    /// Neither is known of the requests on this key, and no key was found to be unexplained.
    Undecided(Bytes),
}
