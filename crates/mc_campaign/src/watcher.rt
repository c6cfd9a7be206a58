//! Watching a campaign while it runs.

use crate::JobOutcome;
use mc_lane::Stream;

/// Follows a campaign while it runs.
pub trait Watcher<S: Stream> {
    /// The job came to this. It is called once for each job, in the order in which their results come, on one thread.
    fn ended(&mut self, job: u64, outcome: &JobOutcome<S>);
}

/// A watcher that does nothing.
#[derive(Clone, Copy, Debug, Default)]
pub struct Unwatched;

impl<S: Stream> Watcher<S> for Unwatched {
    fn ended(&mut self, _job: u64, _outcome: &JobOutcome<S>) {}
}
