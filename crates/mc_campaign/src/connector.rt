//! Where the streams of jobs come from.

ghost use Rattle.std.specs.Prelude.{IfSome};

use mc_lane::Stream;
use mc_protocol::{Actor, Sections};

/// What connects the sections of jobs to the server that is tested, from any thread.
pub trait Connector<S: Stream>: Sync {
    ghost use Rattle.mc_lane.specs.Streams.{CanFail};

    /// A connection for a section of a job, or nothing where there is none. One more failure of it can be counted.
    fn connect(&self, job: u64, actor: Actor) -> Option<S>
        ensures { IfSome result (λ stream. CanFail (S.state stream)) };

    /// Takes back the connections of a job that was judged, but for those that a fault ended, or on which more was received than
    /// the replies to its requests. Nothing of what it does with them is recorded. Where it isn't given, they are dropped.
    fn release(&self, _streams: Sections<Option<S>>) {}

    /// Whether no further job is to begin.
    fn is_over(&self) -> bool {
        false
    }
}
