//! Calls that find no memory, and campaigns in which it ran out.

use mc_campaign::{CampaignError, JobOutcome, Report};
use mc_core::Ending;
use mc_generate::JobFault;
use mc_lane::Stream;
use mc_protocol::{Actor, Fault, OutOfMemory};
use mc_run::{Run, RunError};
use std::alloc::AllocError;

/// Why a call failed.
pub(crate) trait Failure {
    /// Whether it found no memory.
    fn lacks_memory(&self) -> bool;
}

impl Failure for OutOfMemory {
    fn lacks_memory(&self) -> bool {
        true
    }
}

/// A thread that can't be made has found no memory: nothing else fails here.
impl Failure for CampaignError {
    fn lacks_memory(&self) -> bool {
        true
    }
}

/// What the call answers. A call that finds no memory is made once more.
pub(crate) fn again<T, E: Failure + Drop, F: FnMut() -> Result<T, E>>(mut call: F) -> Result<T, E>
    requires { F.IsAlwaysCallable call }
{
    match call() {
        Err(failure) if failure.lacks_memory() => call(),
        found => found,
    }
}

/// An error where memory ran out in a job, or where there was none for a thread of it.
pub(crate) fn has_memory<S: Stream>(report: &Report<S>) -> Result<(), AllocError> {
    for result in report.results.as_slice() {
        if lacks_memory(&result.outcome) {
            return Err(AllocError);
        }
    }
    Ok(())
}

fn lacks_memory<S: Stream>(outcome: &JobOutcome<S>) -> bool {
    match outcome {
        JobOutcome::NotMade(fault) => *fault == JobFault::OutOfMemory,
        JobOutcome::NoLane(_) => false,
        JobOutcome::NotRun(error) => *error != RunError::BookMismatch,
        JobOutcome::Ran { run, .. } => {
            ran_out(run, Actor::P) || ran_out(run, Actor::A) || ran_out(run, Actor::B)
        }
    }
}

/// Whether memory ran out in this section of the run, or in its stream. These streams fail for no other cause.
fn ran_out<S: Stream>(run: &Run<S>, actor: Actor) -> bool {
    let ending = run.world.ending(actor);
    ending == Ending::Failed(Fault::Memory) || ending == Ending::Failed(Fault::WriteFailed)
}
