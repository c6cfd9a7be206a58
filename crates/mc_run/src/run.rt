//! Runs: what came of a script that ran over three lanes.

use crate::Lanes;
use mc_core::World;
use mc_lane::Stream;
use std::alloc::AllocError;
use thiserror::Error;

/// What came of a run: the world of all that was noted, and the lanes with what they recorded.
#[derive(Debug, Drop)]
pub struct Run<S: Stream> {
    /// Its notes stand in the order in which the threads made them.
    pub world: World,
    /// Those that the run was given, after the calls of their sections.
    pub lanes: Lanes<S>,
}

/// Why there is no run. The lanes are dropped then.
#[derive(Clone, Copy, Debug, PartialEq, Eq, Error)]
pub enum RunError {
    /// What was noted isn't what the lanes recorded.
    #[error("the notes don't agree with the lanes")]
    BookMismatch,
    /// No thread could be made for a branch.
    #[error("no thread could be made")]
    NoThread,
    /// Memory ran out outside the sections.
    #[error("out of memory")]
    OutOfMemory,
}

impl From<AllocError> for RunError {
    ghost use Rattle.std.specs.Prelude.{◌≡◌};
    ghost use Rattle.mc_run.specs.declared.run.RunError.TheVariants.{OutOfMemory};

    ghost from_gives = { λ _ e. e ≡ OutOfMemory };

    fn from(_e: AllocError) -> RunError {
        RunError::OutOfMemory
    }
}
