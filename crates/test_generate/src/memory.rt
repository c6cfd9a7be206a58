//! Calls that find no memory.

use mc_generate::{GenFault, JobFault, PutFault};
use mc_protocol::OutOfMemory;

/// Why a call failed.
pub(crate) trait Failure {
    /// Whether it found no memory.
    fn lacks_memory(&self) -> bool;
}

impl Failure for OutOfMemory {
    fn lacks_memory(&self) -> bool {
        true
    }
}

impl Failure for GenFault {
    fn lacks_memory(&self) -> bool {
        *self == GenFault::OutOfMemory
    }
}

impl Failure for JobFault {
    fn lacks_memory(&self) -> bool {
        *self == JobFault::OutOfMemory
    }
}

impl Failure for PutFault {
    fn lacks_memory(&self) -> bool {
        *self == PutFault::OutOfMemory
    }
}

/// What the call answers. A call that finds no memory is made once more.
pub(crate) fn again<T, E: Failure + Drop, F: FnMut() -> Result<T, E>>(mut call: F) -> Result<T, E>
    requires { F.IsAlwaysCallable call }
{
    match call() {
        Err(failure) if failure.lacks_memory() => call(),
        found => found,
    }
}
