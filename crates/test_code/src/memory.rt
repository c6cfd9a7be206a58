//! Calls that find no memory.

use mc_assembler::AsmFault;
use mc_image::{ImageFault, ImageKind};
use mc_protocol::OutOfMemory;

/// Why a call failed.
pub(crate) trait Failure {
    /// Whether it found no memory.
    fn lacks_memory(&self) -> bool;
}

impl Failure for OutOfMemory {
    fn lacks_memory(&self) -> bool {
        true
    }
}

impl Failure for AsmFault {
    fn lacks_memory(&self) -> bool {
        *self == AsmFault::OutOfMemory
    }
}

impl Failure for ImageFault {
    fn lacks_memory(&self) -> bool {
        self.kind == ImageKind::OutOfMemory
    }
}

/// What the call answers. A call that finds no memory is made once more.
pub(crate) fn again<T, E: Failure + Drop, F: FnMut() -> Result<T, E>>(mut call: F) -> Result<T, E>
    requires { F.IsAlwaysCallable call }
{
    match call() {
        Err(failure) if failure.lacks_memory() => call(),
        found => found,
    }
}
