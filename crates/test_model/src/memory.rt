//! Calls that find no memory.

use mc_protocol::OutOfMemory;
use mc_words::{WordsFault, WordsKind};

/// Why a call failed.
pub(crate) trait Failure {
    /// Whether it found no memory.
    fn lacks_memory(&self) -> bool;
}

impl Failure for OutOfMemory {
    fn lacks_memory(&self) -> bool {
        true
    }
}

impl Failure for WordsFault {
    fn lacks_memory(&self) -> bool {
        self.kind == WordsKind::OutOfMemory
    }
}

/// What the call answers. A call that finds no memory is made once more.
pub(crate) fn again<T, E: Failure + Drop, F: FnMut() -> Result<T, E>>(mut call: F) -> Result<T, E>
    requires { F.IsAlwaysCallable call }
{
    match call() {
        Err(failure) if failure.lacks_memory() => call(),
        found => found,
    }
}
