//! Calls that find no memory.

use mc_protocol::OutOfMemory;
use std::alloc::AllocError;

/// What the call answers. A call that finds no memory is made once more.
pub(crate) fn again<T, F: FnMut() -> Result<T, OutOfMemory>>(mut call: F) -> Result<T, OutOfMemory>
    requires { F.IsAlwaysCallable call }
{
    match call() {
        Err(AllocError) => call(),
        found => found,
    }
}
