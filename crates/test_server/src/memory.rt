//! Calls that find no memory.

use std::alloc::AllocError;

/// What the call answers. A call that finds no memory is made once more.
pub(crate) fn again<T, F: FnMut() -> Result<T, AllocError>>(mut call: F) -> Result<T, AllocError>
    requires { F.IsAlwaysCallable call }
{
    match call() {
        Err(AllocError) => call(),
        found => found,
    }
}
