//! What may happen in a section.

use crate::{Fault, Reply};

/// An event of a section.
#[derive(Debug, Drop, PartialEq)]
pub enum Event {
    /// The section's next call begins.
    Begin,
    /// The reply to the call that waits comes.
    Reply(Reply),
    /// The section ends before its code does. A call that waits may have been executed or not.
    Fail(Fault),
}
