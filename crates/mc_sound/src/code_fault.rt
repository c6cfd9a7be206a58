//! Where code has a fault.
use crate::RefusalKind;
use mc_protocol::Actor;

/// A fault of code, and where it stands.
#[derive(Clone, Copy, Debug, PartialEq, Eq)]
pub struct CodeFault {
    /// What is wrong.
    pub kind: RefusalKind,
    /// The section in which it is wrong.
    pub actor: Actor,
    /// The instruction at which it is wrong, counted from the section's first, which is 0.
    pub place: u8,
}
