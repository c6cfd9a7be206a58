//! How a section stands.

use mc_protocol::Fault;

/// How far a section has come.
#[derive(Clone, Copy, Debug, PartialEq, Eq)]
pub enum Ending {
    /// P isn't done, and the section is a branch.
    NotBegun,
    /// It has begun, and isn't at its end.
    Running,
    /// Its code has ended, and each of its calls has a reply.
    Done,
    /// This fault ended it before its code did.
    Failed(Fault),
}
