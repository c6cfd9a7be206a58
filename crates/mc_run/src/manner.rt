//! How the branches of a run meet.

/// One of the two sections that run at once.
#[derive(Clone, Copy, Debug, PartialEq, Eq)]
pub enum Branch {
    /// The first branch.
    A,
    /// The second branch.
    B,
}

/// Before which of their requests the branches wait for each other.
#[derive(Clone, Copy, Debug, PartialEq, Eq)]
pub enum Manner {
    /// Before the first until the other branch is as far, and before each later one for some 50 microseconds at most.
    Each,
    /// Before the first alone.
    First,
    /// Before none: one branch goes ahead, and the other follows as its thread comes.
    Never,
}

/// A branch that waits once more when both have met before their first requests, and how long.
#[derive(Clone, Copy, Debug, PartialEq, Eq)]
pub struct Late {
    /// The branch that waits.
    pub branch: Branch,
    /// How long it waits, about. No clock is read.
    pub nanoseconds: u32,
}

/// How the branches of a run meet, and which of them runs on a thread of its own.
#[derive(Clone, Copy, Debug, PartialEq, Eq)]
pub struct Meet {
    /// Before which requests they wait for each other.
    pub manner: Manner,
    /// The branch that runs on a thread of its own. The other one runs on the thread of the caller.
    pub apart: Branch,
    /// The branch that is late, if one is. Where they don't meet, none is.
    pub late: Option<Late>,
}
