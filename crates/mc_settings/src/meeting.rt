//! How the branches of a run are asked to meet.

/// How the branches of a run wait for each other before a request.
#[derive(Clone, Copy, Debug, PartialEq, Eq)]
pub enum Meeting {
    /// By lot: before each request in three of four runs, and else before none.
    Drawn,
    /// Before each request.
    Each,
    /// Before the first request alone.
    First,
    /// Before none.
    Never,
}
