//! What a budget bounds.

/// What a section's budget bounds, each by itself.
#[derive(Clone, Copy, Debug, PartialEq, Eq)]
pub enum Measure {
    /// How many requests a section sends.
    Requests,
    /// How many bytes the texts of its requests have.
    Bytes,
}
