//! A part of a campaign.

use crate::totals::Totals;
use mc_protocol::OutOfMemory;

/// A part of a campaign, as its report says.
#[derive(Clone, Copy, Debug, Drop, PartialEq, Eq)]
pub struct Part {
    /// The number of its first job.
    pub first: u64,
    pub totals: Totals,
    /// The line that is named if it can't be joined to the others.
    pub line: u32,
    /// The lines of its jobs, among those of all parts.
    pub jobs: Span,
    /// What stands after its totals, among the lines of all parts.
    pub after: Span,
}

/// Some of the elements of a list.
#[derive(Clone, Copy, Debug, Drop, PartialEq, Eq)]
pub struct Span {
    /// How many stand before them.
    pub start: usize,
    /// How many stand before what follows them.
    pub end: usize,
}

impl Span {
    /// These elements of the list.
    pub(crate) fn of<'a, T>(self, list: &'a [T]) -> &'a [T] {
        let (front, _) = list.split_at(self.end.min(list.len()));
        let (_, part) = front.split_at(self.start.min(front.len()));
        part
    }
}

/// Puts the element to the end of the list.
pub fn push<T: Drop>(list: &mut Vec<T>, element: T) -> Result<(), OutOfMemory> {
    list.push(element)?;
    Ok(())
}
