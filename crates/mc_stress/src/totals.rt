//! What rounds came to, counted.
use crate::outcome::RoundClass;
use itoa::Buffer;
use mc_protocol::{OutOfMemory, append_all};

/// How many rounds there were, and how many of each class.
#[derive(Clone, Copy, Debug, PartialEq, Eq)]
pub(crate) struct Totals {
    pub(crate) rounds: u64,
    explained: u64,
    pub(crate) unexplained: u64,
    other: u64,
    failed: u64,
}

impl Totals {
    /// Of no rounds.
    pub(crate) fn new() -> Self {
        Totals {
            rounds: 0,
            explained: 0,
            unexplained: 0,
            other: 0,
            failed: 0,
        }
    }

    /// One round more.
    pub(crate) fn add(&mut self, class: RoundClass) {
        self.rounds = self.rounds.saturating_add(1);
        let count = match class {
            RoundClass::Explained => &mut self.explained,
            RoundClass::Unexplained => &mut self.unexplained,
            RoundClass::Other => &mut self.other,
            RoundClass::Failed => &mut self.failed,
        };
        *count = count.saturating_add(1);
    }

    /// Appends the line that says them.
    pub(crate) fn print(&self, out: &mut Vec<u8>) -> Result<(), OutOfMemory> {
        print_count("rounds ", self.rounds, out)?;
        print_count(" explained ", self.explained, out)?;
        print_count(" unexplained ", self.unexplained, out)?;
        print_count(" other ", self.other, out)?;
        print_count(" failed ", self.failed, out)?;
        out.extend_from_slice(b"\n")
    }
}

// Appends a count after its name.
fn print_count(name: &str, count: u64, out: &mut Vec<u8>) -> Result<(), OutOfMemory> {
    let mut text = Buffer::new();
    append_all(out, &[name.as_bytes(), text.format(count).as_bytes()])
}
