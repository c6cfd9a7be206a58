//! Lengths of pieces, the same on every run.

/// Draws lengths from 1 to a greatest one.
#[derive(Drop)]
pub(crate) struct Cuts {
    most: usize,
    state: u32,
}

impl Cuts {
    /// All in one piece.
    pub(crate) fn whole() -> Self {
        Cuts { most: 0, state: 1 }
    }

    /// Pieces of at most `most` bytes.
    pub(crate) fn new(most: usize) -> Self {
        Cuts { most, state: 1 }
    }

    /// Where the first bytes end that are one piece.
    pub(crate) fn next(&mut self, rest: usize) -> usize {
        if self.most == 0 {
            return rest;
        }
        // The multiplier and the summand of `rand` in the C standard's example.
        self.state = self.state.wrapping_mul(1_103_515_245).wrapping_add(12_345);
        let drawn = 1 + (self.state >> 16) as usize % self.most;
        drawn.min(rest)
    }
}
