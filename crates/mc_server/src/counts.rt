//! How many connections were served and refused, and how many are left.
ghost use Rattle.std.specs.Prelude.{◌≡◌, ◌+◌, ◌^◌, ◌<◌, ◌≤◌, ◌⊎◌, IsTrue, IsFalse};
ghost use Rattle.mc_server.specs.declared.counts.TheConstants.{MOST_FAILED};

/// How many accepts in a row may fail before no more connections are accepted.
const MOST_FAILED: u64 = 100;

/// What came of connections.
#[derive(Clone, Copy, Debug, PartialEq, Eq)]
pub struct Listened {
    /// How many connections were served.
    pub accepted: u64,
    /// How many accepts failed, and how many connections got no thread and were closed.
    pub refused: u64,
}

/// What came of the connections so far.
#[derive(Drop)]
pub(crate) struct Counts {
    connections: u64,
    left: u64,
    listened: Listened,
    /// How many accepts have failed since the last one that didn't.
    failed: u64,
    ghost fits: { connections < 2 ^ 64 },
    ghost few: { listened.accepted + left ≤ connections },
    ghost all: { connections ≤ listened.accepted + listened.refused + left },
    ghost in_a_row: { failed ≤ listened.refused },
}

impl Counts {
    /// Nothing so far, where `connections` are to come.
    pub(crate) fn new(connections: u64) -> Self
        ensures connections { result.connections ≡ connections }
        ensures left { result.left ≡ connections }
        ensures refused { result.listened.refused ≡ 0 }
    {
        Counts {
            connections,
            left: connections,
            listened: Listened {
                accepted: 0,
                refused: 0,
            },
            failed: 0,
        }
    }

    /// What came of them.
    pub(crate) fn listened(&self) -> Listened
        ensures { result ≡ self.now.listened }
    {
        self.listened
    }

    /// Whether nothing more is accepted.
    pub(crate) fn are_over(&self) -> bool
        ensures over { IsTrue result → (self.now.left ≡ 0) ⊎ (MOST_FAILED ≤ self.now.failed) }
        ensures left { IsFalse result → 0 < self.now.left }
    {
        self.left == 0 || self.failed >= MOST_FAILED
    }

    /// One is served.
    pub(crate) fn count_served(&mut self)
        requires { 0 < self.old.left }
        ensures { self.new.connections ≡ self.old.connections }
    {
        self.failed = 0;
        self.left -= 1;
        self.listened.accepted += 1;
    }

    /// One got no thread.
    pub(crate) fn count_refused(&mut self)
        requires { 0 < self.old.left }
        ensures { self.new.connections ≡ self.old.connections }
    {
        self.failed = 0;
        self.left -= 1;
        self.listened.refused = self.listened.refused.saturating_add(1);
    }

    /// An accept failed.
    pub(crate) fn count_failed(&mut self)
        ensures { self.new.connections ≡ self.old.connections }
    {
        self.listened.refused = self.listened.refused.saturating_add(1);
        self.failed = self.listened.refused.min(self.failed.saturating_add(1));
    }
}
