//! A run that nothing explains.
ghost use Rattle.mc_explain.specs.Hopeless.{IsUnexplained};
ghost use Rattle.mc_why.specs.Causes.{IsFoundOf};

use mc_explain::{Verdict, judge};
use mc_model::{History, Note};
use mc_protocol::OutOfMemory;
use mc_why::{Finding, why_unexplained};
use std::alloc::Global;

/// The history of a run, which nothing explains. Nothing else is told as a race.
#[derive(Drop)]
pub(crate) struct Seen {
    pub(crate) history: History,
    ghost unexplained: { IsUnexplained history },
}

impl Seen {
    /// The history, if a search of at most `limit` turns shows that nothing explains it.
    pub(crate) fn of(
        alloc: Global,
        history: History,
        limit: u64,
    ) -> Result<Option<Seen>, OutOfMemory> {
        let (verdict, _) = judge(alloc, &history, limit)?;
        match verdict {
            Verdict::Unexplained => Ok(Some(Seen { history })),
            Verdict::Explained(_) | Verdict::Undecided => Ok(None),
        }
    }

    /// How many of its requests began while another had no reply. The fewer, the easier it is to read.
    pub(crate) fn overlaps(&self) -> usize {
        let mut overlaps = 0usize;
        let mut outstanding = 0usize;
        'notes: for (_, note) in self.history.notes().unwrap_or(&[]) {
            match note {
                Note::Begin(_) => {
                    overlaps = overlaps.saturating_add(usize::from(outstanding > 0));
                    outstanding = outstanding.saturating_add(1);
                }
                Note::Reply(_) => outstanding = outstanding.saturating_sub(1),
            }
        }
        overlaps
    }
}

/// A run that nothing explains, and what was found out of it: from where on, and which replies would be explained there.
pub(crate) struct Shown {
    pub(crate) history: History,
    pub(crate) finding: Finding,
    ghost unexplained: { IsUnexplained history },
    ghost found: { ∥ IsFoundOf history finding ∥₁ },
}

// One call drops its parts. A derived `Drop` would write them out at each end of each function that holds one.
impl Drop for Shown {
    fn drop(self) {
        let Shown {
            history: _,
            finding: _,
        } = self;
    }
}

impl Shown {
    /// Finds that out by searches of at most `limit` turns.
    pub(crate) fn of(alloc: Global, seen: Seen, limit: u64) -> Result<Shown, OutOfMemory> {
        let Seen { history } = seen;
        let finding = why_unexplained(alloc, &history, limit)?;
        Ok(Shown { history, finding })
    }
}
