//! How many jobs came to what.
ghost use Rattle.std.specs.Prelude.{◌≡◌, IfSome};
ghost use Rattle.mc_join.specs.Wholes as spec;

/// What a job counts as.
#[derive(Clone, Copy, Debug, Drop, PartialEq, Eq)]
pub enum Standing {
    Explained,
    Unexplained,
    /// Undecided, or without a verdict.
    Other,
}

/// How many jobs there are, and how many of them count as what.
#[derive(Clone, Copy, Debug, Drop, PartialEq, Eq)]
pub struct Totals {
    pub jobs: u64,
    pub explained: u64,
    pub unexplained: u64,
    pub other: u64,
}

impl Totals {
    /// Of no jobs.
    pub(crate) fn none() -> Totals
        ensures { result ≡ spec.no_totals }
    {
        Totals {
            jobs: 0,
            explained: 0,
            unexplained: 0,
            other: 0,
        }
    }

    /// These and the others, if 64 bits hold the sums.
    pub(crate) fn plus(self, more: Totals) -> Option<Totals>
        ensures { IfSome result (λ sum. sum ≡ spec.plus self more) }
    {
        Some(Totals {
            jobs: self.jobs.checked_add(more.jobs)?,
            explained: self.explained.checked_add(more.explained)?,
            unexplained: self.unexplained.checked_add(more.unexplained)?,
            other: self.other.checked_add(more.other)?,
        })
    }

    /// Of one job more that counts as this.
    pub(crate) fn and(self, standing: Standing) -> Totals {
        let jobs = self.jobs.saturating_add(1);
        let totals = Totals { jobs, ..self };
        match standing {
            Standing::Explained => Totals {
                explained: totals.explained.saturating_add(1),
                ..totals
            },
            Standing::Unexplained => Totals {
                unexplained: totals.unexplained.saturating_add(1),
                ..totals
            },
            Standing::Other => Totals {
                other: totals.other.saturating_add(1),
                ..totals
            },
        }
    }

    /// Whether there are some jobs, and each of them counts as something.
    pub(crate) fn add_up(self) -> bool {
        let verdicts = self.explained.checked_add(self.unexplained);
        let sum = verdicts.and_then(|sum| sum.checked_add(self.other));
        self.jobs > 0 && sum == Some(self.jobs)
    }
}
