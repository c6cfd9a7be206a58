//! What the runs of a script came to, counted.
ghost use Rattle.std.specs.Prelude.{◌≡◌, ◌<◌, ◌-◌, ◌^◌, List, ◌∷◌, [], ◌++◌, length, string_bytes, IfOk};
ghost use Rattle.mc_command.specs.Totals as spec;
ghost use Rattle.mc_command.specs.declared.run.Played.{Played};

use crate::overlap::overlaps;
use crate::run::Played;
use mc_core::{Ending, World};
use mc_explain::Verdict;
use mc_protocol::Actor;
use std::alloc::{AllocError, Global};

/// What a run counts as. Each run is of one class.
#[derive(Clone, Copy, PartialEq, Eq)]
pub enum RunClass {
    /// An order explains it, and no section failed.
    Explained,
    /// No order explains it.
    Unexplained,
    /// It is undecided and no section failed, or it has no verdict.
    Other,
    /// A section failed, and the run isn't unexplained.
    Failed,
}

/// How many runs there were, how many of them were of each class, and how many overlapped.
#[derive(Clone, Copy, Drop, PartialEq, Eq)]
pub struct Totals {
    pub runs: u64,
    pub explained: u64,
    pub unexplained: u64,
    pub other: u64,
    /// Those in which a request of A and one of B were outstanding at once.
    pub overlapped: u64,
    pub failed: u64,
}

impl Totals {
    /// Of no runs.
    pub fn new() -> Totals
        ensures { result ≡ spec.totals_of [] }
    {
        Totals {
            runs: 0,
            explained: 0,
            unexplained: 0,
            other: 0,
            overlapped: 0,
            failed: 0,
        }
    }

    /// Of one run more.
    #[tactic(auto, using(crate::proofs::Counts::one_more))]
    pub fn with(self, played: &Played) -> Totals
        ensures { (runs : List Played) → length runs < 2 ^ 64 - 1 → self ≡ spec.totals_of runs
            → result ≡ spec.totals_of (runs ++ played.now ∷ []) }
    {
        let explained = u64::from(counts_as(RunClass::Explained, played));
        let unexplained = u64::from(counts_as(RunClass::Unexplained, played));
        let other = u64::from(counts_as(RunClass::Other, played));
        let overlapped = u64::from(is_overlapped(played));
        let failed = u64::from(counts_as(RunClass::Failed, played));
        Totals {
            runs: self.runs.saturating_add(1),
            explained: self.explained.saturating_add(explained),
            unexplained: self.unexplained.saturating_add(unexplained),
            other: self.other.saturating_add(other),
            overlapped: self.overlapped.saturating_add(overlapped),
            failed: self.failed.saturating_add(failed),
        }
    }

    /// The line that says them.
    pub fn line(self, alloc: Global) -> Result<String, AllocError>
        ensures { IfOk result (λ line. string_bytes line ≡ spec.totals_line self) }
    {
        let classes = self.classes(alloc)?;
        let Totals {
            runs,
            overlapped,
            failed,
            ..
        } = self;
        format!(in alloc; "runs {runs} {classes} overlapped {overlapped} failed {failed}\n")
    }

    // How many runs have a verdict, and which.
    fn classes(self, alloc: Global) -> Result<String, AllocError>
        ensures { IfOk result (λ text. string_bytes text ≡ spec.classes_text self) }
    {
        let Totals {
            explained,
            unexplained,
            other,
            ..
        } = self;
        format!(in alloc; "explained {explained} unexplained {unexplained} other {other}")
    }
}

// Whether the run is of this class.
fn counts_as(wanted: RunClass, played: &Played) -> bool
    ensures { result ≡ spec.counts_as wanted played.now }
{
    wanted.is(class_of(played))
}

impl RunClass {
    fn is(self, other: RunClass) -> bool
        ensures { result ≡ spec.is_same_class self other }
    {
        self == other
    }
}

/// What a run counts as.
pub fn class_of(played: &Played) -> RunClass
    ensures { result ≡ spec.class_of played.now }
{
    match played {
        Played::Ended(world, _, verdict, _) => class_by(has_failure(world), verdict),
        Played::NoConnection(_) | Played::NotRun => RunClass::Other,
    }
}

fn class_by(failed: bool, verdict: &Verdict) -> RunClass
    ensures { result ≡ spec.class_by failed verdict.now }
{
    match verdict {
        Verdict::Explained(_) => failed_or(failed, RunClass::Explained),
        Verdict::Unexplained => RunClass::Unexplained,
        Verdict::Undecided => failed_or(failed, RunClass::Other),
    }
}

fn failed_or(failed: bool, other: RunClass) -> RunClass
    ensures { result ≡ spec.failed_or failed other }
{
    if failed { RunClass::Failed } else { other }
}

// Whether a section failed.
fn has_failure(world: &World) -> bool
    ensures { result ≡ spec.has_failure world.now.endings }
{
    is_failed(world.ending(Actor::P))
        || is_failed(world.ending(Actor::A))
        || is_failed(world.ending(Actor::B))
}

fn is_failed(ending: Ending) -> bool
    ensures { result ≡ spec.is_failed ending }
{
    match ending {
        Ending::Failed(_) => true,
        Ending::NotBegun | Ending::Running | Ending::Done => false,
    }
}

// Whether a request of A and one of B were outstanding at once.
fn is_overlapped(played: &Played) -> bool
    ensures { result ≡ spec.is_overlapped played.now }
{
    match played {
        Played::Ended(world, ..) => overlaps(world.notes()),
        Played::NoConnection(_) | Played::NotRun => false,
    }
}
