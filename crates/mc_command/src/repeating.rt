//! Runs of one script, one after another.
ghost use Rattle.std.specs.Prelude.{◌≡◌, ◌<◌, ◌-◌, ◌^◌, ◌⊎◌, Bool, false, true, not, List, ◌∷◌, [], ◌++◌, length, IfOk, IfSome, None};
ghost use Rattle.std.specs.Arc.{arc_value};
ghost use Rattle.mc_code.specs.Code.{Code};
ghost use Rattle.mc_command.specs.RepeatAnswers as answers;
ghost use Rattle.mc_command.specs.{RunAnswers.IsRightFor, SoFar.AreFirst, SoFar.IsSoFar, declared.run.Played.Played};

use crate::keeping::{later_remarks, play_kept};
use crate::renaming::{Renaming, leaves_request};
use crate::run::{Played, Remarks, status_of};
use crate::run_teller::RunObserver;
use crate::totals::Totals;
use mc_cli::{Repeat, RunArgs};
use mc_connect::{Kept, Network, Socket};
use mc_lane::Wire;
use mc_run::Desk;
use mc_sound::Checked;
use std::alloc::{AllocError, Global};
use std::io;
use std::rt::Clock;
use std::sync::{Arc, Wait};
use std::thread::Threads;
use std::time::{Duration, Instant};

/// The runs so far: what they came to, and the one that is handed out.
#[derive(Drop)]
pub struct Runs {
    /// The first whose status isn't 0, or else the last.
    pub played: Played,
    /// What standard error says of it.
    pub remarks: Remarks,
    /// Its number, counted from 1.
    pub number: u64,
    pub totals: Totals,
    /// The server may still act on a request of the last one.
    unsettled: bool,
}

impl Runs {
    /// One run.
    fn new(played: Played, remarks: Remarks) -> Runs
        ensures so_far { (why : Bool) (code : Code) → IsRightFor why code played → IsSoFar why code (played ∷ []) result }
        ensures last { result.number ≡ 1 }
    {
        let totals = Totals::new().with(&played);
        let unsettled = leaves_request(&played);
        Runs {
            played,
            remarks,
            number: 1,
            totals,
            unsettled,
        }
    }

    /// One run more.
    fn with(self, played: Played, remarks: Remarks) -> Runs
        ensures so_far { (why : Bool) (code : Code) (all : List Played) → IsSoFar why code all self → length all < 2 ^ 64 - 1
            → answers.IsRightUnder why code played → (answers.AreSettled all → IsRightFor why code played)
            → (answers.succeeds self.played ≡ true → IsRightFor why code played) → IsSoFar why code (all ++ played ∷ []) result }
        ensures last { answers.succeeds self.played ≡ true → result.number ≡ result.totals.runs }
        ensures first { answers.succeeds result.played ≡ true → answers.succeeds self.played ≡ true }
        ensures same { answers.succeeds self.played ≡ false → (result.number ≡ self.number) × (result.played ≡ self.played) }
    {
        let totals = self.totals.with(&played);
        let unsettled = leaves_request(&played);
        if self.has_failed() {
            return Runs {
                totals,
                unsettled,
                ..self
            };
        }
        Runs {
            played,
            remarks,
            number: totals.runs,
            totals,
            unsettled,
        }
    }

    /// There was a run whose status isn't 0.
    fn has_failed(&self) -> bool
        ensures { result ≡ not (answers.succeeds self.now.played) }
    {
        !status_of(&self.played).is_success()
    }

    /// There was one, and others may follow it.
    pub fn may_go_on(&self, keep_going: bool) -> bool
        ensures on { result ≡ true → (keep_going ≡ true) × (answers.succeeds self.now.played ≡ false) }
        ensures over { result ≡ false → (keep_going ≡ false) ⊎ (answers.succeeds self.now.played ≡ true) }
    {
        self.has_failed() && keep_going
    }
}

/// Runs the code until a run's status isn't 0, or there are as many runs as are wanted, or the time since `begun` is over. A run that
/// has begun is not cut off. Connections serve more than one run, unless the target says otherwise.
pub fn first_runs<R: Threads + Wait + Clock + Sync, N: Network, T: RunObserver>(
    rt: &R,
    alloc: Global,
    target: &RunArgs<'_>,
    repeat: Repeat,
    begun: &io::Result<Instant>,
    checked: &Arc<Checked, Global>,
    network: &mut N,
    observer: &mut T,
    kept: &mut Kept<N::Connection>,
    desk: Option<&Desk<Wire<Socket<N::Connection>>>>,
) -> Result<Runs, AllocError>
    ensures { IfOk result (λ runs. AreFirst repeat target.now.how.why (arc_value checked.now).code runs) }
{
    let most = repeat.times.unwrap_or(u64::MAX);
    let (played, remarks) = play_kept(rt, alloc, target, checked, network, kept, desk)?;
    observer.add(&played);
    let mut runs = Runs::new(played, remarks);
    'runs: for done in 1..most {
        if runs.has_failed() {
            return Ok(runs);
        }
        if is_late(rt, begun, repeat.time) {
            return Ok(runs);
        }
        let (played, remarks) = play_kept(rt, alloc, target, checked, network, kept, desk)?;
        observer.add(&played);
        observer.pass_over(runs.number, &runs.remarks);
        observer.pass_over(runs.number, &later_remarks(alloc, kept)?);
        runs = runs.with(played, remarks);
    }
    Ok(runs)
}

/// Runs the code on after a run whose status isn't 0, which stays the one that is handed out, until there are as many runs as are wanted,
/// or the time since `begun` is over. After a run that leaves a request on which the server may still act, the code is put under a name
/// that no run had, or no run follows.
pub fn go_on<R: Threads + Wait + Clock + Sync, N: Network, T: RunObserver>(
    rt: &R,
    alloc: Global,
    target: &RunArgs<'_>,
    repeat: Repeat,
    begun: &io::Result<Instant>,
    checked: &Arc<Checked, Global>,
    network: &mut N,
    observer: &mut T,
    kept: &mut Kept<N::Connection>,
    desk: Option<&Desk<Wire<Socket<N::Connection>>>>,
    first: Runs,
) -> Result<Totals, AllocError>
    requires first { AreFirst repeat target.now.how.why (arc_value checked.now).code first }
    requires failed { answers.succeeds first.played ≡ false }
    requires keeps_going { repeat.keep_going ≡ true }
    ensures { IfOk result (λ totals.
        answers.Comes repeat target.now.how.why (arc_value checked.now).code first.number first.played totals) }
{
    let most = repeat.times.unwrap_or(u64::MAX);
    let mut runs = first;
    let mut renaming = Renaming::new(rt);
    'runs: for done in runs.totals.runs..most {
        if is_late(rt, begun, repeat.time) {
            return Ok(runs.totals);
        }
        let ready = make_ready(alloc, &runs, checked, &mut renaming)?;
        if !ready {
            observer.stop(runs.totals.runs);
            return Ok(runs.totals);
        }
        let code = renaming.code(checked);
        let (played, remarks) = play_kept(rt, alloc, target, code, network, kept, desk)?;
        observer.add(&played);
        observer.pass_over(runs.totals.runs, &later_remarks(alloc, kept)?);
        observer.pass_over(runs.totals.runs.saturating_add(1), &remarks);
        runs = runs.with(played, remarks);
    }
    Ok(runs.totals)
}

// Puts the code under a new name where the last run asks for that, and answers whether another run may follow.
fn make_ready(
    alloc: Global,
    runs: &Runs,
    checked: &Arc<Checked, Global>,
    renaming: &mut Renaming,
) -> Result<bool, AllocError>
    requires under { IfSome renaming.old.under (λ under. answers.IsUnderSome (arc_value checked.now).code (arc_value under).code) }
    ensures under { IfOk result (λ ready. ready ≡ true
        → IfSome renaming.new.under (λ under. answers.IsUnderSome (arc_value checked.now).code (arc_value under).code)) }
    ensures same { IfOk result (λ ready. ready ≡ true → (renaming.new.under ≡ renaming.old.under) ⊎ (runs.now.unsettled ≡ true)) }
    ensures ends { IfOk result (λ ready. ready ≡ false → runs.now.unsettled ≡ true) }
{
    if runs.unsettled {
        renaming.rename(alloc, checked)
    } else {
        Ok(true)
    }
}

/// The time has passed, if there is one, or the clock can't say that it hasn't.
pub fn is_late<R: Clock>(rt: &R, begun: &io::Result<Instant>, time: Option<u64>) -> bool
    ensures { time ≡ None → result ≡ false }
{
    let Some(time) = time else {
        return false;
    };
    match begun {
        Ok(begun) => match begun.elapsed(rt) {
            Ok(passed) => passed >= Duration::from_millis(time),
            Err(_) => true,
        },
        Err(_) => true,
    }
}
