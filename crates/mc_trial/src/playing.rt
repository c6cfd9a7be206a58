//! Runs, and the verdicts on them.
ghost use Rattle.std.specs.Prelude.{◌≡◌, IfOk};
ghost use Rattle.mc_core.specs.{Held.IsHeldBy, Histories.history_of};
ghost use Rattle.mc_explain.specs.Verdicts.{IsStated, IsWithin};
ghost use Rattle.mc_run.specs.Running.{AllGrew, AreNew};
ghost use Rattle.mc_trial.specs.{Headline.IsTrial, Judged.IsJudged};

use core::thread::Stack;
use mc_core::{World, folds_are_safe};
use mc_explain::{Verdict, judge};
use mc_lane::Stream;
use mc_model::History;
use mc_protocol::OutOfMemory;
use mc_run::{Gate, Lanes, Meet, Run, RunError, run_lanes_with};
use mc_sound::Checked;
use std::alloc::Global;
use std::sync::Wait;
use std::thread::Threads;

/// The history of the run, the verdict on it, and the number of turns that the search for an explanation used, which is at
/// most `limit`.
///
/// The run's code is the one that it ran. Of its notes, as of the events of a [`trial`](crate::trial), all is true that
/// stands there, and none of them was refused.
///
/// # Errors
///
/// That memory ran out: then there is no verdict.
pub fn judge_run<S: Stream>(
    alloc: Global,
    checked: &Checked,
    run: &Run<S>,
    limit: u64,
) -> Result<(History, Verdict, u64), OutOfMemory>
    requires held { IsHeldBy checked.now.code run.now.world }
    ensures headline { IfOk result (λ judged. IsTrial checked.now.code run.now.world.world.notes run.now.world.world 0 judged.1) }
    ensures history { IfOk result (λ judged. judged.0 ≡ history_of checked.now.code run.now.world.world) }
    ensures states { IfOk result (λ judged. IsStated (history_of checked.now.code run.now.world.world) judged.1) }
    ensures turns { IfOk result (λ judged. IsWithin limit judged.1 judged.2) }
{
    let Run { world, .. } = run;
    let history = world.history(alloc, checked)?;
    let (verdict, turns) = judge_history(alloc, checked, world, &history, limit)?;
    Ok((history, verdict, turns))
}

/// The verdict on the history of a world, and the number of turns that the search for an explanation used.
pub(crate) fn judge_history(
    alloc: Global,
    checked: &Checked,
    world: &World,
    history: &History,
    limit: u64,
) -> Result<(Verdict, u64), OutOfMemory>
    requires held { IsHeldBy checked.now.code world.now }
    requires history { history.now ≡ history_of checked.now.code world.now.world }
    ensures headline { IfOk result (λ judged. IsTrial checked.now.code world.now.world.notes world.now.world 0 judged.0) }
    ensures states { IfOk result (λ judged. IsStated (history_of checked.now.code world.now.world) judged.0) }
    ensures turns { IfOk result (λ judged. IsWithin limit judged.0 judged.1) }
{
    // These three calls are here for what they promise, and the headline rests on: folds are safe, the code is sound, and the notes
    // are small.
    folds_are_safe();
    let _code = checked.code();
    let _notes = world.notes();
    let (verdict, turns) = judge(alloc, history, limit)?;
    Ok((verdict, turns))
}

/// A run, its history, and the verdict on it.
#[derive(Debug, Drop)]
pub struct Judged<S: Stream> {
    pub run: Run<S>,
    pub history: History,
    pub verdict: Verdict,
    /// How many turns the search for an explanation used.
    pub turns: u64,
}

/// Runs sound code over three new lanes, as [`run_lanes_with`], and judges what came of it in at most `limit`
/// turns. The lanes are as the run left them, and those that no fault closed are open.
///
/// # Errors
///
/// Why there is no run, or that memory ran out before there was a verdict: see [`RunError`].
pub fn play<S: Stream + Send, G: Gate, R: Threads + Wait + Sync>(
    rt: &R,
    alloc: Global,
    checked: &Checked,
    lanes: Lanes<S>,
    gate: &G,
    stack: Stack,
    meet: Meet,
    limit: u64,
) -> Result<Judged<S>, RunError>
    requires new { AreNew lanes }
    ensures judged { IfOk result (λ j. IsJudged checked.now.code j.run.world j.run.lanes j.history j.verdict) }
    ensures grew { IfOk result (λ j. AllGrew lanes j.run.lanes) }
    ensures turns { IfOk result (λ j. IsWithin limit j.verdict j.turns) }
{
    let (run, history) = run_lanes_with(rt, alloc, checked, lanes, gate, stack, meet)?;
    let (verdict, turns) = judge_history(alloc, checked, &run.world, &history, limit)?;
    Ok(Judged {
        run,
        history,
        verdict,
        turns,
    })
}
