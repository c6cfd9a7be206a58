//! Runs of which one branch is given to a thread that is kept, and the verdicts on them.
ghost use Rattle.std.specs.Arc.{arc_value};
ghost use Rattle.std.specs.Prelude.{IfOk};
ghost use Rattle.mc_explain.specs.Verdicts.{IsWithin};
ghost use Rattle.mc_trial.specs.Judged.{IsJudged};

use crate::Judged;
use crate::playing::judge_history;
use mc_lane::Stream;
use mc_run::{Desk, Gate, Lanes, Meet, RunError, run_beside};
use mc_sound::Checked;
use std::alloc::Global;
use std::sync::{Arc, Wait};

/// Runs sound code over three lanes, as [`run_beside`], which makes no thread, and judges what came of it in at most `limit` turns.
///
/// # Errors
///
/// Why there is no run, or that memory ran out before there was a verdict: see [`RunError`].
pub fn play_beside<S: Stream, G: Gate, R: Wait>(
    rt: &R,
    alloc: Global,
    checked: &Arc<Checked, Global>,
    lanes: Lanes<S>,
    gate: &G,
    desk: &Desk<S>,
    meet: Meet,
    limit: u64,
) -> Result<Judged<S>, RunError>
    ensures judged { IfOk result (λ j. IsJudged (arc_value checked.now).code j.run.world j.run.lanes j.history j.verdict) }
    ensures turns { IfOk result (λ j. IsWithin limit j.verdict j.turns) }
{
    let (run, history) = run_beside(rt, alloc, checked, lanes, gate, desk, meet)?;
    let (verdict, turns) = judge_history(alloc, checked, &run.world, &history, limit)?;
    Ok(Judged {
        run,
        history,
        verdict,
        turns,
    })
}
