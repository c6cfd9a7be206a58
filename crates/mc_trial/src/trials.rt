//! A list of events, from the world in which nothing happened to the verdict.
ghost use Rattle.std.specs.Prelude.{IfOk};
ghost use Rattle.mc_core.specs.{Held.IsHeldBy, Histories.history_of};
ghost use Rattle.mc_explain.specs.Verdicts.{IsStated};
ghost use Rattle.mc_trial.specs.Headline.{IsTrial};

use mc_core::{World, drive};
use mc_explain::{Verdict, judge};
use mc_protocol::{Actor, Event, OutOfMemory};
use mc_sound::Checked;
use std::alloc::Global;

/// The world after these events, how many of them it refused, and the verdict on its history. Refused events are skipped; the
/// search for an explanation uses at most `limit` turns.
///
/// # Errors
///
/// That memory ran out: then there is no verdict.
pub fn trial(
    alloc: Global,
    checked: &Checked,
    events: Vec<(Actor, Event)>,
    limit: u64,
) -> Result<(World, u64, Verdict), OutOfMemory>
    ensures headline { IfOk result (λ t. IsTrial checked.now.code events.items t.0.world t.1 t.2) }
    ensures states { IfOk result (λ t. IsStated (history_of checked.now.code t.0.world) t.2) }
    ensures held { IfOk result (λ t. IsHeldBy checked.now.code t.0) }
{
    let (world, skipped) = drive(alloc, checked, events)?;
    let history = world.history(alloc, checked)?;
    let (verdict, _) = judge(alloc, &history, limit)?;
    Ok((world, skipped, verdict))
}
