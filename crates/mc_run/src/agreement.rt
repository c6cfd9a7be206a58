//! Whether a world, its notes and the lanes of its sections agree.
ghost use Rattle.std.specs.Prelude.{◌≡◌, ◌↔◌, true, IfOk};
ghost use Rattle.mc_protocol.specs.Sections.{section_of};
ghost use Rattle.mc_run.specs.Agreement as spec;

use crate::Lanes;
use mc_core::{Ending, World};
use mc_lane::Stream;
use mc_model::History;
use mc_protocol::{Actor, OutOfMemory};
use mc_recorded::is_recorded;
use mc_sound::Checked;
use std::alloc::Global;

/// Whether the world is the one that its notes lead to in this code, no section goes on, and each lane recorded what was noted of
/// its section. It asks nothing of the world or of the lanes.
///
/// # Errors
///
/// That memory ran out: then there is no answer.
pub fn agrees<S: Stream>(
    alloc: Global,
    checked: &Checked,
    world: &World,
    lanes: &Lanes<S>,
) -> Result<bool, OutOfMemory>
    ensures { IfOk result (λ answer. (answer ≡ true) ↔ spec.Agree checked.now.code world.now.world lanes.now) }
{
    Ok(find_agreed(alloc, checked, world, lanes)?.is_some())
}

/// The world that the notes lead to, with its history, where world, notes and lanes agree. It is the same world, and is held by the
/// code. The history is the one that was compared with the lanes, so that who judges the run needn't make it once more.
pub(crate) fn find_agreed<S: Stream>(
    alloc: Global,
    checked: &Checked,
    world: &World,
    lanes: &Lanes<S>,
) -> Result<Option<(World, History)>, OutOfMemory>
    ensures { IfOk result (spec.FindsAgreed checked.now.code world.now.world lanes.now) }
{
    let Some(replayed) = world.replay(alloc, checked)? else {
        return Ok(None);
    };
    let history = replayed.history(alloc, checked)?;
    if agree_in_sections(alloc, &replayed, &history, lanes)? {
        Ok(Some((replayed, history)))
    } else {
        Ok(None)
    }
}

/// Whether no section goes on, and each lane recorded what was noted of its section.
fn agree_in_sections<S: Stream>(
    alloc: Global,
    world: &World,
    history: &History,
    lanes: &Lanes<S>,
) -> Result<bool, OutOfMemory>
    ensures { IfOk result (λ answer. (answer ≡ true) ↔ ((who : Actor) → spec.AgreesIn world.now history.now.sections lanes.now who)) }
{
    if !agrees_in(alloc, world, history, lanes, Actor::P)? {
        return Ok(false);
    }
    if !agrees_in(alloc, world, history, lanes, Actor::A)? {
        return Ok(false);
    }
    agrees_in(alloc, world, history, lanes, Actor::B)
}

/// The same of one section.
fn agrees_in<S: Stream>(
    alloc: Global,
    world: &World,
    history: &History,
    lanes: &Lanes<S>,
    actor: Actor,
) -> Result<bool, OutOfMemory>
    ensures { IfOk result (λ answer. (answer ≡ true) ↔ spec.AgreesIn world.now history.now.sections lanes.now actor) }
{
    if goes_on(world, actor) {
        return Ok(false);
    }
    is_recorded(
        alloc,
        history.sent(actor),
        world.fault(actor),
        lanes.get(actor),
    )
}

/// Whether the section goes on.
fn goes_on(world: &World, actor: Actor) -> bool
    ensures { (result ≡ true) ↔ (section_of world.now.endings actor ≡ Ending.Running) }
{
    world.ending(actor) == Ending::Running
}
