//! A list of events, from the first to the last.
ghost use Rattle.std.specs.Prelude.{◌≡◌, IfOk};
ghost use Rattle.mc_core.specs.{Held.IsHeldBy, Safety.IsSafe, Steps.IsFold, Worlds.new_world};

use crate::World;
use crate::world::know_code;
use mc_protocol::{Actor, Event, OutOfMemory};
use mc_sound::Checked;
use std::alloc::Global;

/// The world after these events, and how many of them it refused: those are skipped.
pub fn drive(
    alloc: Global,
    checked: &Checked,
    events: Vec<(Actor, Event)>,
) -> Result<(World, u64), OutOfMemory>
    ensures fold { IfOk result (λ driven. IsFold checked.now.code new_world events.items driven.0.world driven.1) }
    ensures safe { IfOk result (λ driven. IsSafe checked.now.code driven.0.world) }
    ensures held { IfOk result (λ driven. IsHeldBy checked.now.code driven.0) }
{
    know_code(checked);
    let mut world = World::start(alloc, checked)?;
    let mut skipped = 0;
    'driving: for (actor, event) in events {
        if world.step(checked, actor, event).is_err() {
            skipped += 1;
        }
    }
    Ok((world, skipped))
}
