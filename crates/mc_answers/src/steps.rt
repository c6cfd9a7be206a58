//! A list of steps, from the world in which nothing happened to their last.
ghost use Rattle.std.specs.Prelude.{◌≡◌, ◌+◌, ◌-◌, ◌^◌, ◌<◌, ◌≤◌, ◌∷◌, [], ◌++◌, List, length, IfOk};
ghost use Rattle.mc_code.specs.Code.{Code};
ghost use Rattle.mc_core.specs.{Held.IsHeldBy, Histories.record_of, Histories.recorded_after, Safety.AreSmall, Safety.IsSafe, Steps.IsFold};
ghost use Rattle.mc_core.specs.Worlds as worlds;
ghost use Rattle.mc_answers.specs.StepLines.{AreMadeBy};

use mc_core::{World, folds_are_safe};
use mc_protocol::{Actor, Event};
use mc_sound::Checked;
use std::alloc::{AllocError, Global};

/// Where steps led.
#[derive(Drop)]
pub struct Taken {
    pub world: World,
    /// How many steps were refused and skipped.
    pub skipped: u64,
    /// For each note of the world's history the index of the step that made it.
    pub makers: Vec<usize>,
}

/// Takes one step after the other, and skips those that are refused.
pub fn take_steps(
    alloc: Global,
    checked: &Checked,
    steps: Vec<(Actor, Event)>,
) -> Result<Taken, AllocError>
    ensures fold { IfOk result (λ taken. IsFold checked.now.code worlds.new_world steps.items taken.world.world taken.skipped) }
    ensures held { IfOk result (λ taken. IsHeldBy checked.now.code taken.world) }
    ensures safe { IfOk result (λ taken. IsSafe checked.now.code taken.world.world) }
    ensures made { IfOk result (λ taken. AreMadeBy checked.now.code steps.items taken.world.world taken.makers.items) }
{
    folds_are_safe();
    // That the code is sound is what reading it tells.
    let _code = checked.code();
    let mut world = World::start(alloc, checked)?;
    let mut skipped = 0;
    let mut makers = Vec::new(alloc);
    let mut index = 0;
    'steps: for (actor, event) in steps {
        let notes = take_step(&mut world, checked, actor, event, &mut skipped);
        if notes > 0 {
            makers.push(index)?;
        }
        index += 1;
    }
    Ok(Taken {
        world,
        skipped,
        makers,
    })
}

// Takes the step, or counts and skips it where it is refused, and answers how many notes of the history it makes.
fn take_step(
    world: &mut World,
    checked: &Checked,
    actor: Actor,
    event: Event,
    skipped: &mut u64,
) -> usize
    requires held { IsHeldBy checked.now.code world.old }
    requires room { skipped.old < 2 ^ 64 - 1 }
    ensures fold { (front : List worlds.Noted) → IsFold checked.now.code worlds.new_world front world.old.world skipped.old
        → IsFold checked.now.code worlds.new_world (front ++ (actor, event) ∷ []) world.new.world skipped.new }
    ensures notes { length (record_of checked.now.code world.new.world) ≡ length (record_of checked.now.code world.old.world) + result }
    ensures one { result ≤ 1 }
    ensures few { skipped.new ≤ skipped.old + 1 }
    ensures held { IsHeldBy checked.now.code world.new }
    ensures small { AreSmall world.new.world.notes }
{
    let notes = note_count(&event);
    match world.step(checked, actor, event) {
        Ok(()) => notes,
        Err(_) => {
            *skipped += 1;
            0
        }
    }
}

// How many notes of a history the event makes.
fn note_count(event: &Event) -> usize
    ensures count { (c : Code) (w : worlds.World) (front : List worlds.Noted) (who : Actor)
        → length (recorded_after c w front (who, event.now)) ≡ result }
    ensures one { result ≤ 1 }
{
    match event {
        Event::Begin | Event::Reply(_) => 1,
        Event::Fail(_) => 0,
    }
}
