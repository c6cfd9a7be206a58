//! Reads the text of a step list.
ghost use Rattle.std.specs.Prelude.{◌≡◌, ◌≢◌, ◌≤◌, ◌↔◌, List, [], ◌∷◌, IfOk, IfErr, OnOk};
ghost use Rattle.mc_protocol.specs.{Lines.Words, declared.actor.Actor.Actor, declared.event.Event.Event};
ghost use Rattle.mc_history.specs.StepText.{SpellsSteps, steps_line};
ghost use Rattle.mc_history.specs.{Refuses.Refuses, StepReading.SpellsOnward};

use crate::lines::{finish, next_due};
use crate::step_lines::read_step;
use crate::{Expected, StepsFault, StepsKind};
use mc_protocol::{Actor, Event, Separator, WordLines};
use std::alloc::Global;

/// The most steps of a step list.
pub const STEP_LIST_LIMIT: usize = 1_000;

/// Reads a step list: in which section what happens next. Its lines count from `first_line`, so that a list that stands
/// after a script has the numbers of the whole text. The fault is that of the first faulty line; on one line Line comes
/// before TooMany. Want of memory is the fault of line 0.
pub fn parse_steps(
    alloc: Global,
    text: &[u8],
    first_line: u32,
) -> Result<Vec<(Actor, Event)>, StepsFault>
    ensures found { IfOk result (λ steps. SpellsSteps text.now steps.items) }
    ensures none { IfErr result (λ fault. fault.kind ≢ StepsKind.OutOfMemory
        → (steps : List (Actor × Event)) → SpellsSteps text.now steps → ⊥) }
    ensures line { IfErr result (λ fault. fault.kind ≢ StepsKind.OutOfMemory → first_line ≤ fault.line) }
    ensures memory { IfErr result (λ fault. fault.kind ≡ StepsKind.OutOfMemory → fault.line ≡ 0) }
{
    match read_text(alloc, text) {
        Ok(steps) => Ok(steps),
        Err(fault) => Err(fault.counted_from(first_line)),
    }
}

// Reads a step list whose lines count from 1.
fn read_text(alloc: Global, text: &[u8]) -> Result<Vec<(Actor, Event)>, StepsFault>
    ensures found { IfOk result (λ steps. SpellsSteps text.now steps.items) }
    ensures none { IfErr result (Refuses (SpellsSteps text.now)) }
{
    let mut lines = WordLines::new(text, Separator::Space);
    take_header(alloc, &mut lines)?;
    let steps = read_steps(alloc, &mut lines)?;
    finish(alloc, &mut lines)?;
    Ok(steps)
}

// Takes the first line.
fn take_header(alloc: Global, lines: &mut WordLines) -> Result<(), StepsFault>
    ensures header { OnOk result (lines.old.words ≡ steps_line ∷ lines.new.words) }
    ensures none { IfErr result (λ fault. fault.kind ≢ StepsKind.OutOfMemory
        → (others : List Words) → lines.old.words ≡ steps_line ∷ others → ⊥) }
{
    let Some(line) = lines.next(alloc)? else {
        return Err(StepsFault::at(StepsKind::Header, 1, 0, Expected::StepsHeader));
    };
    if line.is_only(b"steps") {
        return Ok(());
    }
    let word = if line.begins_with(b"steps") { 1 } else { 0 };
    Err(StepsFault::at(
        StepsKind::Header,
        line.number(),
        word,
        Expected::StepsHeader,
    ))
}

// Reads the lines of the steps, and takes the line `end` after them.
fn read_steps(alloc: Global, lines: &mut WordLines) -> Result<Vec<(Actor, Event)>, StepsFault>
    ensures exact { IfOk result (λ steps. (all : List (Actor × Event))
        → SpellsOnward lines.old.words all ↔ ((all ≡ steps.items) × (lines.new.words ≡ []))) }
    ensures none { IfErr result (Refuses (SpellsOnward lines.old.words)) }
{
    let mut steps = Vec::new(alloc);
    'steps: loop {
        let line = next_due(alloc, lines, StepsKind::Unended)?;
        if line.is_only(b"end") {
            return Ok(steps);
        }
        let step = read_step(alloc, &line)?;
        if steps.len() >= STEP_LIST_LIMIT {
            return Err(StepsFault::at(StepsKind::TooMany, line.number(), 0, Expected::RoomForStep));
        }
        steps.push(step)?;
    }
}
