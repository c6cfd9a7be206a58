//! The notes of a world, from the first to the last.
ghost use Rattle.std.specs.Prelude.{◌≡◌, ◌↔◌, true, IfOk};
ghost use Rattle.mc_core.specs.Fields as fields;
ghost use Rattle.mc_core.specs.Held.{FindsFold};

use crate::section::Section;
use crate::{World, drive};
use mc_code::Call;
use mc_model::copy_reply;
use mc_protocol::{Actor, Event, Fault, OutOfMemory, Sections};
use mc_sound::Checked;
use std::alloc::Global;

impl World {
    /// The world to which its notes lead in this code, if none of them is refused and that is this world. It asks nothing of the
    /// world: what it answers is held by the code.
    pub fn replay(&self, alloc: Global, checked: &Checked) -> Result<Option<World>, OutOfMemory>
        ensures { IfOk result (FindsFold checked.now.code self.now.world) }
    {
        let events = copy_notes(alloc, self.notes())?;
        let (world, skipped) = drive(alloc, checked, events)?;
        if skipped != 0 {
            return Ok(None);
        }
        if have_same_logs(&self.sections, &world.sections) {
            Ok(Some(world))
        } else {
            Ok(None)
        }
    }
}

/// Whether each section has the same log in both. Their replies stand in the notes.
fn have_same_logs(sections: &Sections<Section>, others: &Sections<Section>) -> bool
    ensures { (result ≡ true) ↔ fields.HaveSameLogs sections.now others.now }
{
    has_same_log(&sections.p, &others.p)
        && has_same_log(&sections.a, &others.a)
        && has_same_log(&sections.b, &others.b)
}

/// Whether both sections made the same calls, and the same fault ended them, or none.
fn has_same_log(section: &Section, other: &Section) -> bool
    ensures { (result ≡ true) ↔ fields.HasSameLog section.now other.now }
{
    are_same_calls(section.answered.as_slice(), other.answered.as_slice())
        && is_same_call(section.waiting(), other.waiting())
        && is_same_fault(section.fault(), other.fault())
}

/// Whether the calls are the same, in the same order.
fn are_same_calls(calls: &[Call], others: &[Call]) -> bool
    ensures { (result ≡ true) ↔ (calls.now ≡ others.now) }
{
    calls == others
}

/// Whether both are the same call, or none.
fn is_same_call(call: Option<Call>, other: Option<Call>) -> bool
    ensures { (result ≡ true) ↔ (call ≡ other) }
{
    call == other
}

/// Whether both are the same fault, or none.
fn is_same_fault(fault: Option<Fault>, other: Option<Fault>) -> bool
    ensures { (result ≡ true) ↔ (fault ≡ other) }
{
    fault == other
}

/// Copies of the notes, in memory of their own.
fn copy_notes(alloc: Global, notes: &[(Actor, Event)]) -> Result<Vec<(Actor, Event)>, OutOfMemory>
    ensures { IfOk result (λ copies. copies.items ≡ notes.now) }
{
    let mut copies = Vec::with_capacity(alloc, notes.len())?;
    'copying: for (actor, event) in notes {
        copies.push((*actor, copy_event(alloc, event)?))?;
    }
    Ok(copies)
}

/// A copy of an event, in memory of its own.
fn copy_event(alloc: Global, event: &Event) -> Result<Event, OutOfMemory>
    ensures { IfOk result (λ copy. copy ≡ event.now) }
{
    Ok(match event {
        Event::Begin => Event::Begin,
        Event::Reply(reply) => Event::Reply(copy_reply(reply, alloc)?),
        Event::Fail(fault) => Event::Fail(*fault),
    })
}
