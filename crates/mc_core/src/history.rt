//! The history of a world.
ghost use Rattle.std.specs.Prelude.{◌≡◌, ◌≢◌, ◌++◌, IfOk, OnOk};
ghost use Rattle.mc_core.specs.Fields as fields;
ghost use Rattle.mc_core.specs.Histories as histories;
ghost use Rattle.mc_core.specs.Held.{IsHeldBy};
ghost use Rattle.mc_model.specs.Notes.{IsHistory};

use crate::World;
use crate::section::Section;
use crate::world::know_code;
use mc_code::Code;
use mc_model::{History, HistoryKind, Note, copy_reply};
use mc_protocol::{Actor, Event, OutOfMemory, Sections};
use mc_sound::Checked;
use std::alloc::{AllocError, Global};

impl World {
    /// The history of what happened: the requests of the calls, and the replies to them, in the order in which they were noted.
    /// A fault leaves no note in it.
    pub fn history(&self, alloc: Global, checked: &Checked) -> Result<History, OutOfMemory>
        requires held { IsHeldBy checked.now.code self.now }
        ensures same { IfOk result (λ h. h ≡ histories.history_of checked.now.code self.now.world) }
        ensures sections { IfOk result (λ h. h.sections ≡ histories.sections_of checked.now.code self.now.world) }
        ensures history { IfOk result IsHistory }
    {
        know_code(checked);
        let notes = self.record(alloc, checked)?;
        match History::noted(alloc, notes) {
            Ok(history) => Ok(history),
            Err(fault) => {
                let (kind, _, _) = fault;
                Err(want_of_memory(kind))
            }
        }
    }

    /// What the history has of the notes.
    fn record(&self, alloc: Global, checked: &Checked) -> Result<Vec<(Actor, Note)>, OutOfMemory>
        requires held { IsHeldBy checked.now.code self.now }
        ensures { IfOk result (λ notes. notes.items ≡ histories.record_of checked.now.code self.now.world) }
    {
        know_code(checked);
        let code = checked.code();
        let notes = self.notes.as_slice();
        let mut recorded = Vec::with_capacity(alloc, notes.len())?;
        let mut begun = Sections { p: 0, a: 0, b: 0 };
        'recording: for (actor, event) in notes {
            let section = self.sections.get(*actor);
            let note = note_of(alloc, code, section, *begun.get(*actor), event)?;
            add_note(&mut recorded, *actor, note)?;
            count_begin(&mut begun, *actor, event);
        }
        Ok(recorded)
    }
}

/// The note of a section's event, where `begun` of its calls began before.
fn note_of(
    alloc: Global,
    code: &Code,
    section: &Section,
    begun: usize,
    event: &Event,
) -> Result<Option<Note>, OutOfMemory>
    requires { fields.BeginsNamed code.now section.now begun event.now }
    ensures { IfOk result (λ note. note ≡ fields.note_in code.now section.now begun event.now) }
{
    match event {
        Event::Begin => {
            let request = code.request(alloc, section.call(begun))?;
            Ok(Some(Note::Begin(request)))
        }
        Event::Reply(reply) => Ok(Some(Note::Reply(copy_reply(reply, alloc)?))),
        Event::Fail(_) => Ok(None),
    }
}

/// Adds a section's note, if there is one.
fn add_note(
    notes: &mut Vec<(Actor, Note)>,
    actor: Actor,
    note: Option<Note>,
) -> Result<(), OutOfMemory>
    ensures { OnOk result (notes.new.items ≡ notes.old.items ++ fields.noted_by actor note) }
{
    if let Some(note) = note {
        notes.push((actor, note))?;
    }
    Ok(())
}

/// A history refuses what is recorded of a world for want of memory alone.
fn want_of_memory(kind: HistoryKind) -> OutOfMemory
    requires { (kind ≢ HistoryKind.OutOfMemory) → ⊥ }
{
    let _kind = kind;
    AllocError
}

/// Counts a call that the event begins.
fn count_begin(begun: &mut Sections<usize>, actor: Actor, event: &Event)
    requires { fields.HaveRoom begun.old }
    ensures { fields.CountsBegin begun.old actor event.now begun.new }
{
    if let Event::Begin = event {
        match actor {
            Actor::P => begun.p += 1,
            Actor::A => begun.a += 1,
            Actor::B => begun.b += 1,
        }
    }
}
