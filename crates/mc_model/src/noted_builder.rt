//! How a history that keeps its notes is made: note by note, each tested when it is added.
ghost use Rattle.std.specs.Prelude.{◌≡◌, ◌≢◌, ◌∷◌, [], ◌++◌, true, Some, None, OnOk, OnErr, IfOk, IfErr};
ghost use Rattle.mc_model.specs.Next as next;
ghost use Rattle.mc_model.specs.Notes as recorded;

use crate::record::Record;
use crate::rules::HistoryKind;
use crate::{History, HistoryBuilder, Note, Sent};
use mc_protocol::{Actor, OutOfMemory};
use std::alloc::Global;
use std::marker::Model;

/// A history that is made note by note. Contracts see the notes so far, which make a history.
#[derive(Debug)]
pub struct NotedBuilder {
    /// The sections that the notes spell.
    sections: HistoryBuilder,
    notes: Vec<(Actor, Note)>,
}

// One call drops its parts. A derived `Drop` would write them out at each end of each function that holds one.
impl Drop for NotedBuilder {
    fn drop(self) {
        let NotedBuilder {
            sections: _,
            notes: _,
        } = self;
    }
}

impl Model for NotedBuilder {
    ghost use Rattle.std.specs.Prelude.{List};
    ghost use Rattle.mc_model.specs.Notes.{Noted};

    ghost Value = { List Noted };

    ghost view = { λ b. b.notes.items };

    ghost use Rattle.std.specs.Prelude.{◌≡◌, true};
    ghost use Rattle.mc_model.specs.Notes.{is_record, sections_in};

    ghost invariant = { λ b. (is_record b.notes.items ≡ true) × (b.sections ≡ sections_in b.notes.items) };
}

impl NotedBuilder {
    /// A history of which nothing is noted yet.
    pub fn new(alloc: Global) -> Self
        ensures { result ≡ [] }
    {
        NotedBuilder {
            sections: HistoryBuilder::new(alloc),
            notes: Vec::new(alloc),
        }
    }

    /// Adds what is noted next of a section. Where the notes would make no history with it, the fault is the first rule
    /// that is broken, in the order of `first_broken`. An `Err` changes nothing, and the notes make a history all along.
    pub fn push(&mut self, actor: Actor, note: Note) -> Result<(), HistoryKind>
        ensures ok { OnOk result (self.new ≡ self.old ++ (actor, note) ∷ []) }
        ensures history { IfOk result (λ _. recorded.fault_of self.old (actor, note) ≡ None) }
        ensures fault { IfErr result (λ kind. kind ≢ HistoryKind.OutOfMemory → recorded.fault_of self.old (actor, note) ≡ Some kind) }
        ensures err { OnErr result (self.new ≡ self.old) }
        ensures keeps { recorded.is_record self.new ≡ true }
    {
        let copy = note.copy(*self.notes.allocator())?;
        self.notes.push((actor, copy))?;
        let added = add(&mut self.sections, actor, note);
        if added.is_err() {
            self.notes.pop();
        }
        added
    }

    /// The history of what was noted.
    pub fn finish(self) -> Result<History, OutOfMemory>
        ensures same { IfOk result (λ h. h ≡ recorded.with_notes self) }
        ensures history { IfOk result recorded.IsHistory }
    {
        let NotedBuilder { sections, notes } = self;
        let record = Record::new(notes)?;
        Ok(sections.finish_with(record))
    }
}

/// Adds a note to the sections. An `Err` changes nothing.
fn add(sections: &mut HistoryBuilder, actor: Actor, note: Note) -> Result<(), HistoryKind>
    ensures ok { OnOk result (sections.new ≡ next.after_note sections.old (actor, note)) }
    ensures none { IfOk result (λ _. next.note_fault sections.old (actor, note) ≡ None) }
    ensures fault { IfErr result (λ kind. kind ≢ HistoryKind.OutOfMemory → next.note_fault sections.old (actor, note) ≡ Some kind) }
    ensures err { OnErr result (sections.new ≡ sections.old) }
{
    match note {
        Note::Begin(request) => sections.push(
            actor,
            Sent {
                request,
                reply: None,
            },
        ),
        Note::Reply(reply) => sections.answer(actor, reply),
    }
}
