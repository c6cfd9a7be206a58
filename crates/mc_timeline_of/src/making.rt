//! Makes the timeline of a history.
ghost use Rattle.std.specs.Prelude.{◌≡◌, ◌∷◌, [], ◌++◌, true, None, IfOk, OnOk};
ghost use Rattle.std.specs.Option.{option_map};
ghost use Rattle.mc_model.specs.Notes.{is_record};
ghost use Rattle.mc_timeline.specs.Rules as rule;
ghost use Rattle.mc_timeline_of.specs.{SameNotes.client_of, SameNotes.of_clients, SameExplanations.AreExplainedAlike};

use mc_model::{History, HistoryKind, Note};
use mc_protocol::{Actor, OutOfMemory};
use mc_timeline::{Timeline, TimelineBuilder};
use std::alloc::{AllocError, Global};

/// The timeline of the history's notes, in memory of its own: P, A and B are the clients 0, 1 and 2. There is none where the
/// history keeps no notes.
pub fn timeline_of(alloc: Global, history: &History) -> Result<Option<Timeline>, OutOfMemory>
    ensures same { IfOk result (λ made. made ≡ option_map of_clients history.now.notes) }
    ensures explained { IfOk result (AreExplainedAlike history.now) }
{
    match history.notes() {
        Some(notes) => Ok(Some(timeline_of_notes(alloc, notes)?)),
        None => Ok(None),
    }
}

// The timeline of the notes of a history.
fn timeline_of_notes(alloc: Global, notes: &[(Actor, Note)]) -> Result<Timeline, OutOfMemory>
    requires { is_record notes.now ≡ true }
    ensures { IfOk result (λ made. made ≡ of_clients notes.now) }
{
    let mut builder = TimelineBuilder::new(alloc);
    'noting: for (actor, note) in notes {
        add(alloc, &mut builder, client_of(*actor), note.copy(alloc)?)?;
    }
    Ok(builder.finish())
}

// Adds a note that breaks no rule: so the builder refuses it only for want of memory.
fn add(
    alloc: Global,
    builder: &mut TimelineBuilder,
    client: u8,
    note: Note,
) -> Result<(), OutOfMemory>
    requires { rule.fault_of builder.old (client, note) ≡ None }
    ensures { OnOk result (builder.new ≡ builder.old ++ (client, note) ∷ []) }
{
    match builder.push(alloc, client, note) {
        Ok(()) => Ok(()),
        Err(kind) => match kind {
            HistoryKind::OutOfMemory => Err(AllocError),
            _ => unreachable!(),
        },
    }
}

// The number of the client that a section is.
fn client_of(actor: Actor) -> u8
    ensures { result ≡ client_of actor }
{
    match actor {
        Actor::P => 0,
        Actor::A => 1,
        Actor::B => 2,
    }
}
