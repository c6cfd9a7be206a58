//! What was noted of three sections, and how many requests were answered before another one began.
ghost use Rattle.std.specs.Prelude.{◌≡◌, Some, IfOk, length, if◌then◌else◌};
ghost use Rattle.mc_model.specs.Notes as recorded;

use crate::Note;
use mc_protocol::{Actor, OutOfMemory};
use std::alloc::Global;
use std::marker::Model;

/// Notes in their order. Contracts see the list of them.
#[derive(Debug, Drop)]
pub(crate) struct Record {
    notes: Vec<(Actor, Note)>,
    /// For each request of A, how many of B's were answered before it began.
    before_a: Vec<usize>,
    /// For each request of B, how many of A's were answered before it began.
    before_b: Vec<usize>,
}

impl Model for Record {
    ghost use Rattle.std.specs.Prelude.{List};
    ghost use Rattle.mc_model.specs.Notes.{Noted};

    ghost Value = { List Noted };

    ghost view = { λ r. r.notes.items };

    ghost use Rattle.std.specs.Prelude.{◌≡◌};
    ghost use Rattle.mc_protocol.specs.declared.actor.Actor.TheVariants as actor;
    ghost use Rattle.mc_model.specs.Notes.{answered_before_each};

    ghost invariant = { λ r. (r.before_a.items ≡ answered_before_each actor.A actor.B r.notes.items)
        × (r.before_b.items ≡ answered_before_each actor.B actor.A r.notes.items) };
}

impl Record {
    /// The notes, with the counts that they give.
    pub(crate) fn new(notes: Vec<(Actor, Note)>) -> Result<Record, OutOfMemory>
        ensures { IfOk result (λ r. r ≡ notes.items) }
    {
        let alloc = *notes.allocator();
        let before_a = answered_before_each(alloc, Actor::A, Actor::B, notes.as_slice())?;
        let before_b = answered_before_each(alloc, Actor::B, Actor::A, notes.as_slice())?;
        Ok(Record {
            notes,
            before_a,
            before_b,
        })
    }

    /// The notes in their order.
    pub(crate) fn notes(&self) -> &[(Actor, Note)]
        ensures { result.now ≡ self.now }
    {
        self.notes.as_slice()
    }

    /// How many requests of the other branch were answered before the branch's request at this place began; 0 for P, and
    /// where there is no such request.
    pub(crate) fn answered_before(&self, actor: Actor, place: usize) -> usize
        ensures { result ≡ recorded.answered_before (Some self.now) actor place }
    {
        let counts = match actor {
            Actor::P => return 0,
            Actor::A => self.before_a.as_slice(),
            Actor::B => self.before_b.as_slice(),
        };
        match counts.get(place) {
            Some(count) => *count,
            None => 0,
        }
    }
}

/// For each request of the section, how many of the other section's were answered before it began.
fn answered_before_each(
    alloc: Global,
    section: Actor,
    other: Actor,
    notes: &[(Actor, Note)],
) -> Result<Vec<usize>, OutOfMemory>
    ensures { IfOk result (λ counts. counts.items ≡ recorded.answered_before_each section other notes.now) }
{
    let mut counts = Vec::new(alloc);
    let mut answered = 0;
    'counting: for (actor, note) in notes {
        if begins(section, *actor, note) {
            counts.push(answered)?;
        }
        if replies(other, *actor, note) {
            answered += 1;
        }
    }
    Ok(counts)
}

/// Whether a request of the section begins.
fn begins(section: Actor, actor: Actor, note: &Note) -> bool
    ensures { result ≡ recorded.begins section (actor, note.now) }
{
    match note {
        Note::Begin(_) => section == actor,
        Note::Reply(_) => false,
    }
}

/// Whether a reply to the section comes.
fn replies(section: Actor, actor: Actor, note: &Note) -> bool
    ensures { (if result then 1 else 0) ≡ length (recorded.replied_by section (actor, note.now)) }
{
    match note {
        Note::Begin(_) => false,
        Note::Reply(_) => section == actor,
    }
}
