//! Histories that end with another reply at a place.
ghost use Rattle.std.specs.Prelude.{◌≡◌, ◌++◌, true, IfOk, IfSome, None, slice_get, take};
ghost use Rattle.mc_model.specs.{History.is_history, Notes.with_notes, Notes.without_notes, Sections.with_sent};
ghost use Rattle.mc_why.specs.Forms as forms;

use crate::cutting::{copy_notes, copy_requests, cut_sections, first};
use crate::report::request_place;
use mc_model::{History, HistoryKind, Note, Sent};
use mc_protocol::{Actor, OutOfMemory, Reply};
use std::alloc::{AllocError, Global};

/// The history of what stands before the place, and there this reply in place of the one that came. `None` if that isn't a history.
pub(crate) fn replied(
    alloc: Global,
    history: &History,
    place: usize,
    reply: Reply,
) -> Result<Option<History>, OutOfMemory>
    ensures { IfOk result (λ found. IfSome found (λ h. h ≡ forms.replied reply place history.now)) }
{
    match history.notes() {
        Some(notes) => replied_note(alloc, notes, place, reply),
        None => replied_request(alloc, history, place, reply),
    }
}

/// The history of the notes before the place, and of the one there with this reply.
fn replied_note(
    alloc: Global,
    notes: &[(Actor, Note)],
    place: usize,
    reply: Reply,
) -> Result<Option<History>, OutOfMemory>
    ensures { IfOk result (λ found. IfSome found (λ h. h
        ≡ with_notes (take place notes.now ++ forms.note_with reply (slice_get notes.now place)))) }
{
    let Some((actor, _)) = notes.get(place) else {
        return Ok(None);
    };
    let mut copies = copy_notes(alloc, first(notes, place))?;
    copies.push((*actor, Note::Reply(reply)))?;
    match History::noted(alloc, copies) {
        Ok(history) => Ok(Some(history)),
        Err((kind, _, _)) => none_for(kind),
    }
}

/// The history of the requests before the place, and of the one there with this reply.
fn replied_request(
    alloc: Global,
    history: &History,
    place: usize,
    reply: Reply,
) -> Result<Option<History>, OutOfMemory>
    requires { is_history history.now.sections ≡ true }
    ensures { IfOk result (λ found. IfSome found (λ h. h ≡ forms.replied_of reply place None history.now.sections)) }
{
    let (section, index) = request_place(history, place);
    let Some(sent) = history.sent(section).get(index) else {
        return Ok(None);
    };
    let answered = Sent {
        request: sent.request.copy(alloc)?,
        reply: Some(reply),
    };
    let before = cut_sections(alloc, history, place)?;
    with_request(alloc, &before, section, answered)
}

/// The history of these requests, and of one more of the section.
fn with_request(
    alloc: Global,
    before: &History,
    section: Actor,
    sent: Sent,
) -> Result<Option<History>, OutOfMemory>
    ensures { IfOk result (λ found. IfSome found (λ h. h ≡ without_notes (with_sent before.now.sections section sent))) }
{
    let mut p = copy_requests(alloc, before.sent(Actor::P))?;
    let mut a = copy_requests(alloc, before.sent(Actor::A))?;
    let mut b = copy_requests(alloc, before.sent(Actor::B))?;
    match section {
        Actor::P => {
            p.push(sent)?;
            history_of(alloc, p, a, b)
        }
        Actor::A => {
            a.push(sent)?;
            history_of(alloc, p, a, b)
        }
        Actor::B => {
            b.push(sent)?;
            history_of(alloc, p, a, b)
        }
    }
}

/// The history of these sections, if they keep the rules.
fn history_of(
    alloc: Global,
    p: Vec<Sent>,
    a: Vec<Sent>,
    b: Vec<Sent>,
) -> Result<Option<History>, OutOfMemory>
    ensures { IfOk result (λ found. IfSome found (λ h. h ≡ without_notes (record { p = p.items; a = a.items; b = b.items }))) }
{
    match History::new(alloc, p, a, b) {
        Ok(history) => Ok(Some(history)),
        Err((kind, _, _)) => none_for(kind),
    }
}

/// No history for a rule that is broken, and no answer for want of memory.
fn none_for(kind: HistoryKind) -> Result<Option<History>, OutOfMemory>
    ensures { IfOk result (λ found. found ≡ None) }
{
    match kind {
        HistoryKind::OutOfMemory => Err(AllocError),
        _ => Ok(None),
    }
}
