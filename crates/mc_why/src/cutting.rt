//! Histories cut at a place.
ghost use Rattle.std.specs.Prelude.{◌≡◌, true, IfOk, take};
ghost use Rattle.mc_model.specs.{History.is_history, Notes.is_record, Notes.with_notes, Notes.without_notes};
ghost use Rattle.mc_why.specs.Cuts as cuts;

use mc_model::{History, HistoryKind, Note, Sent, copy_reply};
use mc_protocol::{Actor, OutOfMemory};
use std::alloc::{AllocError, Global};

/// The history of the first `count` notes, or, where the history keeps none, of its first `count` requests: P's, then A's, then
/// B's. It has memory of its own.
///
/// # Errors
///
/// That memory ran out.
pub fn cut(alloc: Global, history: &History, count: usize) -> Result<History, OutOfMemory>
    ensures { IfOk result (λ h. h ≡ cuts.cut count history.now) }
{
    match history.notes() {
        Some(notes) => cut_notes(alloc, notes, count),
        None => cut_sections(alloc, history, count),
    }
}

/// The history of the first `count` notes of one.
fn cut_notes(alloc: Global, notes: &[(Actor, Note)], count: usize) -> Result<History, OutOfMemory>
    requires { is_record notes.now ≡ true }
    ensures { IfOk result (λ h. h ≡ with_notes (take count notes.now)) }
{
    let copies = copy_notes(alloc, first(notes, count))?;
    match History::noted(alloc, copies) {
        Ok(history) => Ok(history),
        Err(fault) => {
            let (kind, _, _) = fault;
            Err(want_of_memory(kind))
        }
    }
}

/// The history of the first `count` requests of one.
pub(crate) fn cut_sections(
    alloc: Global,
    history: &History,
    count: usize,
) -> Result<History, OutOfMemory>
    requires { is_history history.now.sections ≡ true }
    ensures { IfOk result (λ h. h ≡ without_notes (cuts.first_requests count history.now.sections)) }
{
    let p = history.sent(Actor::P);
    let a = history.sent(Actor::A);
    let b = history.sent(Actor::B);
    let of_branches = count.saturating_sub(p.len());
    let of_b = of_branches.saturating_sub(a.len());
    let first_p = copy_requests(alloc, first(p, count))?;
    let first_a = copy_requests(alloc, first(a, of_branches))?;
    let first_b = copy_requests(alloc, first(b, of_b))?;
    match History::new(alloc, first_p, first_a, first_b) {
        Ok(history) => Ok(history),
        Err(fault) => {
            let (kind, _, _) = fault;
            Err(want_of_memory(kind))
        }
    }
}

/// A cut of a history keeps its rules, so it is refused for want of memory alone.
fn want_of_memory(kind: HistoryKind) -> OutOfMemory
    requires { kind ≡ HistoryKind.OutOfMemory }
{
    let _kind = kind;
    AllocError
}

/// The first `count` of the items, or all where there are fewer.
pub(crate) fn first<T>(items: &[T], count: usize) -> &[T]
    ensures { result.now ≡ take count items.now }
{
    items.get(..count).unwrap_or(items)
}

/// A copy, in memory of its own.
pub(crate) fn copy_notes(
    alloc: Global,
    notes: &[(Actor, Note)],
) -> Result<Vec<(Actor, Note)>, OutOfMemory>
    ensures { IfOk result (λ copies. copies.items ≡ notes.now) }
{
    let mut copies = Vec::with_capacity(alloc, notes.len())?;
    'copying: for (actor, note) in notes {
        let copy = note.copy(alloc)?;
        copies.push((*actor, copy))?;
    }
    Ok(copies)
}

/// A copy, in memory of its own.
pub(crate) fn copy_requests(alloc: Global, section: &[Sent]) -> Result<Vec<Sent>, OutOfMemory>
    ensures { IfOk result (λ copies. copies.items ≡ section.now) }
{
    let mut copies = Vec::with_capacity(alloc, section.len())?;
    'copying: for sent in section {
        let copy = copy_sent(alloc, sent)?;
        copies.push(copy)?;
    }
    Ok(copies)
}

fn copy_sent(alloc: Global, sent: &Sent) -> Result<Sent, OutOfMemory>
    ensures { IfOk result (λ copy. copy ≡ sent.now) }
{
    let reply = match &sent.reply {
        Some(reply) => Some(copy_reply(reply, alloc)?),
        None => None,
    };
    Ok(Sent {
        request: sent.request.copy(alloc)?,
        reply,
    })
}
