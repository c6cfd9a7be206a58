//! Whether notes are a timeline that the lanes of its clients recorded.
ghost use Rattle.std.specs.Prelude.{◌≡◌, true, eqb, is_some, IfOk, IfSome};
ghost use Rattle.std.specs.List.{All, list_all, list_any};
ghost use Rattle.mc_stress.specs.Agreement as spec;

use crate::Played;
use crate::requests::sent_by;
use mc_lane::{Lane, Stream};
use mc_model::{HistoryKind, Note, Sent};
use mc_protocol::{Fault, OutOfMemory};
use mc_recorded::is_recorded;
use mc_timeline::{Timeline, TimelineBuilder};
use std::alloc::{AllocError, Global};

/// The timeline of the notes, if they are one, each of them is of one of these clients, and each client's lane recorded what was noted
/// of it. It asks nothing of the notes or of the lanes.
///
/// # Errors
///
/// That memory ran out: then there is no answer.
pub fn agreed<S: Stream>(
    alloc: Global,
    notes: Vec<(u8, Note)>,
    played: &[Played<Lane<S>>],
) -> Result<Option<Timeline>, OutOfMemory>
    ensures { IfOk result (λ found. IfSome found (λ timeline. spec.Agree timeline played.now)) }
{
    let Some(timeline) = timeline_of(alloc, notes)? else {
        return Ok(None);
    };
    if are_of_these(timeline.notes(), played) && are_recorded(alloc, timeline.notes(), played)? {
        Ok(Some(timeline))
    } else {
        Ok(None)
    }
}

// The timeline of the notes, if they are one.
fn timeline_of(alloc: Global, notes: Vec<(u8, Note)>) -> Result<Option<Timeline>, OutOfMemory> {
    let mut builder = TimelineBuilder::new(alloc);
    'notes: for (client, note) in notes {
        match builder.push(alloc, client, note) {
            Ok(()) => {}
            Err(HistoryKind::OutOfMemory) => return Err(AllocError),
            Err(_) => return Ok(None),
        }
    }
    Ok(Some(builder.finish()))
}

// Whether each note is of one of these clients.
fn are_of_these<S: Stream>(notes: &[(u8, Note)], played: &[Played<Lane<S>>]) -> bool
    ensures { result ≡ true → All (spec.IsOfOne played.now) notes.now }
{
    'notes: for (client, _note) in notes {
        if !is_one(*client, played) {
            return false;
        }
    }
    true
}

// Whether it is one of these clients.
fn is_one<S: Stream>(client: u8, played: &[Played<Lane<S>>]) -> bool
    ensures { result ≡ list_any (λ p. eqb p.client client) played.now }
{
    played.iter().any(|one| one.client == client)
}

// Whether each client's lane recorded what was noted of it.
fn are_recorded<S: Stream>(
    alloc: Global,
    notes: &[(u8, Note)],
    played: &[Played<Lane<S>>],
) -> Result<bool, OutOfMemory>
    ensures { IfOk result (λ answer. answer ≡ true → All (spec.IsRecorded notes.now) played.now) }
{
    'clients: for one in played {
        let sent = sent_by(alloc, one.client, notes)?;
        if !is_over(sent.as_slice(), one.ended) {
            return Ok(false);
        }
        if !is_recorded(alloc, sent.as_slice(), one.ended, &one.lane)? {
            return Ok(false);
        }
    }
    Ok(true)
}

// Whether the client has all replies, if no fault ended it.
fn is_over(requests: &[Sent], ended: Option<Fault>) -> bool
    ensures { result ≡ true → spec.IsOver requests.now ended }
{
    match ended {
        None => are_answered(requests),
        Some(_) => true,
    }
}

// Whether each request has a reply.
fn are_answered(requests: &[Sent]) -> bool
    ensures { result ≡ list_all (λ s. is_some s.reply) requests.now }
{
    requests.iter().all(|sent| sent.reply.is_some())
}
