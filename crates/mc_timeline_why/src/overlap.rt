//! Which requests have no reply yet.
ghost use Rattle.std.specs.Prelude.{◌≡◌, ◌++◌, IfOk, OnOk};
ghost use Rattle.std.specs.List.{list_any};
ghost use Rattle.mc_timeline_why.specs.Fronts as fronts;

use crate::cutting::cut_timeline;
use mc_model::Note;
use mc_protocol::{Bytes, OutOfMemory};
use mc_timeline::Timeline;
use std::alloc::Global;

/// The places at which the requests on the key began that overlap the place.
pub(crate) fn overlap_at(
    alloc: Global,
    timeline: &Timeline,
    key: &Bytes,
    place: usize,
) -> Result<Vec<usize>, OutOfMemory>
    ensures { IfOk result (λ places. places.items ≡ fronts.overlapping key.now place timeline.now) }
{
    let before = cut_timeline(alloc, timeline, place)?;
    open_requests(alloc, before.notes(), key)
}

// The places of these notes at which requests on the key began that none of the notes answers.
fn open_requests(
    alloc: Global,
    notes: &[(u8, Note)],
    key: &Bytes,
) -> Result<Vec<usize>, OutOfMemory>
    ensures { IfOk result (λ places. places.items ≡ fronts.open_from key.now 0 notes.now) }
{
    let mut places = Vec::new(alloc);
    'notes: for (place, noted) in notes.iter().enumerate() {
        let is = is_open(key, noted, &notes[place + 1..]);
        push_if(is, place, &mut places)?;
    }
    Ok(places)
}

// Appends the place if this is so.
fn push_if(is: bool, place: usize, places: &mut Vec<usize>) -> Result<(), OutOfMemory>
    ensures { OnOk result (places.new.items ≡ places.old.items ++ fronts.if_so is place) }
{
    if is {
        places.push(place)?;
        return Ok(());
    }
    Ok(())
}

// Whether the note is the begin of a request on the key, which none of the later notes answers.
fn is_open(key: &Bytes, noted: &(u8, Note), later: &[(u8, Note)]) -> bool
    ensures { result ≡ fronts.is_open key.now noted.now later.now }
{
    match noted {
        (client, Note::Begin(request)) => request.key == *key && !is_answered(*client, later),
        (_, Note::Reply(_)) => false,
    }
}

// Whether there is a reply to the client.
fn is_answered(client: u8, notes: &[(u8, Note)]) -> bool
    ensures { result ≡ list_any (fronts.is_reply_to client) notes.now }
{
    notes.iter().any(|noted| is_reply_to(client, noted))
}

// Whether the note is a reply to the client.
fn is_reply_to(client: u8, noted: &(u8, Note)) -> bool
    ensures { result ≡ fronts.is_reply_to client noted.now }
{
    match noted {
        (_, Note::Begin(_)) => false,
        (who, Note::Reply(_)) => *who == client,
    }
}
