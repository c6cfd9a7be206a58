//! A timeline as it is shown: its key without the names that stand before it.

use crate::clash::Clash;
use mc_model::{HistoryKind, Note, copy_reply};
use mc_protocol::{Bytes, Request};
use mc_timeline::{Timeline, TimelineBuilder};
use std::alloc::{AllocError, Global};
use std::str;

/// The same requests and replies, on a key that is short.
#[derive(Drop)]
pub(crate) struct Shortened {
    pub(crate) key: Bytes,
    pub(crate) timeline: Timeline,
}

impl Shortened {
    /// Those of a clash.
    pub(crate) fn of(alloc: Global, clash: &Clash) -> Result<Shortened, AllocError> {
        let key = short_key(alloc, &clash.key)?;
        let mut builder = TimelineBuilder::new(alloc);
        'notes: for (client, note) in clash.timeline.notes() {
            let note = note_on(alloc, note, &key)?;
            match builder.push(alloc, *client, note) {
                Ok(()) => {}
                Err(HistoryKind::OutOfMemory) => return Err(AllocError),
                // With another key it is a timeline too.
                Err(_) => break,
            }
        }
        Ok(Shortened {
            key,
            timeline: builder.finish(),
        })
    }
}

// What stands behind the names.
fn short_key(alloc: Global, key: &Bytes) -> Result<Bytes, AllocError> {
    let text = str::from_utf8(key.as_slice()).unwrap_or("k");
    let (_, short) = text.rsplit_once('-').unwrap_or(("", text));
    Ok(Bytes::new(Vec::from_slice(alloc, short.as_bytes())?))
}

// The note, of a request on this key.
fn note_on(alloc: Global, note: &Note, key: &Bytes) -> Result<Note, AllocError> {
    match note {
        Note::Begin(request) => Ok(Note::Begin(Request {
            verb: request.verb,
            key: key.copy(alloc)?,
            flags: request.flags,
            body: request.body.copy(alloc)?,
            number: request.number,
        })),
        Note::Reply(reply) => Ok(Note::Reply(copy_reply(reply, alloc)?)),
    }
}
