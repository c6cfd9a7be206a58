//! Which requests may go.
ghost use Rattle.std.specs.Prelude.{◌≡◌, ◌≤◌, ◌&&◌, nat_lt, drop, length, IfOk};
ghost use Rattle.mc_shrink.specs.Parts as spec;
ghost use Rattle.mc_shrink.specs.Going as going;

use mc_model::Note;
use mc_protocol::{OutOfMemory, Reply};
use std::alloc::Global;

/// Says of each place of the notes whether a request begins there that may go: it isn't the first, and the reply to it says that it
/// changed nothing.
pub(crate) fn may_go(alloc: Global, notes: &[(u8, Note)]) -> Result<Vec<bool>, OutOfMemory>
    ensures { IfOk result (λ may. may.items ≡ going.may_go_from 0 notes.now) }
{
    let mut may = Vec::with_capacity(alloc, notes.len())?;
    'notes: for place in 0..notes.len() {
        may.push(may_go_at(notes, place))?;
    }
    Ok(may)
}

// Whether a request begins at the place that may go.
fn may_go_at(notes: &[(u8, Note)], place: usize) -> bool
    requires { place ≤ length notes.now }
    ensures { result ≡ (nat_lt 0 place && going.may_first_go (drop place notes.now)) }
{
    place > 0 && may_first_go(&notes[place..])
}

// Whether the request that begins with the first note changed nothing.
fn may_first_go(notes: &[(u8, Note)]) -> bool
    ensures { result ≡ going.may_first_go notes.now }
{
    match notes.split_first() {
        Some(((client, Note::Begin(_)), later)) => is_unchanging(*client, later),
        _ => false,
    }
}

// Whether the first reply to the client says that its request changed nothing.
fn is_unchanging(client: u8, notes: &[(u8, Note)]) -> bool
    ensures { result ≡ spec.is_unchanging (going.reply_to client notes.now) }
{
    'notes: for (who, note) in notes {
        if let Note::Reply(reply) = note {
            if *who == client {
                return says_unchanged(reply);
            }
        }
    }
    false
}

// Whether the reply says that its request left everything as it was.
fn says_unchanged(reply: &Reply) -> bool
    ensures { result ≡ spec.says_unchanged reply.now }
{
    match reply {
        Reply::Stored | Reply::Deleted | Reply::Number(_) => false,
        Reply::NotStored
        | Reply::Exists
        | Reply::NotFound
        | Reply::Hit { .. }
        | Reply::Miss
        | Reply::Touched
        | Reply::NotNumber => true,
    }
}
