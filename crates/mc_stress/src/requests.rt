//! What was noted of one client.
ghost use Rattle.std.specs.Prelude.{◌≡◌, IfOk};
ghost use Rattle.mc_stress.specs.Agreement as spec;
ghost use Rattle.mc_stress.specs.SentFrom as from;

use mc_model::{Note, Sent, copy_reply};
use mc_protocol::{OutOfMemory, Reply};
use std::alloc::Global;

/// The requests of the client in a timeline, in their order, each with its reply if one came. They are copies.
///
/// # Errors
///
/// That memory ran out.
#[tactic(auto, using(crate::proofs::Sent::sent_is))]
pub fn sent_by(alloc: Global, client: u8, notes: &[(u8, Note)]) -> Result<Vec<Sent>, OutOfMemory>
    ensures { IfOk result (λ sent. sent.items ≡ spec.sent_by client notes.now) }
{
    sent_from(alloc, client, notes)
}

// The same, note by note.
fn sent_from(alloc: Global, client: u8, notes: &[(u8, Note)]) -> Result<Vec<Sent>, OutOfMemory>
    ensures { IfOk result (λ sent. sent.items ≡ from.sent_from client notes.now) }
{
    let mut sent = Vec::new(alloc);
    let mut place = 0;
    'notes: for (who, note) in notes {
        place += 1;
        if let Note::Begin(request) = note {
            if *who == client {
                sent.push(Sent {
                    request: request.copy(alloc)?,
                    reply: reply_to(alloc, client, &notes[place..])?,
                })?;
            }
        }
    }
    Ok(sent)
}

// The first reply to the client.
fn reply_to(alloc: Global, client: u8, notes: &[(u8, Note)]) -> Result<Option<Reply>, OutOfMemory>
    ensures { IfOk result (λ reply. reply ≡ from.reply_to client notes.now) }
{
    'notes: for (who, note) in notes {
        if let Note::Reply(reply) = note {
            if *who == client {
                return Ok(Some(copy_reply(reply, alloc)?));
            }
        }
    }
    Ok(None)
}
