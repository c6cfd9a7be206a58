//! What is noted while sections run.
ghost use Rattle.std.specs.Prelude.{◌≡◌, IfOk};

use mc_protocol::{OutOfMemory, Reply, Request};
use std::alloc::Global;

/// What happens in a section: a request begins, or the reply to it comes.
#[derive(Debug, Drop)]
pub enum Note {
    /// The section sends its next request.
    Begin(Request),
    /// The section receives the reply to its last request.
    Reply(Reply),
}

impl Note {
    /// A copy, in memory of its own.
    pub fn copy(&self, alloc: Global) -> Result<Note, OutOfMemory>
        ensures { IfOk result (λ copy. copy ≡ self.now) }
    {
        Ok(match self {
            Note::Begin(request) => Note::Begin(request.copy(alloc)?),
            Note::Reply(reply) => Note::Reply(copy_reply(reply, alloc)?),
        })
    }
}

/// A copy of a reply, in memory of its own.
pub fn copy_reply(reply: &Reply, alloc: Global) -> Result<Reply, OutOfMemory>
    ensures { IfOk result (λ copy. copy ≡ reply.now) }
{
    Ok(match reply {
        Reply::Stored => Reply::Stored,
        Reply::NotStored => Reply::NotStored,
        Reply::Exists => Reply::Exists,
        Reply::NotFound => Reply::NotFound,
        Reply::Hit { flags, body, cas } => Reply::Hit {
            flags: *flags,
            body: body.copy(alloc)?,
            cas: *cas,
        },
        Reply::Miss => Reply::Miss,
        Reply::Deleted => Reply::Deleted,
        Reply::Touched => Reply::Touched,
        Reply::Number(number) => Reply::Number(*number),
        Reply::NotNumber => Reply::NotNumber,
    })
}
