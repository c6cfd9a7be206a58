//! The reader of replies.
ghost use Rattle.std.specs.Prelude.{◌≡◌, [], Some};
ghost use Rattle.mc_reader.specs.{Reading.IsAnswerAfter, Replies.IsUnfinished};

use crate::stage::{Stage, read_on};
use crate::step::Step;
use crate::{ReadFault, Shape};
use mc_protocol::Reply;
use std::alloc::Global;
use std::marker::Model;
use std::mem;

/// What a piece brought.
#[derive(Debug, Drop)]
pub enum Fed {
    /// The reply isn't whole yet.
    More,
    /// The reply is whole.
    Done {
        /// The reply.
        reply: Reply,
        /// How many bytes of this piece belong to it.
        used: usize,
    },
}

/// A reader of the reply to one request, which comes in pieces. Contracts see the request's verb and key, and the joined
/// bytes that were fed since the reader was made, until it has answered a reply or a fault.
pub struct ReplyReader<'k> {
    alloc: Global,
    shape: Shape<'k>,
    stage: Stage,
}

// One call drops its parts. A derived `Drop` would write them out at each end of each function that holds one.
impl<'k> Drop for ReplyReader<'k> {
    fn drop(self) {
        let ReplyReader {
            alloc: _,
            shape: _,
            stage: _,
        } = self;
    }
}

impl<'k> Model for ReplyReader<'k> {
    ghost use Rattle.mc_reader.specs.Reading.{Reading};

    ghost Value = { Reading };

    ghost use Rattle.mc_reader.specs.Stages.{stage_fed, IsStage};

    ghost view = { λ r. record { verb = r.shape.verb; key = r.shape.key.now; fed = stage_fed r.stage } };

    ghost invariant = { λ r. IsStage r.shape.verb r.shape.key.now r.stage };
}

impl<'k> ReplyReader<'k> {
    /// A reader of the reply to a request of this verb and key, which was fed nothing. It allocates nothing.
    pub fn new(alloc: Global, shape: Shape<'k>) -> Self
        ensures new { result ≡ record { verb = shape.entry.verb; key = shape.entry.key.now; fed = Some [] } }
        ensures unfinished { IsUnfinished shape.entry.verb shape.entry.key.now [] }
    {
        ReplyReader {
            alloc,
            shape,
            stage: Stage::Line(Vec::new(alloc)),
        }
    }

    /// Reads the next piece. The answer rests on the joined bytes alone:
    ///
    /// - [`Fed::More`] where no prefix of them is a whole reply or fails;
    /// - [`Fed::Done`] where the prefix that ends at `used` bytes of this piece spells the reply, which then fits a request
    ///   of the verb; what comes after it in the piece isn't looked at;
    /// - [`ReadFault::LineTooLong`] to [`ReadFault::ErrorLine`] where a prefix fails so, as each fault says;
    /// - [`ReadFault::OutOfMemory`] where a growth was refused;
    /// - [`ReadFault::Failed`] where the reader has answered a reply or a fault before, and never else.
    ///
    /// A reply that comes in one piece costs no allocation but that of its body.
    pub fn feed(&mut self, piece: &[u8]) -> Result<Fed, ReadFault>
        ensures verb { self.new.verb ≡ self.old.verb }
        ensures key { self.new.key ≡ self.old.key }
        ensures answer { IsAnswerAfter self.old.verb self.old.key self.old.fed piece.now result self.new.fed }
    {
        let stage = mem::replace(&mut self.stage, Stage::Over);
        match read_on(self.alloc, self.shape, stage, piece)? {
            Step::More(stage) => {
                self.stage = stage;
                Ok(Fed::More)
            }
            Step::Done { reply, unread } => Ok(Fed::Done {
                reply,
                used: piece.len() - unread,
            }),
        }
    }
}
