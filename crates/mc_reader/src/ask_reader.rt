//! The reader of requests.
ghost use Rattle.std.specs.Prelude.{◌≡◌, []};
ghost use Rattle.mc_reader.specs.AskReading as spec;

use crate::ask_stage::{AskStage, AskStep, read_on, stage_after};
use crate::{AskFault, Asked};
use std::alloc::Global;
use std::marker::Model;
use std::mem;

/// A reader of the requests of one connection, which come in pieces. Contracts see how far it has come in the request at hand.
#[derive(Drop)]
pub struct RequestReader {
    alloc: Global,
    stage: AskStage,
}

impl Model for RequestReader {
    ghost use Rattle.mc_reader.specs.AskReading.{Progress};

    ghost Value = { Progress };

    ghost use Rattle.mc_reader.specs.AskStages.{progress_of, IsAskStage};

    ghost view = { λ r. progress_of r.stage };

    ghost invariant = { λ r. IsAskStage r.stage };
}

impl RequestReader {
    /// A reader that was fed nothing. It allocates nothing.
    pub fn new(alloc: Global) -> Self
        ensures { result ≡ spec.InLine [] }
    {
        RequestReader {
            alloc,
            stage: AskStage::Line(Vec::new(alloc)),
        }
    }

    /// Reads the next piece. The answer rests on the joined bytes since the last [`Asked::Done`] alone:
    ///
    /// - [`Asked::More`] where no prefix of them is a whole request or is refused;
    /// - [`Asked::Done`] where the prefix that ends at `used` bytes of this piece is a whole request, or is refused; what comes
    ///   after it in the piece isn't looked at, and is fed again;
    /// - [`AskFault::OutOfMemory`] where a growth was refused;
    /// - [`AskFault::Failed`] where the reader has answered a fault or an ask that closes before, and never else.
    ///
    /// A request that lies whole in the piece costs no allocation but those of its keys and its body.
    pub fn feed(&mut self, piece: &[u8]) -> Result<Asked, AskFault>
        ensures { spec.FeedsAsk self.old piece.now result self.new }
    {
        let stage = mem::replace(&mut self.stage, AskStage::Over);
        match read_on(self.alloc, stage, piece)? {
            AskStep::More(stage) => {
                self.stage = stage;
                Ok(Asked::More)
            }
            AskStep::Done { ask, unread } => {
                self.stage = stage_after(self.alloc, &ask);
                Ok(Asked::Done {
                    ask,
                    used: piece.len() - unread,
                })
            }
        }
    }
}
