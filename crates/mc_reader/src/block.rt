//! What comes after the first line of a hit: the body, CR LF, and the line `END`.
ghost use Rattle.std.specs.Prelude.{◌≡◌, [], ◌∷◌, ◌++◌, ◌≤◌, length, MatchResult};
ghost use Rattle.mc_reader.specs.Block as spec;
ghost use Rattle.mc_reader.specs.{Lines.CR, Lines.LF, Lines.IsLine, Replies.BlockEnds, Steps.IsStep};

use crate::ReadFault;
use crate::gather::{gather, joined};
use crate::line::read_end;
use crate::said::HitLine;
use crate::step::Step;
use mc_protocol::{Bytes, Reply};
use std::alloc::Global;

/// What was read of a hit after its first line.
#[derive(Debug, Drop)]
pub(crate) struct Block {
    pub(crate) hit: HitLine,
    /// The bytes of the body so far, in room for all of them.
    pub(crate) body: Vec<u8>,
    pub(crate) ending: Ending,
}

/// What was read after the body.
#[derive(Debug, Drop)]
pub(crate) enum Ending {
    /// Nothing.
    Unread,
    /// The CR.
    Cr,
    /// CR LF, and these bytes of the last line.
    Line(Vec<u8>),
}

impl Block {
    /// The block after this line, of which nothing was read. It has room for its body.
    pub(crate) fn new(alloc: Global, hit: HitLine) -> Result<Self, ReadFault>
        ensures { MatchResult result (λ block. spec.IsBlockOf hit block []) (λ fault. fault ≡ ReadFault.OutOfMemory) }
    {
        Ok(Block {
            hit,
            body: Vec::with_capacity(alloc, hit.body_len)?,
            ending: Ending::Unread,
        })
    }

    /// Reads a piece.
    pub(crate) fn read(self, alloc: Global, piece: &[u8]) -> Result<Step<Block>, ReadFault>
        requires { spec.IsBlock self }
        ensures { IsStep (BlockEnds self.hit) (spec.IsBlockOf self.hit) (spec.block_read self) piece.now result }
    {
        let Block { hit, body, ending } = self;
        match ending {
            Ending::Unread => read_body(alloc, hit, body, piece),
            Ending::Cr => read_lf(alloc, hit, body, piece),
            Ending::Line(start) => read_last_line(hit, body, start, piece),
        }
    }
}

/// Reads a piece in the body.
fn read_body(
    alloc: Global,
    hit: HitLine,
    mut body: Vec<u8>,
    piece: &[u8],
) -> Result<Step<Block>, ReadFault>
    requires { length body.items ≤ hit.body_len }
    ensures { IsStep (BlockEnds hit) (spec.IsBlockOf hit) body.items piece.now result }
{
    let missing = hit.body_len - body.len();
    if piece.len() <= missing {
        body.extend_from_slice(piece)?;
        return Ok(Step::More(Block {
            hit,
            body,
            ending: Ending::Unread,
        }));
    }
    let (last, after) = piece.split_at(missing);
    body.extend_from_slice(last)?;
    read_cr(alloc, hit, body, after)
}

/// Reads a piece after the body.
fn read_cr(
    alloc: Global,
    hit: HitLine,
    body: Vec<u8>,
    piece: &[u8],
) -> Result<Step<Block>, ReadFault>
    requires { length body.items ≡ hit.body_len }
    ensures { IsStep (BlockEnds hit) (spec.IsBlockOf hit) body.items piece.now result }
{
    match piece {
        [] => Ok(Step::More(Block {
            hit,
            body,
            ending: Ending::Unread,
        })),
        [byte, after @ ..] => {
            if *byte != b'\r' {
                return Err(ReadFault::DataNotEnded);
            }
            read_lf(alloc, hit, body, after)
        }
    }
}

/// Reads a piece after the CR that follows the body.
fn read_lf(
    alloc: Global,
    hit: HitLine,
    body: Vec<u8>,
    piece: &[u8],
) -> Result<Step<Block>, ReadFault>
    requires { length body.items ≡ hit.body_len }
    ensures { IsStep (BlockEnds hit) (spec.IsBlockOf hit) (body.items ++ CR ∷ []) piece.now result }
{
    match piece {
        [] => Ok(Step::More(Block {
            hit,
            body,
            ending: Ending::Cr,
        })),
        [byte, after @ ..] => {
            if *byte != b'\n' {
                return Err(ReadFault::DataNotEnded);
            }
            read_last_line(hit, body, Vec::new(alloc), after)
        }
    }
}

/// Reads a piece in the last line, which begins with `start`.
fn read_last_line(
    hit: HitLine,
    body: Vec<u8>,
    mut start: Vec<u8>,
    piece: &[u8],
) -> Result<Step<Block>, ReadFault>
    requires body { length body.items ≡ hit.body_len }
    requires start { IsLine start.items }
    ensures { IsStep (BlockEnds hit) (spec.IsBlockOf hit) (body.items ++ CR ∷ LF ∷ start.items) piece.now result }
{
    let Some(at) = gather(&mut start, piece)? else {
        return Ok(Step::More(Block {
            hit,
            body,
            ending: Ending::Line(start),
        }));
    };
    read_end(joined(&start, &piece[..at]))?;
    Ok(Step::Done {
        reply: Reply::Hit {
            flags: hit.flags,
            body: Bytes::new(body),
            cas: hit.cas,
        },
        unread: piece.len() - at - 1,
    })
}
