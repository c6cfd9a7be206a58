//! How far a reader of requests has come, and its next step.
ghost use Rattle.std.specs.Prelude.{◌≡◌, ◌≤◌, ◌∷◌, [], ◌++◌, length, Ok, IfOk};
ghost use Rattle.mc_reader.specs.AskEnds as ends;
ghost use Rattle.mc_reader.specs.AskParts as parts;
ghost use Rattle.mc_reader.specs.AskReading as reading;
ghost use Rattle.mc_reader.specs.AskStages as spec;
ghost use Rattle.mc_reader.specs.Asks as asks;
ghost use Rattle.mc_reader.specs.Lines.{CR, IsLine};

use crate::ask_line::read_line;
use crate::ask_said::{AskSaid, StoreLine};
use crate::gather::{gather, joined};
use crate::{Ask, AskFault, LINE_LIMIT, ReadFault, Refuse};
use mc_protocol::{Bytes, Request};
use std::alloc::Global;

/// How far a reader has come.
#[derive(Debug, Drop)]
pub(crate) enum AskStage {
    /// In a line: its bytes so far.
    Line(Vec<u8>),
    /// After the line of a request that brings a body: the bytes of the body so far, in room for all of them.
    Body { line: StoreLine, body: Vec<u8> },
    /// After the CR that follows the body.
    Cr { line: StoreLine, body: Vec<u8> },
    /// After the line of a refused request, of which `left` bytes are still to be skipped.
    Skip { refuse: Refuse, left: u64 },
    /// Nothing is read any more.
    Over,
}

/// What comes of a piece that brought no fault.
#[derive(Debug, Drop)]
pub(crate) enum AskStep {
    /// All of the piece was read, and this is how far the request has come.
    More(AskStage),
    /// The request is whole or refused, and `unread` bytes of the piece come after it.
    Done { ask: Ask, unread: usize },
}

/// Reads a piece from this stage on.
pub(crate) fn read_on(alloc: Global, stage: AskStage, piece: &[u8]) -> Result<AskStep, AskFault>
    requires { spec.IsAskStage stage }
    ensures valid { IfOk result (spec.StepsValid piece.now) }
    ensures steps { spec.StepsFrom (spec.progress_of stage) piece.now result }
{
    match stage {
        AskStage::Line(start) => read_ask_line(alloc, start, piece),
        AskStage::Body { line, body } => read_body(line, body, piece),
        AskStage::Cr { line, body } => Ok(read_lf(line, body, piece)),
        AskStage::Skip { refuse, left } => Ok(skip(refuse, left, piece)),
        AskStage::Over => Err(AskFault::Failed),
    }
}

/// Reads a piece in a line.
fn read_ask_line(alloc: Global, mut start: Vec<u8>, piece: &[u8]) -> Result<AskStep, AskFault>
    requires { IsLine start.items }
    ensures { spec.StepsAsk start.items piece.now result }
{
    let room = LINE_LIMIT - start.len();
    match gather(&mut start, piece) {
        Ok(Some(at)) => {
            let said = read_line(alloc, joined(&start, &piece[..at]))?;
            read_after_line(alloc, said, &piece[at + 1..])
        }
        Ok(None) => Ok(AskStep::More(AskStage::Line(start))),
        Err(ReadFault::LineTooLong) => Ok(AskStep::Done {
            ask: Ask::Refused(Refuse::LongLine),
            unread: piece.len() - room,
        }),
        Err(_) => Err(AskFault::OutOfMemory),
    }
}

/// Reads a piece after a line that says this.
fn read_after_line(alloc: Global, said: AskSaid, piece: &[u8]) -> Result<AskStep, AskFault>
    ensures { spec.StepsAfterLine (parts.said_of said) piece.now result }
{
    match said {
        AskSaid::Whole(ask) => Ok(AskStep::Done {
            ask,
            unread: piece.len(),
        }),
        AskSaid::Block(line) => {
            let body = Vec::with_capacity(alloc, line.body_len)?;
            read_body(line, body, piece)
        }
        AskSaid::Skips { refuse, bytes } => Ok(skip(refuse, bytes, piece)),
    }
}

/// Skips the rest of a refused request.
fn skip(refuse: Refuse, left: u64, piece: &[u8]) -> AskStep
    ensures { spec.StepsSkip refuse left piece.now result }
{
    let here = piece.len() as u64;
    if here < left {
        AskStep::More(AskStage::Skip {
            refuse,
            left: left - here,
        })
    } else {
        AskStep::Done {
            ask: Ask::Refused(refuse),
            unread: (here - left) as usize,
        }
    }
}

/// Reads a piece in a body.
fn read_body(line: StoreLine, mut body: Vec<u8>, piece: &[u8]) -> Result<AskStep, AskFault>
    requires { length body.items ≤ line.body_len }
    ensures { spec.StepsChunk line body.items piece.now result }
{
    let missing = line.body_len - body.len();
    if piece.len() <= missing {
        body.extend_from_slice(piece)?;
        return Ok(AskStep::More(AskStage::Body { line, body }));
    }
    let (last, after) = piece.split_at(missing);
    body.extend_from_slice(last)?;
    Ok(read_cr(line, body, after))
}

/// Reads a piece after a body.
fn read_cr(line: StoreLine, body: Vec<u8>, piece: &[u8]) -> AskStep
    requires { length body.items ≡ line.body_len }
    ensures { spec.StepsChunk line body.items piece.now (Ok result) }
{
    match piece {
        [] => AskStep::More(AskStage::Body { line, body }),
        [byte, after @ ..] => {
            if *byte != b'\r' {
                return refused_chunk(after);
            }
            read_lf(line, body, after)
        }
    }
}

/// Reads a piece after the CR that follows a body.
fn read_lf(line: StoreLine, body: Vec<u8>, piece: &[u8]) -> AskStep
    requires { length body.items ≡ line.body_len }
    ensures { spec.StepsChunk line (body.items ++ CR ∷ []) piece.now (Ok result) }
{
    match piece {
        [] => AskStep::More(AskStage::Cr { line, body }),
        [byte, after @ ..] => {
            if *byte != b'\n' {
                return refused_chunk(after);
            }
            AskStep::Done {
                ask: stored(line, body),
                unread: after.len(),
            }
        }
    }
}

/// The block of a request isn't ended by CR LF. This comes after the first byte that differs.
fn refused_chunk(after: &[u8]) -> AskStep
    ensures { result ≡ AskStep.Done (Ask.Refused Refuse.BadChunk) (length after.now) }
{
    AskStep::Done {
        ask: Ask::Refused(Refuse::BadChunk),
        unread: after.len(),
    }
}

/// The request of a line with its body.
fn stored(line: StoreLine, body: Vec<u8>) -> Ask
    ensures { asks.ask_of result ≡ asks.One (ends.request_of line body.items) line.noreply }
{
    let StoreLine {
        verb,
        key,
        flags,
        number,
        noreply,
        ..
    } = line;
    Ask::One {
        request: Request {
            verb,
            key,
            flags,
            body: Bytes::new(body),
            number,
        },
        noreply,
    }
}

/// Where a reader goes on after what is asked.
pub(crate) fn stage_after(alloc: Global, ask: &Ask) -> AskStage
    ensures valid { spec.IsAskStage result }
    ensures next { spec.progress_of result ≡ reading.goes_on (asks.ask_of ask.now) }
{
    if ask.closes() {
        AskStage::Over
    } else {
        AskStage::Line(Vec::new(alloc))
    }
}
