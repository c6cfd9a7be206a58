//! How far a reader has come, and its next step.
ghost use Rattle.std.specs.Prelude.{◌≡◌, Ok, ◌++◌, ◌∷◌, IfErr};
ghost use Rattle.mc_reader.specs.{Lines.LF, Lines.IsLine, Lines.line_says, Replies.Ends, Steps.IsStep};
ghost use Rattle.mc_reader.specs.Stages as spec;

use crate::block::Block;
use crate::gather::{gather, joined, owned};
use crate::line::read_line;
use crate::said::Said;
use crate::step::Step;
use crate::{ReadFault, Shape};
use std::alloc::Global;

/// How far a reader has come.
#[derive(Debug, Drop)]
pub(crate) enum Stage {
    /// In the first line: its bytes so far.
    Line(Vec<u8>),
    /// After the first line of a hit. The line is kept without its LF, so that what was fed stands in the reader.
    Block { line: Vec<u8>, block: Block },
    /// A reply or a fault was answered.
    Over,
}

/// Reads a piece from this stage on.
pub(crate) fn read_on(
    alloc: Global,
    shape: Shape<'_>,
    stage: Stage,
    piece: &[u8],
) -> Result<Step<Stage>, ReadFault>
    requires { spec.IsStage shape.verb shape.key.now stage }
    ensures { spec.IsStepFrom shape.entry.verb shape.entry.key.now (spec.stage_fed stage) piece.now result }
{
    match stage {
        Stage::Line(start) => read_first_line(alloc, shape, start, piece),
        Stage::Block { line, block } => {
            let step = block.read(alloc, piece)?;
            Ok(after_block(line, step))
        }
        Stage::Over => Err(ReadFault::Failed),
    }
}

/// Reads a piece in the first line. The line of a hit is kept only where the hit isn't whole yet.
fn read_first_line(
    alloc: Global,
    shape: Shape<'_>,
    mut start: Vec<u8>,
    piece: &[u8],
) -> Result<Step<Stage>, ReadFault>
    requires { IsLine start.items }
    ensures { IsStep (Ends shape.entry.verb shape.entry.key.now) (spec.IsStageAt shape.entry.verb shape.entry.key.now) start.items
        piece.now result }
{
    let Some(at) = gather(&mut start, piece)? else {
        return Ok(Step::More(Stage::Line(start)));
    };
    match read_line(shape, joined(&start, &piece[..at]))? {
        Said::Whole(reply) => Ok(Step::Done {
            reply,
            unread: piece.len() - at - 1,
        }),
        Said::Hit(hit) => {
            let step = Block::new(alloc, hit)?.read(alloc, &piece[at + 1..])?;
            match step {
                Step::More(block) => Ok(Step::More(Stage::Block {
                    line: owned(start, &piece[..at])?,
                    block,
                })),
                Step::Done { reply, unread } => Ok(Step::Done { reply, unread }),
            }
        }
    }
}

/// What comes of a piece, by what comes of it after the first line of a hit.
fn after_block(line: Vec<u8>, step: Step<Block>) -> Step<Stage>
    ensures { result ≡ spec.after_block line step }
{
    match step {
        Step::More(block) => Step::More(Stage::Block { line, block }),
        Step::Done { reply, unread } => Step::Done { reply, unread },
    }
}
