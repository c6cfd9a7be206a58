//! Reads the moves of an explanation.
ghost use Rattle.std.specs.Prelude.{◌∷◌, IfOk, IfErr};
ghost use Rattle.mc_history.specs.Refuses.{Refuses};
ghost use Rattle.mc_timeline_text.specs.{TimelineTexts.SpellsClientMove, TimelineParts.SpellsMoves};

use crate::clients::read_client;
use mc_history::{ExpectedInTimeline, HistoryFault, finish, next_due, read_effect};
use mc_linearize::TimelineMove;
use mc_model::HistoryKind;
use mc_protocol::{WordLine, WordLines};
use std::alloc::Global;

/// Reads the moves, and `end`. The first of these lines is `first`, which was taken already.
pub(crate) fn read_moves<'a>(
    alloc: Global,
    lines: &mut WordLines<'a>,
    first: WordLine<'a>,
) -> Result<Vec<TimelineMove>, HistoryFault>
    ensures found { IfOk result (λ moves. SpellsMoves (first.entry.words ∷ lines.old.words) moves.items) }
    ensures none { IfErr result (Refuses (SpellsMoves (first.entry.words ∷ lines.old.words))) }
{
    let mut moves = Vec::new(alloc);
    let mut line = first;
    'moves: while !line.is_only(b"end") {
        let next = read_move(&line)?;
        moves.push(next)?;
        line = next_due(alloc, lines, HistoryKind::Unended)?;
    }
    finish(alloc, lines)?;
    Ok(moves)
}

// Reads a move: its client, its number, and the marks of its choice.
fn read_move(line: &WordLine) -> Result<TimelineMove, HistoryFault>
    ensures found { IfOk result (SpellsClientMove line.now.words) }
    ensures none { IfErr result (Refuses (SpellsClientMove line.now.words)) }
{
    let client = read_client(line, ExpectedInTimeline::MoveOrEnd)?;
    let (number, choice) = read_effect(line)?;
    Ok(TimelineMove {
        client,
        choice,
        number,
    })
}
