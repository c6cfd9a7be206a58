//! Prints explanations of timelines.
ghost use Rattle.std.specs.Prelude.{◌≡◌, ◌++◌, OnOk, OnErr};
ghost use Rattle.std.specs.List.{flat_map};
ghost use Rattle.mc_history.specs.PrintedHistory.{line_text};
ghost use Rattle.mc_timeline_text.specs.TimelineTexts as text;

use itoa::Buffer;
use mc_history::{marks_text, print_starts};
use mc_linearize::{TimelineExplanation, TimelineMove};
use mc_protocol::{OutOfMemory, append_all};

/// Appends the lines of an explanation: its items at the start, and its moves. Neither `explain` nor `end` is among them. Want of
/// memory leaves `out` as it was.
pub fn print_timeline_explanation(
    explanation: &TimelineExplanation,
    out: &mut Vec<u8>,
) -> Result<(), OutOfMemory>
    ensures ok { OnOk result (out.new.items ≡ out.old.items ++ text.claim_text explanation.now) }
    ensures err { OnErr result (out.new.items ≡ out.old.items) }
{
    let mut text = Vec::new(*out.allocator());
    print_starts(explanation.start.as_slice(), &mut text)?;
    print_moves(explanation.moves.as_slice(), &mut text)?;
    out.extend_from_slice(text.as_slice())
}

// Appends the lines of the moves.
fn print_moves(moves: &[TimelineMove], out: &mut Vec<u8>) -> Result<(), OutOfMemory>
    ensures { OnOk result (out.new.items ≡ out.old.items ++ flat_map (λ move. line_text (text.client_move_words move)) moves.now) }
{
    'moves: for next in moves {
        print_move(*next, out)?;
    }
    Ok(())
}

// Appends the line of a move.
fn print_move(next: TimelineMove, out: &mut Vec<u8>) -> Result<(), OutOfMemory>
    ensures { OnOk result (out.new.items ≡ out.old.items ++ line_text (text.client_move_words next)) }
{
    let mut client_text = Buffer::new();
    let mut number_text = Buffer::new();
    let client = client_text.format(u64::from(next.client)).as_bytes();
    let number = number_text.format(next.number).as_bytes();
    append_all(out, &[client, b" ", number, marks_text(next.choice), b"\n"])
}
