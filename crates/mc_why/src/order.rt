//! Prints what explains the part of a history before a place, with the request and the reply of each move.
ghost use Rattle.std.specs.Prelude.{◌≡◌, ◌++◌, ◌∷◌, [], Some, OnOk, codes};
ghost use Rattle.std.specs.List.{flat_map};
ghost use Rattle.mc_words.specs.Words.{join_words};
ghost use Rattle.mc_history.specs.{HistoryText.marks_of, PrintedHistory.move_words};
ghost use Rattle.mc_why.specs.Answers.{next_after};
ghost use Rattle.mc_why.specs.WhyText as texts;

use crate::moved::count_moves;
use crate::report::print_received;
use itoa::Buffer;
use mc_history::{Explanation, Move};
use mc_model::{Choice, History, Sent};
use mc_protocol::{Actor, Bytes, OutOfMemory, append_all, is_word};
use mc_words::print_request_words;

/// Appends the items at the start and the moves. `before` is what stands before the place.
pub(crate) fn print_explained(
    before: &History,
    explanation: &Explanation,
    out: &mut Vec<u8>,
) -> Result<(), OutOfMemory>
    ensures { OnOk result (out.new.items ≡ out.old.items ++ texts.explained_text before.now.sections explanation.now) }
{
    print_parts(
        before,
        explanation.start.as_slice(),
        explanation.order.as_slice(),
        out,
    )
}

// Appends these items at the start and these moves.
fn print_parts(
    before: &History,
    starts: &[(Bytes, u64)],
    moves: &[Move],
    out: &mut Vec<u8>,
) -> Result<(), OutOfMemory>
    ensures { OnOk result (out.new.items ≡ out.old.items
        ++ (codes "explained before\n" ++ (flat_map texts.start_text starts.now ++ texts.order_text before.now.sections [] moves.now))) }
{
    out.extend_from_slice(b"explained before\n")?;
    print_starts(starts, out)?;
    print_moves(before, moves, out)
}

fn print_starts(starts: &[(Bytes, u64)], out: &mut Vec<u8>) -> Result<(), OutOfMemory>
    ensures { OnOk result (out.new.items ≡ out.old.items ++ flat_map texts.start_text starts.now) }
{
    'starts: for (key, number) in starts {
        print_start(key.as_slice(), *number, out)?;
    }
    Ok(())
}

// Appends the line of an item at the start.
fn print_start(key: &[u8], number: u64, out: &mut Vec<u8>) -> Result<(), OutOfMemory>
    ensures { OnOk result (out.new.items ≡ out.old.items ++ texts.start_text (key.now, number)) }
{
    let mut number_text = Buffer::new();
    let number = number_text.format(number).as_bytes();
    append_all(
        out,
        &[b"start ", key, b" ", number, b"  ", key, b" held an item\n"],
    )
}

fn print_moves(before: &History, moves: &[Move], out: &mut Vec<u8>) -> Result<(), OutOfMemory>
    ensures { OnOk result (out.new.items ≡ out.old.items ++ texts.order_text before.now.sections [] moves.now) }
{
    'moves: for (index, by) in moves.iter().enumerate() {
        print_move(before, &moves[..index], *by, out)?;
    }
    Ok(())
}

// Appends the line of a move after the earlier ones.
fn print_move(
    before: &History,
    earlier: &[Move],
    by: Move,
    out: &mut Vec<u8>,
) -> Result<(), OutOfMemory>
    ensures { OnOk result (out.new.items ≡ out.old.items ++ texts.move_text before.now.sections earlier.now by) }
{
    print_words(by, out)?;
    print_beside(before, earlier, by.actor, out)?;
    out.extend_from_slice(b"\n")
}

// Appends the words of a move.
fn print_words(by: Move, out: &mut Vec<u8>) -> Result<(), OutOfMemory>
    ensures { OnOk result (out.new.items ≡ out.old.items ++ join_words (move_words by)) }
{
    let mut number_text = Buffer::new();
    let number = number_text.format(by.number).as_bytes();
    let marks = marks_text(by.choice);
    append_all(out, &[by.actor.word().as_bytes(), b" ", number, marks])
}

// The marks of a choice, each after a space.
fn marks_text(choice: Choice) -> &'static [u8]
    ensures { result.now ≡ flat_map (λ mark. 32 ∷ mark) (marks_of choice) }
{
    match (choice.pad, choice.read) {
        (false, true) => b"",
        (true, true) => b" pad",
        (false, false) => b" refuse",
        (true, false) => b" pad refuse",
    }
}

// Appends what stands beside a move: the section's next request after the earlier moves.
fn print_beside(
    before: &History,
    earlier: &[Move],
    actor: Actor,
    out: &mut Vec<u8>,
) -> Result<(), OutOfMemory>
    ensures { OnOk result (out.new.items ≡ out.old.items ++ texts.beside_text (next_after before.now.sections earlier.now actor)) }
{
    let place = count_moves(actor, earlier);
    match before.sent(actor).get(place) {
        Some(sent) => print_sent(sent, out),
        None => Ok(()),
    }
}

// Appends a request and its reply, unless its key would be read as a mark of the move.
fn print_sent(sent: &Sent, out: &mut Vec<u8>) -> Result<(), OutOfMemory>
    ensures { OnOk result (out.new.items ≡ out.old.items ++ texts.beside_text (Some sent.now)) }
{
    let key = sent.request.key.as_slice();
    if is_word(key, b"pad") || is_word(key, b"refuse") {
        return Ok(());
    }
    out.extend_from_slice(b"  ")?;
    print_request_words(&sent.request, out)?;
    print_received(&sent.reply, out)
}
