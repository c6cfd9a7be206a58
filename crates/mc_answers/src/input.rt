//! Reading the input whole.
ghost use Rattle.std.specs.Prelude.{◌≡◌, ◌+◌, ◌-◌, ◌^◌, ◌<◌, ◌≤◌, ℕ, List, length, take, IfOk, IfErr};
ghost use Rattle.mc_answers.specs.Answers as answers;
ghost use Rattle.mc_answers.specs.Input as input_rule;
ghost use Rattle.mc_answers.specs.Streams.{Loses, IsAtEnd, TakesAtMost};

use crate::answer::Answer;
use crate::status::Status;
use crate::streams::{Broken, Source};
use mc_cli::Question;
use mc_timeline_text::begins_timeline;
use std::alloc::{AllocError, Global};

/// The most bytes of an input.
pub const INPUT_LIMIT: usize = 1_048_576;

/// The most bytes of one that is judged, drawn or converted, and begins as a timeline.
const TIMELINE_LIMIT: usize = 67_108_864;

const TOO_LONG: &[u8] = b"refused input too long\n";

// The most bytes of one read.
const PIECE: usize = 8192;

/// Why an input was not read.
#[derive(Clone, Copy, Drop, PartialEq, Eq)]
pub enum InputFault {
    Broken,
    OutOfMemory,
}

impl From<Broken> for InputFault {
    ghost use Rattle.mc_answers.specs.declared.input.InputFault.TheVariants.{Broken};

    ghost from_gives = { λ _ e. e ≡ Broken };

    fn from(_e: Broken) -> InputFault {
        InputFault::Broken
    }
}

impl From<AllocError> for InputFault {
    ghost use Rattle.mc_answers.specs.declared.input.InputFault.TheVariants.{OutOfMemory};

    ghost from_gives = { λ _ e. e ≡ OutOfMemory };

    fn from(_e: AllocError) -> InputFault {
        InputFault::OutOfMemory
    }
}

/// Reads the input whole about which this is asked, and answers its text; or what is written of one that is too long.
pub fn read_asked<I: Source>(
    alloc: Global,
    asked: &Question<'_>,
    input: &mut I,
) -> Result<Result<Vec<u8>, Answer>, InputFault>
    ensures text { IfOk result (λ read. IfOk read (λ text. answers.IsInLimit asked.now text.items
        × answers.IsWhole (I.left input.old) text.items)) }
    ensures too_long { IfOk result (λ read. IfErr read (λ answer. (text : List ℕ) × answers.IsWhole (I.left input.old) text
        × answers.IsTooLong asked.now text × (answer.output.items ≡ answers.too_long_text) × (answer.status ≡ Status.Refused))) }
    ensures fails { input_rule.Fails (I.has_failed input.old) (I.has_failed input.new) result }
    ensures taken { TakesAtMost (answers.most_read asked.now) (I.left input.old) (I.left input.new) }
{
    match asked {
        Question::Judge(_) => read_history(alloc, input),
        Question::Draw(_) => read_history(alloc, input),
        Question::Convert(_) => read_history(alloc, input),
        Question::Check(_) | Question::Asm(_) | Question::Drive(_) | Question::Join => {
            read_text(alloc, input)
        }
    }
}

// The same of an input that is a history.
fn read_history<I: Source>(
    alloc: Global,
    input: &mut I,
) -> Result<Result<Vec<u8>, Answer>, InputFault>
    ensures text { IfOk result (λ read. IfOk read (λ text. input_rule.IsHistoryInLimit text.items
        × answers.IsWhole (I.left input.old) text.items)) }
    ensures too_long { IfOk result (λ read. IfErr read (λ answer. (text : List ℕ) × answers.IsWhole (I.left input.old) text
        × input_rule.IsTooLongHistory text × (answer.output.items ≡ answers.too_long_text) × (answer.status ≡ Status.Refused))) }
    ensures fails { input_rule.Fails (I.has_failed input.old) (I.has_failed input.new) result }
    ensures taken { TakesAtMost 67108865 (I.left input.old) (I.left input.new) }
{
    let mut text = read_input(alloc, input, INPUT_LIMIT)?;
    if text.len() <= INPUT_LIMIT {
        return Ok(Ok(text));
    }
    if !begins_timeline(alloc, first_bytes(text.as_slice(), INPUT_LIMIT))? {
        return Ok(Err(too_long(alloc)?));
    }
    read_on(input, &mut text, TIMELINE_LIMIT)?;
    if text.len() > TIMELINE_LIMIT {
        return Ok(Err(too_long(alloc)?));
    }
    Ok(Ok(text))
}

// The first bytes of a text, or all if it has fewer.
fn first_bytes(text: &[u8], count: usize) -> &[u8]
    ensures { result.now ≡ take count text.now }
{
    text.get(..count).unwrap_or(text)
}

/// Reads the input whole, and answers its text; or what is written of an input that is longer than the limit.
pub fn read_text<I: Source>(
    alloc: Global,
    input: &mut I,
) -> Result<Result<Vec<u8>, Answer>, InputFault>
    ensures text { IfOk result (λ read. IfOk read (λ text. (length text.items ≤ answers.INPUT_LIMIT)
        × answers.IsWhole (I.left input.old) text.items)) }
    ensures too_long { IfOk result (λ read. IfErr read (λ answer. (text : List ℕ) × answers.IsWhole (I.left input.old) text
        × (answers.INPUT_LIMIT < length text) × (answer.output.items ≡ answers.too_long_text) × (answer.status ≡ Status.Refused))) }
    ensures fails { input_rule.Fails (I.has_failed input.old) (I.has_failed input.new) result }
    ensures taken { TakesAtMost 1048577 (I.left input.old) (I.left input.new) }
{
    let text = read_input(alloc, input, INPUT_LIMIT)?;
    if text.len() > INPUT_LIMIT {
        return Ok(Err(too_long(alloc)?));
    }
    Ok(Ok(text))
}

// What is answered to a text that is too long.
fn too_long(alloc: Global) -> Result<Answer, AllocError>
    ensures { IfOk result (λ answer. (answer.output.items ≡ answers.too_long_text) × (answer.status ≡ Status.Refused)) }
{
    let output = Vec::from_slice(alloc, TOO_LONG)?;
    Ok(Answer {
        output,
        status: Status::Refused,
    })
}

/// Reads the input to its end, or one byte more than the limit.
pub fn read_input<I: Source>(
    alloc: Global,
    input: &mut I,
    limit: usize,
) -> Result<Vec<u8>, InputFault>
    requires { limit + 1 < 2 ^ 64 }
    ensures read { IfOk result (λ text. (length text.items ≤ limit + 1) × Loses (I.left input.old) (I.left input.new) text.items) }
    ensures whole { IfOk result (λ text. length text.items ≤ limit → IsAtEnd (I.left input.new)) }
    ensures taken { TakesAtMost (limit + 1) (I.left input.old) (I.left input.new) }
    ensures fails { input_rule.Fails (I.has_failed input.old) (I.has_failed input.new) result }
{
    let mut text = Vec::new(alloc);
    read_on(input, &mut text, limit)?;
    Ok(text)
}

// Reads on to the end of the input, or until the text has one byte more than the limit.
fn read_on<I: Source>(input: &mut I, text: &mut Vec<u8>, limit: usize) -> Result<(), InputFault>
    requires room { limit + 1 < 2 ^ 64 }
    requires short { length text.old.items ≤ limit + 1 }
    ensures adds { input_rule.Adds (I.left input.old) (I.left input.new) text.old.items text.new.items }
    ensures short { length text.new.items ≤ limit + 1 }
    ensures end { IfOk result (λ _. length text.new.items ≤ limit → IsAtEnd (I.left input.new)) }
    ensures fails { input_rule.Fails (I.has_failed input.old) (I.has_failed input.new) result }
{
    'pieces: while text.len() <= limit {
        let most = limit + 1 - text.len();
        if read_piece(input, text, most)? == 0 {
            return Ok(());
        }
    }
    Ok(())
}

// Reads some bytes, and no more than `most`, to the end of the text; 0 only at the end.
fn read_piece<I: Source>(
    input: &mut I,
    text: &mut Vec<u8>,
    most: usize,
) -> Result<usize, InputFault>
    requires { 0 < most }
    ensures taken { input_rule.TakesPiece (I.left input.old) (I.left input.new) text.old.items text.new.items most result }
    ensures end { IfOk result (λ count. count ≡ 0 → IsAtEnd (I.left input.new)) }
    ensures fails { input_rule.Fails (I.has_failed input.old) (I.has_failed input.new) result }
{
    let mut piece = [0u8; PIECE];
    let room = most.min(piece.len());
    // No byte is taken for which there is no room.
    text.reserve(room)?;
    let count = input.read(&mut piece[..room])?;
    text.extend_from_slice(&piece[..count])?;
    Ok(count)
}
