//! What the line of a request says, by its words.
ghost use Rattle.std.specs.Prelude.{◌≡◌, ◌∷◌, IfOk};
ghost use Rattle.mc_reader.specs.AskLines as lines;
ghost use Rattle.mc_reader.specs.AskParts as spec;
ghost use Rattle.mc_reader.specs.Asks as asks;

use crate::ask_numbers::{is_request_key, number_in, time_in};
use crate::ask_said::{AskSaid, Command, refused};
use crate::ask_storage::{storage, swapping};
use crate::ask_words::LineWords;
use crate::line::text_of;
use crate::{Ask, Refuse};
use mc_protocol::{Bytes, OutOfMemory, Request, Verb, shows_number};
use std::alloc::Global;

/// What a line without its LF says.
pub(crate) fn read_line(alloc: Global, line: &[u8]) -> Result<AskSaid, OutOfMemory>
    ensures { IfOk result (λ said. spec.said_of said ≡ lines.line_says line.now) }
{
    read_words(alloc, LineWords::new(without_cr(line)))
}

/// The line without a CR that ends it.
fn without_cr(line: &[u8]) -> &[u8]
    ensures { result.now ≡ lines.without_cr line.entry.now }
{
    match text_of(line) {
        Some(text) => text,
        None => line,
    }
}

/// The words of a line.
#[tactic(auto, unfolding(crate::specs::AskLines::words_say))]
fn read_words(alloc: Global, mut words: LineWords<'_>) -> Result<AskSaid, OutOfMemory>
    ensures { IfOk result (λ said. spec.said_of said ≡ lines.words_say words.entry) }
{
    let Some(first) = words.next_word() else {
        return Ok(refused(Refuse::Unknown));
    };
    let Some(command) = command_of(first) else {
        return Ok(refused(Refuse::Unknown));
    };
    match command {
        Command::Retrieves(verb) => retrieval(alloc, verb, words),
        Command::Stores(verb) => storage(alloc, verb, words),
        Command::Swaps => swapping(alloc, words),
        Command::Counts(verb) => counting(alloc, verb, words),
        Command::Deletes => deletion(alloc, words),
        Command::Touches => touch(alloc, words),
        Command::Quits => Ok(quitting(words)),
    }
}

/// The command with this word.
#[tactic(auto, unfolding(crate::specs::AskLines::command_of))]
fn command_of(word: &[u8]) -> Option<Command>
    ensures { result ≡ lines.command_of word.now }
{
    if word == b"get".as_slice() {
        Some(Command::Retrieves(Verb::Get))
    } else if word == b"set".as_slice() {
        Some(Command::Stores(Verb::Set))
    } else if word == b"gets".as_slice() {
        Some(Command::Retrieves(Verb::Gets))
    } else if word == b"add".as_slice() {
        Some(Command::Stores(Verb::Add))
    } else if word == b"replace".as_slice() {
        Some(Command::Stores(Verb::Replace))
    } else if word == b"append".as_slice() {
        Some(Command::Stores(Verb::Append))
    } else if word == b"prepend".as_slice() {
        Some(Command::Stores(Verb::Prepend))
    } else if word == b"cas".as_slice() {
        Some(Command::Swaps)
    } else if word == b"incr".as_slice() {
        Some(Command::Counts(Verb::Incr))
    } else if word == b"decr".as_slice() {
        Some(Command::Counts(Verb::Decr))
    } else if word == b"delete".as_slice() {
        Some(Command::Deletes)
    } else if word == b"touch".as_slice() {
        Some(Command::Touches)
    } else if word == b"quit".as_slice() {
        Some(Command::Quits)
    } else {
        None
    }
}

/// The words after `get` or `gets`: a key or more.
#[tactic(auto, unfolding(crate::specs::AskLines::retrieval))]
fn retrieval(alloc: Global, verb: Verb, mut words: LineWords<'_>) -> Result<AskSaid, OutOfMemory>
    ensures { IfOk result (λ said. spec.said_of said ≡ lines.retrieval verb words.entry) }
{
    let Some(first) = words.next_word() else {
        return Ok(refused(Refuse::BadLine));
    };
    let Some(second) = words.next_word() else {
        return bare_says(alloc, verb, first, Some(0), Some(false));
    };
    if !is_request_key(first) {
        return Ok(refused(Refuse::BadLine));
    }
    if !is_request_key(second) {
        return Ok(refused(Refuse::BadLine));
    }
    let mut keys = Vec::with_capacity(alloc, 2)?;
    keys.push(Bytes::new(Vec::from_slice(alloc, first)?))?;
    keys.push(Bytes::new(Vec::from_slice(alloc, second)?))?;
    match keys_in(alloc, keys, words)? {
        None => Ok(refused(Refuse::BadLine)),
        Some(keys) => Ok(AskSaid::Whole(Ask::Many {
            with_cas: shows_number(verb),
            keys,
        })),
    }
}

/// The keys of a retrieval, where all words are keys.
fn keys_in(
    alloc: Global,
    mut keys: Vec<Bytes>,
    mut words: LineWords<'_>,
) -> Result<Option<Vec<Bytes>>, OutOfMemory>
    ensures { IfOk result (spec.AreKeys keys.items words.entry) }
{
    'keys: while let Some(word) = words.next_word() {
        if !is_request_key(word) {
            return Ok(None);
        }
        keys.push(Bytes::new(Vec::from_slice(alloc, word)?))?;
    }
    Ok(Some(keys))
}

/// The words after `incr` or `decr`.
#[tactic(auto, unfolding(crate::specs::AskLines::counting))]
fn counting(alloc: Global, verb: Verb, mut words: LineWords<'_>) -> Result<AskSaid, OutOfMemory>
    ensures { IfOk result (λ said. spec.said_of said ≡ lines.counting verb words.entry) }
{
    let Some(key) = words.next_word() else {
        return Ok(refused(Refuse::BadLine));
    };
    let Some(number) = words.next_word() else {
        return Ok(refused(Refuse::BadLine));
    };
    bare_says(alloc, verb, key, number_in(u64::MAX, number), ending(words))
}

/// The words after `delete`: a 0 may stand after the key.
#[tactic(auto, unfolding(crate::specs::AskLines::deletion))]
fn deletion(alloc: Global, mut words: LineWords<'_>) -> Result<AskSaid, OutOfMemory>
    ensures { IfOk result (λ said. spec.said_of said ≡ lines.deletion words.entry) }
{
    let Some(key) = words.next_word() else {
        return Ok(refused(Refuse::BadLine));
    };
    let Some(word) = words.next_word() else {
        return bare_says(alloc, Verb::Delete, key, Some(0), Some(false));
    };
    let noreply = if word == b"0".as_slice() {
        ending(words)
    } else {
        ending_from(word, words)
    };
    bare_says(alloc, Verb::Delete, key, Some(0), noreply)
}

/// The same where this word comes before those that are left.
#[tactic(auto, unfolding(crate::specs::AskLines::ending))]
fn ending_from(word: &[u8], mut words: LineWords<'_>) -> Option<bool>
    ensures { result ≡ lines.ending (word.now ∷ words.entry) }
{
    match words.next_word() {
        None if word == b"noreply".as_slice() => Some(true),
        _ => None,
    }
}

/// The words after `touch`.
#[tactic(auto, unfolding(crate::specs::AskLines::touch))]
fn touch(alloc: Global, mut words: LineWords<'_>) -> Result<AskSaid, OutOfMemory>
    ensures { IfOk result (λ said. spec.said_of said ≡ lines.touch words.entry) }
{
    let Some(key) = words.next_word() else {
        return Ok(refused(Refuse::BadLine));
    };
    let Some(time) = words.next_word() else {
        return Ok(refused(Refuse::BadLine));
    };
    match (time_in(time), ending(words)) {
        (Some(never), Some(noreply)) => {
            if !is_request_key(key) {
                Ok(refused(Refuse::BadLine))
            } else if never {
                bare(alloc, Verb::Touch, key, 0, noreply)
            } else {
                Ok(refused(Refuse::Expiry))
            }
        }
        _ => Ok(refused(Refuse::BadLine)),
    }
}

/// The words after `quit`: there are none.
#[tactic(auto, unfolding(crate::specs::AskLines::quitting))]
fn quitting(mut words: LineWords<'_>) -> AskSaid
    ensures { spec.said_of result ≡ lines.quitting words.entry }
{
    match words.next_word() {
        None => AskSaid::Whole(Ask::Quit),
        Some(_) => refused(Refuse::BadLine),
    }
}

/// Whether `noreply` is the one word that is left. There is no answer where other words are left.
#[tactic(auto, unfolding(crate::specs::AskLines::ending))]
pub(crate) fn ending(mut words: LineWords<'_>) -> Option<bool>
    ensures { result ≡ lines.ending words.entry }
{
    match words.next_word() {
        None => Some(false),
        Some(word) => ending_from(word, words),
    }
}

/// What a request says that has a key, perhaps a number and no body, where each of these words is right.
fn bare_says(
    alloc: Global,
    verb: Verb,
    key: &[u8],
    number: Option<u64>,
    noreply: Option<bool>,
) -> Result<AskSaid, OutOfMemory>
    ensures { IfOk result (λ said. spec.said_of said ≡ lines.bare_says verb key.now number noreply) }
{
    match (number, noreply) {
        (Some(number), Some(noreply)) => {
            if is_request_key(key) {
                bare(alloc, verb, key, number, noreply)
            } else {
                Ok(refused(Refuse::BadLine))
            }
        }
        _ => Ok(refused(Refuse::BadLine)),
    }
}

/// A line that is a whole request without a body.
fn bare(
    alloc: Global,
    verb: Verb,
    key: &[u8],
    number: u64,
    noreply: bool,
) -> Result<AskSaid, OutOfMemory>
    ensures { IfOk result (λ said. spec.said_of said ≡ lines.Whole (asks.One (lines.bare verb key.now number) noreply)) }
{
    Ok(AskSaid::Whole(Ask::One {
        request: Request {
            verb,
            key: Bytes::new(Vec::from_slice(alloc, key)?),
            flags: 0,
            body: Bytes::new(Vec::new(alloc)),
            number,
        },
        noreply,
    }))
}
