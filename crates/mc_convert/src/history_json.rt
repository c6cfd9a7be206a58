//! A history in JSON, and what else has its words: an order, and why nothing explains it.

use crate::json_text::JsonText;
use crate::printed::lines_in;
use mc_history::{Explanation, print_explanation, print_history};
use mc_model::History;
use mc_protocol::{OutOfMemory, is_word, read_decimal};

// The greatest number of a client.
const MOST_CLIENT: u64 = 63;

/// Writes a member for a history, as it is printed, with the order that its text claims.
pub fn write_history(
    out: &mut JsonText,
    history: &History,
    claim: &Option<Explanation>,
) -> Result<(), OutOfMemory> {
    let mut text = Vec::new(out.alloc());
    print_history(history, &mut text)?;
    let (version, name) = match history.notes() {
        Some(_) => (2, "notes"),
        None => (1, "lines"),
    };
    out.begin("history")?;
    out.count("version", version)?;
    out.strings("sections", &[b"P", b"A", b"B"])?;
    let lines = lines_in(out.alloc(), text.as_slice())?;
    write_lines(out, name, lines.as_slice())?;
    if let Some(claim) = claim {
        write_claim(out, claim)?;
    }
    out.end()
}

/// Writes the same member for the lines of a timeline, with the order that they claim.
pub fn write_timeline(out: &mut JsonText, lines: &[&[u8]]) -> Result<(), OutOfMemory> {
    let claim = lines.iter().position(|line| is_word(line, b"explain"));
    let (notes, moves) = lines.split_at(claim.unwrap_or(lines.len()).min(lines.len()));
    out.begin("history")?;
    out.count("version", 3)?;
    write_lines(out, "notes", notes)?;
    if claim.is_some() {
        out.begin("claim")?;
        write_order(out, moves)?;
        out.end()?;
    }
    out.end()
}

// A list with an object for each line of a history.
fn write_lines(out: &mut JsonText, name: &str, lines: &[&[u8]]) -> Result<(), OutOfMemory> {
    out.begin_list(name)?;
    'lines: for line in lines {
        write_line(out, line)?;
    }
    out.end_list()
}

fn write_claim(out: &mut JsonText, claim: &Explanation) -> Result<(), OutOfMemory> {
    let mut text = Vec::new(out.alloc());
    print_explanation(claim, &mut text)?;
    let moves = lines_in(out.alloc(), text.as_slice())?;
    out.begin("claim")?;
    write_order(out, moves.as_slice())?;
    out.end()
}

// An object of a list for a line of a history. Its header and its line `end` have none.
fn write_line(out: &mut JsonText, line: &[u8]) -> Result<(), OutOfMemory> {
    let words = out.words_of(line)?;
    match words.as_slice() {
        [actor, event @ ..] if is_actor(actor) => {
            out.begin_item()?;
            write_event(out, actor, event)?;
            out.end()
        }
        _ => Ok(()),
    }
}

/// Whether the word names a section.
pub fn is_section(word: &[u8]) -> bool {
    is_word(word, b"P") || is_word(word, b"A") || is_word(word, b"B")
}

/// Whether the word names a section, or is the number of a client.
pub fn is_actor(word: &[u8]) -> bool {
    is_section(word) || read_decimal(MOST_CLIENT, word).is_ok()
}

/// Writes a member for a section, or for the number of a client.
pub fn write_actor(out: &mut JsonText, actor: &[u8]) -> Result<(), OutOfMemory> {
    if is_section(actor) {
        out.text("section", actor)
    } else {
        out.number("client", actor)
    }
}

// The section or client with the request that begins, the reply that comes, or in a `history 1` both.
fn write_event(out: &mut JsonText, actor: &[u8], event: &[&[u8]]) -> Result<(), OutOfMemory> {
    write_actor(out, actor)?;
    match event {
        [word, request @ ..] if is_word(word, b"begin") => write_request(out, request),
        [word, reply @ ..] if is_word(word, b"reply") => write_reply(out, reply),
        _ => write_both(out, event, b"->"),
    }
}

// The request before this word, and the reply after it.
fn write_both(out: &mut JsonText, words: &[&[u8]], between: &[u8]) -> Result<(), OutOfMemory> {
    let place = words.iter().position(|word| is_word(word, between));
    let (request, rest) = words.split_at(place.unwrap_or(words.len()).min(words.len()));
    write_request(out, request)?;
    match rest {
        [_, reply @ ..] => write_reply(out, reply),
        [] => Ok(()),
    }
}

fn write_request(out: &mut JsonText, words: &[&[u8]]) -> Result<(), OutOfMemory> {
    out.begin("request")?;
    if let [verb, key, values @ ..] = words {
        out.text("verb", verb)?;
        out.text("key", key)?;
        write_values(out, values)?;
    }
    out.end()
}

fn write_reply(out: &mut JsonText, words: &[&[u8]]) -> Result<(), OutOfMemory> {
    match words {
        [word, values @ ..] if !is_word(word, b"?") => {
            out.begin("reply")?;
            out.text("word", word)?;
            write_values(out, values)?;
            out.end()
        }
        _ => out.null("reply"),
    }
}

// What stands after a key or after the word of a reply: a number alone, or flags and a body with or without a number.
fn write_values(out: &mut JsonText, values: &[&[u8]]) -> Result<(), OutOfMemory> {
    match values {
        [flags, [_, body @ ..], others @ ..] => {
            out.number("flags", flags)?;
            out.text("body", body)?;
            match others.first() {
                Some(number) => out.text("number", number),
                None => Ok(()),
            }
        }
        [number] => out.text("number", number),
        _ => Ok(()),
    }
}

/// Writes two members for the lines of an explanation: the items that were there before, and the moves. Other lines say nothing.
pub fn write_order(out: &mut JsonText, lines: &[&[u8]]) -> Result<(), OutOfMemory> {
    out.begin_list("start")?;
    'starts: for line in lines {
        let words = out.words_of(line)?;
        match words.as_slice() {
            [word, start @ ..] if is_word(word, b"start") => out.item(&["key", "number"], start)?,
            _ => {}
        }
    }
    out.end_list()?;
    out.begin_list("order")?;
    'moves: for line in lines {
        let words = out.words_of(line)?;
        match words.as_slice() {
            [actor, number, marks @ ..] if is_actor(actor) => {
                write_move(out, actor, number, marks)?
            }
            _ => {}
        }
    }
    out.end_list()
}

fn write_move(
    out: &mut JsonText,
    actor: &[u8],
    number: &[u8],
    marks: &[&[u8]],
) -> Result<(), OutOfMemory> {
    out.begin_item()?;
    write_actor(out, actor)?;
    out.text("number", number)?;
    'marks: for name in ["pad", "refuse"] {
        if marks.iter().any(|mark| is_word(mark, name.as_bytes())) {
            out.mark(name)?;
        }
    }
    out.end()
}

/// Writes a member for the lines between `why` and `end`.
pub fn write_why(out: &mut JsonText, lines: &[&[u8]]) -> Result<(), OutOfMemory> {
    out.begin("why")?;
    if let Some((first, others)) = lines.split_first() {
        write_place(out, first)?;
        write_order(out, others)?;
    }
    out.begin_list("answers")?;
    'answers: for line in lines {
        write_answer(out, line)?;
    }
    out.end_list()?;
    write_forms(out, lines)?;
    write_overlap(out, lines)?;
    out.end()
}

// The line up to which nothing explains the history, with what it says if that was decided.
fn write_place(out: &mut JsonText, line: &[u8]) -> Result<(), OutOfMemory> {
    let words = out.words_of(line)?;
    match words.as_slice() {
        [word, number, actor, event @ ..] if is_word(word, b"line") => {
            out.number("line", number)?;
            write_event(out, actor, event)
        }
        [word, _, _, number] if is_word(word, b"undecided") => {
            out.number("line", number)?;
            out.mark("undecided")
        }
        _ => Ok(()),
    }
}

fn write_answer(out: &mut JsonText, line: &[u8]) -> Result<(), OutOfMemory> {
    let words = out.words_of(line)?;
    match words.as_slice() {
        [when, section, words @ ..] if is_word(when, b"next") || is_word(when, b"acted") => {
            out.begin_item()?;
            out.text("when", when)?;
            out.text("section", section)?;
            write_both(out, words, b"answers")?;
            out.end()
        }
        _ => Ok(()),
    }
}

// The replies that would be explained, if any are told.
fn write_forms(out: &mut JsonText, lines: &[&[u8]]) -> Result<(), OutOfMemory> {
    let mut forms = Vec::new(out.alloc());
    'lines: for line in lines {
        if let Some(form) = line.strip_prefix(b"explained would be ".as_slice()) {
            forms.push(form)?;
        }
    }
    out.strings("would_be_explained", forms.as_slice())
}

// The lines on which the requests of a timeline began that had no reply before that line, if they are told.
fn write_overlap(out: &mut JsonText, lines: &[&[u8]]) -> Result<(), OutOfMemory> {
    'lines: for line in lines {
        let words = out.words_of(line)?;
        match words.as_slice() {
            [word, numbers @ ..] if is_word(word, b"overlap") => out.numbers("overlap", numbers)?,
            _ => {}
        }
    }
    Ok(())
}
