//! What a run, a judgement or a check came to, as members in JSON.

use crate::history_json::{write_actor, write_order, write_why};
use crate::json_text::JsonText;
use crate::printed::{Kind, Said, all_lines, first_line};
use crate::refusal_json::{after_first_word, write_refusal};
use mc_protocol::{OutOfMemory, has_digits_alone, is_word};

/// Writes the members for what a text says beside its history.
pub fn write_said(out: &mut JsonText, said: &[Said<'_>]) -> Result<(), OutOfMemory> {
    write_lines_alone(out, said)?;
    write_sections(out, said, Kind::Ending, "endings")?;
    write_failures(out, said)?;
    write_sections(out, said, Kind::Budget, "budgets")?;
    let order = all_lines(out.alloc(), said, Kind::Order)?;
    if !order.is_empty() {
        write_order(out, order.as_slice())?;
    }
    let why = all_lines(out.alloc(), said, Kind::Why)?;
    if why.is_empty() {
        Ok(())
    } else {
        write_why(out, why.as_slice())
    }
}

// The members for which one line stands.
fn write_lines_alone(out: &mut JsonText, said: &[Said<'_>]) -> Result<(), OutOfMemory> {
    if let Some(line) = first_line(said, Kind::Run) {
        let words = out.words_of(line)?;
        out.pairs(words.as_slice())?;
    }
    if let Some(line) = first_line(said, Kind::Totals) {
        write_totals(out, line)?;
    }
    if let Some(line) = first_line(said, Kind::Outcome) {
        let words = out.words_of(line)?;
        write_outcome(out, words.as_slice())?;
    }
    if let Some(line) = first_line(said, Kind::Verdict) {
        out.text("verdict", line)?;
    }
    if let Some(line) = first_line(said, Kind::Key) {
        out.text("key", after_first_word(line))?;
    }
    match first_line(said, Kind::Refusal) {
        Some(line) => write_refusal(out, line, said),
        None => Ok(()),
    }
}

/// Writes a member for a line of names, each with its number.
pub fn write_totals(out: &mut JsonText, line: &[u8]) -> Result<(), OutOfMemory> {
    let words = out.words_of(line)?;
    out.begin("totals")?;
    out.pairs(words.as_slice())?;
    out.end()
}

/// Writes the members for `no connection A`, `no connection 3`, `not run` or `not made`.
pub fn write_outcome(out: &mut JsonText, words: &[&[u8]]) -> Result<(), OutOfMemory> {
    match words {
        [word, _, actor] if is_word(word, b"no") => {
            out.text("outcome", b"no connection")?;
            write_actor(out, actor)
        }
        [_, word] if is_word(word, b"made") => out.text("outcome", b"not made"),
        _ => out.text("outcome", b"not run"),
    }
}

// A member with one for each section that has a line of this kind.
fn write_sections(
    out: &mut JsonText,
    said: &[Said<'_>],
    kind: Kind,
    name: &str,
) -> Result<(), OutOfMemory> {
    let lines = all_lines(out.alloc(), said, kind)?;
    if lines.is_empty() {
        return Ok(());
    }
    out.begin(name)?;
    'sections: for section in ["P", "A", "B"] {
        let found = lines
            .iter()
            .find(|line| line.starts_with(section.as_bytes()));
        if let Some(line) = found {
            out.begin(section)?;
            write_section(out, line)?;
            out.end()?;
        }
    }
    out.end()
}

// A list of the clients that failed, if there are any.
fn write_failures(out: &mut JsonText, said: &[Said<'_>]) -> Result<(), OutOfMemory> {
    let lines = all_lines(out.alloc(), said, Kind::Failure)?;
    if lines.is_empty() {
        return Ok(());
    }
    out.begin_list("failed")?;
    'clients: for line in lines {
        out.begin_item()?;
        write_failure(out, line)?;
        out.end()?;
    }
    out.end_list()
}

// The client, and the fault with which it failed.
fn write_failure(out: &mut JsonText, line: &[u8]) -> Result<(), OutOfMemory> {
    let words = out.words_of(line)?;
    match words.as_slice() {
        [_, client, _, number, fault] => {
            out.number("client", client)?;
            out.number("code", number)?;
            out.text("fault", fault)
        }
        _ => Ok(()),
    }
}

// How a section ended, or what it costs at most.
fn write_section(out: &mut JsonText, line: &[u8]) -> Result<(), OutOfMemory> {
    let words = out.words_of(line)?;
    match words.as_slice() {
        [_, state, number, fault] if is_word(state, b"failed") => {
            out.text("state", state)?;
            out.number("code", number)?;
            out.text("fault", fault)
        }
        [_, requests, bytes] if has_digits_alone(requests) => {
            out.number("requests", requests)?;
            out.number("bytes", bytes)
        }
        _ => out.text("state", after_first_word(line)),
    }
}
