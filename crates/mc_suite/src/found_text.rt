//! What a person reads of a finding.

use crate::numbers::Grouped;
use crate::text::push_all;
use crate::told::{Again, Evidence};
use mc_cli::RunArgs;
use mc_draw::{Drawing, Form, draw};
use std::alloc::{AllocError, Global};

// Lines are broken to keep to these columns, as far as their words allow.
const COLUMNS: usize = 80;

// What the picture begins with. What is told says it otherwise.
const HEADLINE: &[u8] = b"unexplained: no order of these requests gives these replies\n\n";

/// The text of a race, whose script stands in this file, or else in the text.
pub(crate) fn found_text(
    alloc: Global,
    target: &RunArgs<'_>,
    name: &str,
    sentence: &str,
    evidence: &Evidence,
    file: Option<&str>,
) -> Result<Vec<u8>, AllocError> {
    let mut text = head_text(alloc, name, sentence, evidence, "runs")?.into_bytes();
    let proved = "no order of these requests gives these replies.";
    append_shown(alloc, target.how.limit, evidence, proved, &mut text)?;
    append_again(alloc, target, file, evidence, &mut text)?;
    text.push(b'\n')?;
    Ok(text)
}

/// The text of a verb that is answered wrongly without a race.
pub(crate) fn alone_text(
    alloc: Global,
    limit: u64,
    verb: &str,
    evidence: &Evidence,
) -> Result<Vec<u8>, AllocError> {
    let mut text = format!(in alloc; "wrong alone: {verb}\n\n")?.into_bytes();
    let proved = "a cache that is asked so doesn't give these replies.";
    append_shown(alloc, limit, evidence, proved, &mut text)?;
    text.push(b'\n')?;
    Ok(text)
}

// Appends the picture, what a correct server answers, and what is proved.
fn append_shown(
    alloc: Global,
    limit: u64,
    evidence: &Evidence,
    proved: &str,
    text: &mut Vec<u8>,
) -> Result<(), AllocError> {
    append_picture(alloc, evidence.history.as_slice(), limit, text)?;
    if let Some(blame) = &evidence.blame {
        text.extend_from_slice(blame.sentence(alloc)?.as_slice())?;
    }
    text.extend_from_slice(b"  Proved: ")?;
    text.extend_from_slice(proved.as_bytes())?;
    text.extend_from_slice(b"\n")
}

// Appends the history as a picture, each line indented.
fn append_picture(
    alloc: Global,
    history: &[u8],
    limit: u64,
    text: &mut Vec<u8>,
) -> Result<(), AllocError> {
    let drawing = draw(alloc, history, Form::Text { lines: false }, limit, None)?;
    let picture = match &drawing {
        Drawing::Drawn(picture) => picture.as_slice(),
        Drawing::Refused(_) => history,
    };
    append_indented(picture.strip_prefix(HEADLINE).unwrap_or(picture), text)
}

/// Appends the lines, of which empty ones stand alone and never first.
pub(crate) fn append_indented(lines: &[u8], text: &mut Vec<u8>) -> Result<(), AllocError> {
    let mut is_empty = true;
    'lines: for line in lines.split(|byte| *byte == b'\n') {
        if !line.is_empty() {
            text.extend_from_slice(b"  ")?;
            text.extend_from_slice(line)?;
            text.push(b'\n')?;
        } else if !is_empty {
            text.push(b'\n')?;
        }
        is_empty = line.is_empty();
    }
    Ok(())
}

/// The lines above the picture of a race, with how often it was seen in runs or in rounds.
pub(crate) fn head_text(
    alloc: Global,
    name: &str,
    sentence: &str,
    evidence: &Evidence,
    unit: &str,
) -> Result<String, AllocError> {
    let (times, runs) = (Grouped(evidence.times), Grouped(evidence.runs));
    let width = name.len().saturating_add(sentence.len());
    let lead = if width > COLUMNS - 10 { "\n  " } else { " " };
    format!(in alloc; "found: {name} -{lead}{sentence}\n  seen in {times} of {runs} {unit}\n\n")
}

// Appends how the race is seen again: by the script in this file, or by the one that follows.
fn append_again(
    alloc: Global,
    target: &RunArgs<'_>,
    file: Option<&str>,
    evidence: &Evidence,
    text: &mut Vec<u8>,
) -> Result<(), AllocError> {
    let command = command_of(alloc, target)?;
    let again = again_text(alloc, command.as_str(), file)?;
    text.extend_from_slice(again.as_bytes())?;
    match &evidence.again {
        Again::Script(script) if file.is_none() => text.extend_from_slice(script.as_slice()),
        _ => Ok(()),
    }
}

// The lines that say by which command, on one line if it fits.
fn again_text<'x>(
    alloc: Global,
    command: &'x str,
    file: Option<&'x str>,
) -> Result<String, AllocError> {
    let mut text = String::new(alloc);
    let Some(file) = file else {
        let head = "  Play it again, with this script as its input:\n    ";
        push_all(&mut text, &[head, command, "\n\n"])?;
        return Ok(text);
    };
    let width = command.len().saturating_add(file.len());
    let (lead, before) = if width <= COLUMNS - 20 {
        (" ", " < ")
    } else if width <= COLUMNS - 7 {
        ("\n    ", " < ")
    } else {
        ("\n    ", " \\\n      < ")
    };
    push_all(
        &mut text,
        &["  Play it again:", lead, command, before, file, "\n"],
    )?;
    Ok(text)
}

fn command_of(alloc: Global, target: &RunArgs<'_>) -> Result<String, AllocError> {
    let mut text = String::new(alloc);
    push_all(&mut text, &["mcrace run ", target.server])?;
    push_branches(&mut text, target)?;
    if target.reconnect {
        text.push_str(" --reconnect")?;
    }
    text.push_str(" --for 1m --why")?;
    Ok(text)
}

/// Appends the servers that A and B have for themselves.
pub(crate) fn push_branches(text: &mut String, target: &RunArgs<'_>) -> Result<(), AllocError> {
    if let Some(server) = target.a {
        push_all(text, &[" --a ", server])?;
    }
    if let Some(server) = target.b {
        push_all(text, &[" --b ", server])?;
    }
    Ok(())
}

/// The path of a file as a shell takes it.
pub(crate) fn shell_word(alloc: Global, path: &str) -> Result<String, AllocError> {
    let mut word = String::new(alloc);
    if path.bytes().all(is_plain) {
        word.push_str(path)?;
    } else {
        push_quoted(&mut word, path)?;
    }
    Ok(word)
}

fn push_quoted(word: &mut String, path: &str) -> Result<(), AllocError> {
    word.push_str("'")?;
    'characters: for character in path.chars() {
        if character == '\'' {
            word.push_str("'\\''")?;
        } else {
            word.push(character)?;
        }
    }
    word.push_str("'")
}

fn is_plain(byte: u8) -> bool {
    byte.is_ascii_alphanumeric() || matches!(byte, b'/' | b'.' | b'-' | b'_')
}
