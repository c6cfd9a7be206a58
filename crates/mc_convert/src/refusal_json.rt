//! A refusal in JSON.

use crate::json_text::JsonText;
use crate::printed::{Kind, Said, all_lines};
use mc_protocol::{OutOfMemory, has_digits_alone, is_word};

/// Writes a member for the line of a refusal, and what stands after it.
pub fn write_refusal(
    out: &mut JsonText,
    line: &[u8],
    said: &[Said<'_>],
) -> Result<(), OutOfMemory> {
    let words = out.words_of(line)?;
    out.begin("refused")?;
    match words.as_slice() {
        [_, what, number, fault, place @ ..] if has_digits_alone(number) => {
            out.text("what", what)?;
            out.number("code", number)?;
            out.text("fault", fault)?;
            write_place(out, place)?;
        }
        _ => out.text("what", after_first_word(line))?,
    }
    write_replies(out, said)?;
    let hint = all_lines(out.alloc(), said, Kind::Hint)?;
    if let Some(column) = column_in(hint.as_slice()) {
        out.count("column", column)?;
    }
    out.strings("hint", hint.as_slice())?;
    out.end()
}

/// What stands after the first word of a line.
pub fn after_first_word(line: &[u8]) -> &[u8] {
    match line.iter().position(|byte| *byte == b' ') {
        Some(place) => line.get(place..).unwrap_or(&[]).get(1..).unwrap_or(&[]),
        None => &[],
    }
}

// `line 9`, `byte 201`, `A`, or `A 2`.
fn write_place(out: &mut JsonText, place: &[&[u8]]) -> Result<(), OutOfMemory> {
    match place {
        [word, _] if is_word(word, b"line") || is_word(word, b"byte") => out.pairs(place),
        [section, others @ ..] => {
            out.text("section", section)?;
            match others.first() {
                Some(number) => out.number("place", number),
                None => Ok(()),
            }
        }
        [] => Ok(()),
    }
}

// The run that shows why code isn't sound.
fn write_replies(out: &mut JsonText, said: &[Said<'_>]) -> Result<(), OutOfMemory> {
    let lines = all_lines(out.alloc(), said, Kind::Reply)?;
    if lines.is_empty() {
        return Ok(());
    }
    out.begin_list("run")?;
    'lines: for line in &lines {
        let words = out.words_of(line)?;
        out.item(&["section", "class"], words.as_slice())?;
    }
    out.end_list()
}

// The column of the first caret below a line, counted from 1; none if the line is cut in front, since it isn't known then.
fn column_in(lines: &[&[u8]]) -> Option<u64> {
    'lines: for pair in lines.windows(2) {
        if let [line, below] = pair {
            if let Some((start, caret)) = caret_in(below) {
                let is_cut = line.get(start..).unwrap_or(&[]).starts_with(b"..");
                let column = caret.saturating_sub(start).saturating_add(1);
                return if is_cut { None } else { Some(column as u64) };
            }
        }
    }
    None
}

// Where the line above begins, and where the caret stands, in a line that has nothing but a bar and spaces before it.
fn caret_in(line: &[u8]) -> Option<(usize, usize)> {
    let caret = line.iter().position(|byte| *byte == b'^')?;
    let bar = line.iter().position(|byte| *byte == b'|')?;
    let (front, _) = line.split_at(caret.min(line.len()));
    if bar > caret || front.iter().any(|byte| *byte != b' ' && *byte != b'|') {
        return None;
    }
    Some((bar.saturating_add(2), caret))
}
