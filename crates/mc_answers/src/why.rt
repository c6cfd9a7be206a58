//! What stands after a verdict where the line asks why nothing explains a history.
ghost use Rattle.std.specs.Prelude.{◌≡◌, true, IfOk};
ghost use Rattle.mc_protocol.specs.Lines.{counted};
ghost use Rattle.mc_explain.specs.{Hopeless.IsUnexplained, Verdicts.IsTrueOf};
ghost use Rattle.mc_answers.specs.WhyAnswers as answers;

use mc_cli::Search;
use mc_explain::Verdict;
use mc_model::History;
use mc_protocol::{Actor, Lines, Separator, words_in};
use mc_why::{print_why, request_place, why_unexplained};
use std::alloc::{AllocError, Global};

/// Where the lines of a history are counted.
#[derive(Clone, Copy, Drop)]
pub enum Counted<'a> {
    /// In the text that spells it.
    Text(&'a [u8]),
    /// In the text that is printed of it. It keeps notes.
    Printed,
    /// In the text of a step list, which so many lines precede: for each note the index of the step that makes it.
    Steps(u32, &'a [u8], &'a [usize]),
}

/// The text that stands after the verdict on the history: where the search is asked for it, and nothing explains the history, why that
/// is so; else it is empty.
pub fn why_text(
    alloc: Global,
    how: Search,
    counts: Counted<'_>,
    history: &History,
    verdict: &Verdict,
) -> Result<Vec<u8>, AllocError>
    requires { IsTrueOf history.now verdict.now }
    ensures { IfOk result (λ text. answers.IsWhy how.why (answers.line_of counts.entry history.now) history.now verdict.now text.items) }
{
    if !how.why {
        return Ok(Vec::new(alloc));
    }
    match verdict {
        Verdict::Unexplained => found_text(alloc, how.limit, counts, history),
        Verdict::Explained(_) | Verdict::Undecided => Ok(Vec::new(alloc)),
    }
}

// The text of what is found of a history that nothing explains.
fn found_text(
    alloc: Global,
    limit: u64,
    counts: Counted<'_>,
    history: &History,
) -> Result<Vec<u8>, AllocError>
    requires { IsUnexplained history.now }
    ensures { IfOk result (λ text.
        answers.IsWhy true (answers.line_of counts.entry history.now) history.now Verdict.Unexplained text.items) }
{
    let finding = why_unexplained(alloc, history, limit)?;
    let line = line_of(alloc, counts, history, finding.place())?;
    let mut text = Vec::new(alloc);
    print_why(&finding, history, line, &mut text)?;
    Ok(text)
}

// The number of the line of a place.
fn line_of(
    alloc: Global,
    counts: Counted<'_>,
    history: &History,
    place: usize,
) -> Result<u64, AllocError>
    ensures { IfOk result (λ line. line ≡ answers.line_of counts.entry history.now place) }
{
    match counts {
        Counted::Text(text) => line_in(alloc, text, history, place),
        // The header is the first line, and a line for each note follows.
        Counted::Printed => Ok((place as u64).saturating_add(2)),
        Counted::Steps(before, list, makers) => {
            let index = makers.get(place).copied().unwrap_or(0);
            let line = line_after_header(alloc, list, index)?;
            Ok(u64::from(before).saturating_add(line))
        }
    }
}

// The number of the line of a place in the text that spells the history.
fn line_in(alloc: Global, text: &[u8], history: &History, place: usize) -> Result<u64, AllocError>
    ensures { IfOk result (λ line. line ≡ answers.line_in_text text.now history.now place) }
{
    match history.notes() {
        Some(_) => line_after_header(alloc, text, place),
        None => {
            let mut lines = Lines::new(text, Separator::Space);
            let (section, index) = request_place(history, place);
            number_at(alloc, &mut lines, Some(section), index)
        }
    }
}

/// The number of the line at an index, of the lines of a text that count after its header; 0 where there is none.
pub fn line_after_header(alloc: Global, text: &[u8], index: usize) -> Result<u64, AllocError>
    ensures { IfOk result (λ line. line ≡ answers.line_after_header text.now index) }
{
    let mut lines = Lines::new(text, Separator::Space);
    match lines.next() {
        Some(_) => number_at(alloc, &mut lines, None, index),
        None => Ok(0),
    }
}

// The number of the line at an index among those of the section that count, or among all that count; 0 where there is none.
fn number_at(
    alloc: Global,
    lines: &mut Lines<'_>,
    section: Option<Actor>,
    index: usize,
) -> Result<u64, AllocError>
    ensures { IfOk result (λ number. number ≡ answers.number_at section index (counted lines.old)) }
{
    let mut left = index;
    'lines: while let Some(line) = lines.next() {
        if is_of(alloc, section, line.text)? {
            if left == 0 {
                return Ok(u64::from(line.number));
            }
            left -= 1;
        }
    }
    Ok(0)
}

// Whether the line is one of the section, if one is named.
fn is_of(alloc: Global, section: Option<Actor>, line: &[u8]) -> Result<bool, AllocError>
    ensures { IfOk result (λ is. is ≡ answers.is_of section line.now) }
{
    let Some(section) = section else {
        return Ok(true);
    };
    let words = words_in(alloc, Separator::Space, line)?;
    Ok(match words.as_slice() {
        [word, ..] => *word == section.word().as_bytes(),
        [] => false,
    })
}
