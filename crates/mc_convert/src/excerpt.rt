//! The part of a text that is a history: what `run` or a report prints before and behind it is left out.
ghost use Rattle.std.specs.Prelude.{◌≡◌, ◌≢◌, ◌++◌, ℕ, List, IfOk, replicate};
ghost use Rattle.mc_convert.specs.Excerpts.{StandsIn};

use itoa::Buffer;
use mc_history::{HistoryFault, TextFault};
use mc_model::HistoryKind;
use mc_protocol::OutOfMemory;
use std::alloc::Global;

/// A part of a text, from the beginning of one of its lines on.
#[derive(Clone, Copy, Debug, Drop)]
pub struct Excerpt<'a> {
    pub text: &'a [u8],
    /// How many lines of the whole text stand before it.
    pub lines_before: u32,
}

impl Excerpt<'_> {
    /// A text of this part alone, in which its lines have the numbers that they have in the whole text: blank lines stand before it.
    pub fn after_blank_lines(self, alloc: Global) -> Result<Vec<u8>, OutOfMemory>
        ensures { IfOk result (λ text. text.items ≡ replicate self.entry.lines_before 10 ++ self.entry.text.now) }
    {
        let mut text = vec![in alloc; b'\n'; self.lines_before as usize]?;
        text.extend_from_slice(self.text)?;
        Ok(text)
    }

    /// A fault that was found in this part, with its line in the whole text.
    pub fn fault_in_whole(self, fault: HistoryFault) -> HistoryFault
        requires { fault.kind ≢ HistoryKind.OutOfMemory }
    {
        TextFault {
            kind: fault.kind,
            line: fault.line.saturating_add(self.lines_before),
            misread: fault.misread,
        }
    }
}

/// The first history of the text, with its line `end`; with `job` the first one after the line `job N` of this number. A text with no
/// such history is answered whole, or for want of the job what stands behind its last line.
pub fn find_history<'a>(text: &'a [u8], job: Option<u64>) -> Excerpt<'a>
    ensures { StandsIn text.now result.text.now }
{
    let from_job = from_line_of_job(text, job);
    let from_header = from_line(from_job, is_header);
    if from_header.text.is_empty() && job.is_none() {
        whole_of(text)
    } else {
        up_to_end(from_header)
    }
}

fn whole_of(text: &[u8]) -> Excerpt<'_>
    ensures { result.text.now ≡ text.now }
{
    Excerpt {
        text,
        lines_before: 0,
    }
}

// The text from the line `job N` of this number on, or the whole text if no job is asked for.
fn from_line_of_job<'a>(text: &'a [u8], job: Option<u64>) -> Excerpt<'a>
    ensures { (front : List ℕ) × (text.now ≡ front ++ result.text.now) }
{
    match job {
        Some(number) => {
            let mut digits = Buffer::new();
            let wanted: [&[u8]; 2] = [b"job", digits.format(number).as_bytes()];
            from_line(whole_of(text), |line| has_words(line, &wanted))
        }
        None => whole_of(text),
    }
}

fn is_header(line: &[u8]) -> bool {
    has_words(line, &[b"history", b"1"])
        || has_words(line, &[b"history", b"2"])
        || has_words(line, &[b"history", b"3"])
}

// The text from the first line on that is such a one; what stands behind its last line if none is.
fn from_line<'a, F: Fn(&[u8]) -> bool>(excerpt: Excerpt<'a>, is_such: F) -> Excerpt<'a>
    requires { F.IsAlwaysCallable is_such }
    ensures { (front : List ℕ) × (excerpt.entry.text.now ≡ front ++ result.text.now) }
{
    let mut start: usize = 0;
    let mut lines_before = excerpt.lines_before;
    'lines: for line in excerpt.text.split(|byte| *byte == b'\n') {
        // Behind the last LF there is no line.
        if start >= excerpt.text.len() || is_such(line) {
            break;
        }
        start = start.saturating_add(line.len()).saturating_add(1);
        lines_before = lines_before.saturating_add(1);
    }
    let (_, text) = excerpt.text.split_at(start.min(excerpt.text.len()));
    Excerpt { text, lines_before }
}

// The text with its first line `end`, and without what stands behind it.
fn up_to_end<'a>(excerpt: Excerpt<'a>) -> Excerpt<'a>
    ensures { (rest : List ℕ) × (excerpt.entry.text.now ≡ result.text.now ++ rest) }
{
    let mut end: usize = 0;
    'lines: for line in excerpt.text.split(|byte| *byte == b'\n') {
        end = end.saturating_add(line.len()).saturating_add(1);
        if has_words(line, &[b"end"]) {
            break;
        }
    }
    let (text, _) = excerpt.text.split_at(end.min(excerpt.text.len()));
    Excerpt { text, ..excerpt }
}

/// Whether the line has these words and no others. A CR at its end is dropped.
pub fn has_words(line: &[u8], wanted: &[&[u8]]) -> bool {
    let line = match line {
        [front @ .., b'\r'] => front,
        _ => line,
    };
    let mut count: usize = 0;
    'words: for word in line.split(|byte| *byte == b' ') {
        if !word.is_empty() {
            if !is_wanted(word, wanted.get(count).copied()) {
                return false;
            }
            count = count.saturating_add(1);
        }
    }
    count == wanted.len()
}

fn is_wanted(word: &[u8], wanted: Option<&[u8]>) -> bool {
    match wanted {
        Some(wanted) => word == wanted,
        None => false,
    }
}
