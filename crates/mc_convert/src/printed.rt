//! What the lines of a printed text say, beside its histories and scripts.

use crate::history_json::is_section;
use mc_protocol::{Lines, OutOfMemory, Separator, has_digits_alone, is_word, words_in};
use std::alloc::Global;

/// What a line says.
#[derive(Clone, Copy, Debug, Drop, PartialEq, Eq)]
pub enum Kind {
    /// Which run or round is printed: `run 7 of 1000`.
    Run,
    /// How many runs or rounds came to which verdict: `runs 7 ..`.
    Totals,
    /// How a section ended: `A failed 3 Ended`.
    Ending,
    /// How a client of a round failed: `client 3 failed 2 ReadFailed`.
    Failure,
    Verdict,
    /// Which key of a timeline the verdict is about: `key a`.
    Key,
    /// There is no verdict: `no connection A`, `not run`.
    Outcome,
    /// The greatest costs of a section: `P 2 26`.
    Budget,
    /// A line between `explained` and `end`.
    Order,
    /// A line between `why` and `end`.
    Why,
    /// `refused ..`
    Refusal,
    /// A reply of the run that shows why code isn't sound: `P notfound`.
    Reply,
    /// What stands after a refusal.
    Hint,
}

/// A line that says something.
#[derive(Clone, Copy, Debug, Drop)]
pub struct Said<'a> {
    pub kind: Kind,
    pub line: &'a [u8],
}

// What the next line belongs to.
#[derive(Clone, Copy, Debug, Drop, PartialEq, Eq)]
enum Block {
    None,
    Order,
    Why,
    /// A history or a script, up to its line `end`.
    Other,
    /// The replies of a run that shows a fault, up to their line `end`.
    Replies,
    /// All that stands after a refusal.
    Hint,
}

// The first words of a line, what it says, and what follows it.
type Row = (&'static str, &'static str, Option<Kind>, Block);

static ROWS: [Row; 19] = [
    ("run", "", Some(Kind::Run), Block::None),
    ("runs", "", Some(Kind::Totals), Block::None),
    ("round", "", Some(Kind::Run), Block::None),
    ("rounds", "", Some(Kind::Totals), Block::None),
    ("client", "", Some(Kind::Failure), Block::None),
    ("explained", "", Some(Kind::Verdict), Block::Order),
    ("unexplained", "", Some(Kind::Verdict), Block::None),
    ("undecided", "", Some(Kind::Verdict), Block::None),
    ("confirmed", "", Some(Kind::Verdict), Block::None),
    ("not", "confirmed", Some(Kind::Verdict), Block::None),
    ("key", "", Some(Kind::Key), Block::None),
    ("accepted", "", Some(Kind::Verdict), Block::None),
    ("no", "connection", Some(Kind::Outcome), Block::None),
    ("not", "run", Some(Kind::Outcome), Block::None),
    ("why", "", None, Block::Why),
    ("history", "", None, Block::Other),
    ("shrunk", "", None, Block::Other),
    ("refused", "verify", Some(Kind::Refusal), Block::Replies),
    ("refused", "", Some(Kind::Refusal), Block::Hint),
];

/// The lines of the text, without those that are blank or comments.
pub fn lines_in<'a>(alloc: Global, text: &'a [u8]) -> Result<Vec<&'a [u8]>, OutOfMemory> {
    let mut found = Vec::new(alloc);
    let mut lines = Lines::new(text, Separator::Space);
    'lines: while let Some(line) = lines.next() {
        found.push(line.text)?;
    }
    Ok(found)
}

/// The lines of the text that say something, in its order.
pub fn lines_that_say<'a>(alloc: Global, text: &'a [u8]) -> Result<Vec<Said<'a>>, OutOfMemory> {
    let mut said = Vec::new(alloc);
    let mut block = Block::None;
    'lines: for line in lines_in(alloc, text)? {
        let words = words_in(alloc, Separator::Space, line)?;
        let (kind, next) = kind_of(block, words.as_slice());
        if let Some(kind) = kind {
            said.push(Said { kind, line })?;
        }
        block = next;
    }
    Ok(said)
}

// What the line with these words says in the block, and what follows it.
fn kind_of(block: Block, words: &[&[u8]]) -> (Option<Kind>, Block) {
    let is_end = match words {
        [word] => is_word(word, b"end"),
        _ => false,
    };
    match block {
        Block::Hint => (Some(Kind::Hint), Block::Hint),
        Block::Replies if is_end => (None, Block::Hint),
        Block::Replies if is_reply(words) => (Some(Kind::Reply), Block::Replies),
        Block::Replies => (Some(Kind::Hint), Block::Hint),
        Block::Order | Block::Why | Block::Other if is_end => (None, Block::None),
        Block::Order if begins(words, b"key") => (Some(Kind::Key), Block::Order),
        // a round that is explained has no order
        Block::Order if begins(words, b"history") => (None, Block::Other),
        Block::Order => (Some(Kind::Order), Block::Order),
        Block::Why => (Some(Kind::Why), Block::Why),
        Block::Other => (None, Block::Other),
        Block::None => kind_outside(words),
    }
}

fn is_reply(words: &[&[u8]]) -> bool {
    match words {
        [section, _] => is_section(section),
        _ => false,
    }
}

// Whether this is the first word of the line.
fn begins(words: &[&[u8]], first: &[u8]) -> bool {
    match words.first() {
        Some(word) => is_word(word, first),
        None => false,
    }
}

fn kind_outside(words: &[&[u8]]) -> (Option<Kind>, Block) {
    match words {
        [section, requests, _] if is_section(section) && has_digits_alone(requests) => {
            (Some(Kind::Budget), Block::None)
        }
        [section, _, ..] if is_section(section) => (Some(Kind::Ending), Block::None),
        _ => match ROWS.iter().find(|row| begins_with(words, row)) {
            Some((_, _, kind, block)) => (*kind, *block),
            None => (None, Block::None),
        },
    }
}

fn begins_with(words: &[&[u8]], row: &Row) -> bool {
    let (first, second, _, _) = row;
    match words {
        [one, others @ ..] if is_word(one, first.as_bytes()) => match others {
            [two, ..] => second.is_empty() || is_word(two, second.as_bytes()),
            [] => second.is_empty(),
        },
        _ => false,
    }
}

/// The first line of this kind.
pub fn first_line<'a>(said: &[Said<'a>], kind: Kind) -> Option<&'a [u8]> {
    let found = said.iter().find(|one| one.kind == kind)?;
    Some(found.line)
}

/// The lines of this kind.
pub fn all_lines<'a>(
    alloc: Global,
    said: &[Said<'a>],
    kind: Kind,
) -> Result<Vec<&'a [u8]>, OutOfMemory> {
    let mut lines = Vec::new(alloc);
    'lines: for one in said {
        if one.kind == kind {
            lines.push(one.line)?;
        }
    }
    Ok(lines)
}
