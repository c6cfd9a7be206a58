//! What a person reads at the begin of a test and at its end.

use crate::book::{Book, State};
use crate::numbers::{Grouped, Milliseconds, Tenths};
use crate::race::races;
use crate::rounds::CLIENTS;
use crate::text::{push_all, push_lines};
use crate::told::Kind;
use std::alloc::{AllocError, Global};
use std::fmt::Write;

// What this program is called.
const NAME: &str = "mcrace";

/// What tests which server, with the version that the server answers, the seed, and how long.
pub(crate) fn begin_text(alloc: Global, book: &Book<'_>) -> Result<String, AllocError> {
    let words = begin_words(alloc, book)?;
    let mut text = String::new(alloc);
    text.push_str(NAME)?;
    push_lines(&mut text, NAME.len(), words.as_str())?;
    text.push_str("\n")?;
    Ok(text)
}

fn begin_words(alloc: Global, book: &Book<'_>) -> Result<String, AllocError> {
    let mut words = String::new(alloc);
    push_all(&mut words, &[book.program, " on ", book.server])?;
    if let Some(version) = &book.version {
        push_all(&mut words, &[" (version ", version.as_str(), ")"])?;
    }
    write!(words, ", seed {}, {}", book.seed, Tenths(book.time))?;
    Ok(words)
}

/// What was tried, what failed, and what was found. `failures` has a line for the first of each kind of failure.
pub(crate) fn end_text(
    alloc: Global,
    book: &Book<'_>,
    state: &State<'_>,
    failures: &str,
) -> Result<String, AllocError> {
    let mut text = String::new(alloc);
    push_end(&mut text, book, state, failures)?;
    Ok(text)
}

fn push_end(
    text: &mut String,
    book: &Book<'_>,
    state: &State<'_>,
    failures: &str,
) -> Result<(), AllocError> {
    push_wrong(text, book)?;
    push_unsupported(text, book)?;
    push_tried(text, book, state)?;
    push_rounds(text, state)?;
    push_connections(text, state)?;
    text.push_str(failures)?;
    push_left(text, state)?;
    push_found(text, book, state)
}

// Which verbs were answered wrongly without a race.
fn push_wrong(text: &mut String, book: &Book<'_>) -> Result<(), AllocError> {
    text.push_str("wrong alone: ")?;
    let mut comma = "";
    'told: for told in &book.told {
        if told.kind == Kind::Alone {
            push_all(text, &[comma, told.name.as_str()])?;
            comma = ", ";
        }
    }
    text.push_str(if comma.is_empty() { "none\n" } else { "\n" })
}

// Which verbs the server doesn't know.
fn push_unsupported(text: &mut String, book: &Book<'_>) -> Result<(), AllocError> {
    text.push_str("not supported: ")?;
    let mut comma = "";
    'verbs: for unknown in book.unsupported.verbs() {
        let closes = if unknown.closes { " (closes)" } else { "" };
        push_all(text, &[comma, unknown.verb, closes])?;
        comma = ", ";
    }
    text.push_str(if comma.is_empty() { "none\n" } else { "\n" })
}

// How many of the races that were wanted were tried, and how often.
fn push_tried(text: &mut String, book: &Book<'_>, state: &State<'_>) -> Result<(), AllocError> {
    let mut wanted = 0usize;
    let mut tried = 0usize;
    'races: for race in races() {
        if book.selection.has(race) {
            wanted = wanted.saturating_add(1);
            tried = tried.saturating_add(usize::from(state.runs_of(race) > 0));
        }
    }
    write!(text, "races tried: {tried} of {wanted}")?;
    if let Some(least) = state.least_runs() {
        write!(text, ", fewest runs of a script: {}", Grouped(least))?;
    }
    write!(
        text,
        "; generated scripts: {}\n",
        Grouped(state.generated.count)
    )
}

// How many rounds were played.
fn push_rounds(text: &mut String, state: &State<'_>) -> Result<(), AllocError> {
    let count = Grouped(state.generated.rounds.count);
    write!(text, "rounds of {CLIENTS} clients: {count}\n")
}

// How long the slowest reply took, and whether no connection failed.
fn push_connections(text: &mut String, state: &State<'_>) -> Result<(), AllocError> {
    let slowest = Milliseconds(state.tally.slowest);
    let failed = state.tally.failed.saturating_add(state.tally.unconnected);
    let end = if failed == 0 {
        ", no failed connection"
    } else {
        ""
    };
    write!(text, "slowest reply {slowest}{end}\n")
}

// How many runs were left undecided, or weren't made, and whether the server is gone, or is none.
fn push_left(text: &mut String, state: &State<'_>) -> Result<(), AllocError> {
    push_count(text, "wrong replies", state.tally.wrong)?;
    push_count(text, "undecided runs", state.tally.undecided)?;
    push_count(text, "runs without a thread", state.tally.not_run)?;
    if state.tally.is_gone {
        text.push_str("the server was gone before the time was over\n")
    } else if state.tally.is_strange() {
        text.push_str("no verb was answered as memcached would: is the address right?\n")
    } else {
        Ok(())
    }
}

// A line for this many, unless there are none.
fn push_count(text: &mut String, name: &str, count: u64) -> Result<(), AllocError> {
    if count == 0 {
        return Ok(());
    }
    write!(text, "{name}: {}\n", Grouped(count))
}

// What was found, in how many runs and how much time.
fn push_found(text: &mut String, book: &Book<'_>, state: &State<'_>) -> Result<(), AllocError> {
    match book.races() {
        0 => text.push_str(
            "a race that comes less often, or in other requests, stays unseen\nno race found",
        )?,
        1 => text.push_str("1 race found")?,
        found => write!(text, "{found} races found")?,
    }
    let (runs, passed) = (Grouped(state.tally.runs), Tenths(state.tally.passed));
    write!(text, " in {runs} runs and {passed}\n")
}
