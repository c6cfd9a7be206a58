//! What is known of a test, as an object in JSON.

use crate::blame::Blame;
use crate::book::{Book, State};
use crate::race::{Race, races};
use crate::rounds::mix_word;
use crate::told::{Again, Evidence, Kind, Told};
use json::Writer;
use mc_rounds::Plan;
use std::alloc::{AllocError, Global};
use std::str;
use std::time::Duration;

/// The object, as a line.
pub(crate) fn report_json(
    alloc: Global,
    book: &Book<'_>,
    state: &State<'_>,
) -> Result<Vec<u8>, AllocError> {
    let mut out = Writer::new(Vec::new(alloc));
    write_report(&mut out, book, state)?;
    let mut line = out.into_inner();
    line.push(b'\n')?;
    Ok(line)
}

fn write_report(out: &mut Writer, book: &Book<'_>, state: &State<'_>) -> Result<(), AllocError> {
    out.begin_object()?;
    write_head(out, book, state)?;
    write_races(out, book, state)?;
    write_generated(out, book, state)?;
    write_rounds(out, book, state)?;
    write_told(out, "wrong_alone", book, Kind::Alone)?;
    write_told(out, "wrong_replies", book, Kind::Reply)?;
    write_unsupported(out, book)?;
    write_counts(out, state)?;
    out.end_object()
}

fn write_head(out: &mut Writer, book: &Book<'_>, state: &State<'_>) -> Result<(), AllocError> {
    write_text(out, "mcrace", book.program)?;
    write_text(out, "server", book.server)?;
    write_if_known(out, "version", book.version.as_ref())?;
    write_if_known(out, "fault", book.fault.as_ref())?;
    out.key("seed")?;
    out.quoted_u64(book.seed)?;
    write_number(out, "milliseconds", milliseconds_of(book.time))?;
    write_flag(out, "ended", state.has_ended)?;
    write_number(out, "status", u64::from(book.status(state)))
}

// The races that are wanted.
fn write_races(out: &mut Writer, book: &Book<'_>, state: &State<'_>) -> Result<(), AllocError> {
    out.key("races")?;
    out.begin_array()?;
    'races: for race in races() {
        if book.selection.has(race) {
            write_race(out, race, book, state)?;
        }
    }
    out.end_array()
}

fn write_race(
    out: &mut Writer,
    race: &Race,
    book: &Book<'_>,
    state: &State<'_>,
) -> Result<(), AllocError> {
    let runs = state.runs_of(race);
    let told = book.told_of(Kind::Race, race.name);
    out.begin_object()?;
    write_text(out, "name", race.name)?;
    write_flag(out, "tried", runs > 0)?;
    write_number(out, "runs", runs)?;
    write_flag(out, "found", told.is_some())?;
    if let Some(told) = told {
        write_evidence(out, told.evidence.as_ref())?;
    }
    out.end_object()
}

fn write_generated(out: &mut Writer, book: &Book<'_>, state: &State<'_>) -> Result<(), AllocError> {
    out.key("generated")?;
    out.begin_object()?;
    write_number(out, "scripts", state.generated.count)?;
    write_number(out, "unexplained", state.generated.unexplained)?;
    write_told(out, "found", book, Kind::Generated)?;
    out.end_object()
}

fn write_rounds(out: &mut Writer, book: &Book<'_>, state: &State<'_>) -> Result<(), AllocError> {
    out.key("stress")?;
    out.begin_object()?;
    write_number(out, "rounds", state.generated.rounds.count)?;
    write_told(out, "found", book, Kind::Rounds)?;
    out.end_object()
}

// What was told of this kind.
fn write_told(out: &mut Writer, name: &str, book: &Book<'_>, kind: Kind) -> Result<(), AllocError> {
    out.key(name)?;
    out.begin_array()?;
    'told: for told in &book.told {
        if told.kind == kind {
            write_one(out, told)?;
        }
    }
    out.end_array()
}

fn write_one(out: &mut Writer, told: &Told) -> Result<(), AllocError> {
    out.begin_object()?;
    write_text(out, "name", told.name.as_str())?;
    write_evidence(out, told.evidence.as_ref())?;
    if told.kind == Kind::Reply {
        write_bytes(out, "text", told.text.as_slice())?;
    }
    out.end_object()
}

fn write_evidence(out: &mut Writer, evidence: Option<&Evidence>) -> Result<(), AllocError> {
    let Some(evidence) = evidence else {
        return Ok(());
    };
    write_number(out, "seen", evidence.times)?;
    write_number(out, "of", evidence.runs)?;
    match &evidence.again {
        Again::Script(script) => write_bytes(out, "script", script.as_slice())?,
        Again::Rounds(plan) => write_plan(out, plan)?,
    }
    write_bytes(out, "history", evidence.history.as_slice())?;
    match &evidence.blame {
        Some(blame) => write_blame(out, blame),
        None => Ok(()),
    }
}

// What rounds are played by.
fn write_plan(out: &mut Writer, plan: &Plan) -> Result<(), AllocError> {
    out.key("seed")?;
    out.quoted_u64(plan.seed)?;
    write_text(out, "mix", mix_word(plan.mix))?;
    write_number(out, "clients", u64::from(plan.clients))?;
    write_number(out, "requests", u64::from(plan.requests))?;
    write_number(out, "keys", u64::from(plan.keys))
}

// The reply that nothing explains, and those that would be explained.
fn write_blame(out: &mut Writer, blame: &Blame) -> Result<(), AllocError> {
    out.key("why")?;
    out.begin_object()?;
    write_text(out, "section", blame.section.word())?;
    write_bytes(out, "request", blame.request.as_slice())?;
    write_bytes(out, "reply", blame.reply.as_slice())?;
    write_correct(out, blame)?;
    out.end_object()
}

fn write_correct(out: &mut Writer, blame: &Blame) -> Result<(), AllocError> {
    out.key("correct")?;
    out.begin_array()?;
    'forms: for form in &blame.correct {
        out.string(text_of(form.as_slice()))?;
    }
    out.end_array()
}

fn write_unsupported(out: &mut Writer, book: &Book<'_>) -> Result<(), AllocError> {
    out.key("not_supported")?;
    out.begin_array()?;
    'verbs: for unknown in book.unsupported.verbs() {
        out.begin_object()?;
        write_text(out, "name", unknown.verb)?;
        write_flag(out, "closes", unknown.closes)?;
        out.end_object()?;
    }
    out.end_array()
}

fn write_counts(out: &mut Writer, state: &State<'_>) -> Result<(), AllocError> {
    let tally = &state.tally;
    write_number(out, "runs", tally.runs)?;
    write_number(out, "passed", milliseconds_of(tally.passed))?;
    write_number(out, "wrong", tally.wrong)?;
    write_number(out, "failed", tally.failed)?;
    write_number(out, "unconnected", tally.unconnected)?;
    write_number(out, "undecided", tally.undecided)?;
    write_flag(out, "gone", tally.is_gone)
}

fn milliseconds_of(time: Duration) -> u64 {
    u64::try_from(time.as_millis()).unwrap_or(u64::MAX)
}

fn write_number(out: &mut Writer, name: &str, number: u64) -> Result<(), AllocError> {
    out.key(name)?;
    out.u64(number)
}

fn write_flag(out: &mut Writer, name: &str, flag: bool) -> Result<(), AllocError> {
    out.key(name)?;
    out.boolean(flag)
}

fn write_text(out: &mut Writer, name: &str, text: &str) -> Result<(), AllocError> {
    out.key(name)?;
    out.string(text)
}

fn write_bytes(out: &mut Writer, name: &str, bytes: &[u8]) -> Result<(), AllocError> {
    write_text(out, name, text_of(bytes))
}

fn write_if_known(out: &mut Writer, name: &str, text: Option<&String>) -> Result<(), AllocError> {
    match text {
        Some(text) => write_text(out, name, text.as_str()),
        None => {
            out.key(name)?;
            out.null()
        }
    }
}

// The bytes as text. All that is printed is ASCII.
fn text_of(bytes: &[u8]) -> &str {
    str::from_utf8(bytes).unwrap_or("?")
}
