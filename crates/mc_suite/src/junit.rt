//! What is known of a test, in the XML of JUnit.

use crate::book::{Book, State};
use crate::race::{races, verbs_alone};
use crate::rounds::STRESS;
use crate::text::push_all;
use crate::told::{Kind, Told};
use mc_convert::escaped;
use std::alloc::{AllocError, Global};

const HEAD: &str = "<?xml version=\"1.0\" encoding=\"UTF-8\"?>\n";

// Test cases, and how many there are.
#[derive(Drop)]
struct Cases {
    alloc: Global,
    text: String,
    tests: u64,
    failures: u64,
    errors: u64,
    skipped: u64,
}

// What a test case came to.
#[derive(Clone, Copy)]
enum Came<'a> {
    Passed,
    Failure(&'a Told),
    // Why, in XML.
    Error(&'a str),
    Skipped(&'a str),
}

/// The XML: a test case for each verb alone, for each race, for the generated scripts and for the rounds; and one for the server if it
/// failed.
pub(crate) fn report_junit(
    alloc: Global,
    book: &Book<'_>,
    state: &State<'_>,
) -> Result<String, AllocError> {
    let mut cases = Cases {
        alloc,
        text: String::new(alloc),
        tests: 0,
        failures: 0,
        errors: 0,
        skipped: 0,
    };
    add_all(&mut cases, book, state)?;
    cases.whole()
}

impl Cases {
    fn add(&mut self, class: &str, name: &str, came: Came<'_>) -> Result<(), AllocError> {
        self.tests = self.tests.saturating_add(1);
        let head = [
            "<testcase classname=\"mcrace.",
            class,
            "\" name=\"",
            name,
            "\">\n",
        ];
        push_all(&mut self.text, &head)?;
        match came {
            Came::Passed => {}
            Came::Failure(told) => self.add_failure(told)?,
            Came::Error(message) => {
                self.errors = self.errors.saturating_add(1);
                push_all(&mut self.text, &["<error message=\"", message, "\"/>\n"])?;
            }
            Came::Skipped(message) => {
                self.skipped = self.skipped.saturating_add(1);
                push_all(&mut self.text, &["<skipped message=\"", message, "\"/>\n"])?;
            }
        }
        self.text.push_str("</testcase>\n")
    }

    fn add_failure(&mut self, told: &Told) -> Result<(), AllocError> {
        self.failures = self.failures.saturating_add(1);
        let kind = if told.kind == Kind::Reply {
            "wrong reply"
        } else {
            "unexplained"
        };
        let shown = escaped(self.alloc, told.text.as_slice())?;
        push_all(&mut self.text, &["<failure message=\"", kind, "\">"])?;
        self.text.push_str(shown.as_str())?;
        self.text.push_str("</failure>\n")
    }

    // The report of these cases.
    fn whole(&self) -> Result<String, AllocError> {
        let (tests, failures) = (self.tests, self.failures);
        let (errors, skipped) = (self.errors, self.skipped);
        let text = self.text.as_str();
        format!(in self.alloc;
            "{HEAD}<testsuite name=\"mcrace test\" tests=\"{tests}\" failures=\"{failures}\" \
             errors=\"{errors}\" skipped=\"{skipped}\">\n{text}</testsuite>\n"
        )
    }
}

fn add_all(cases: &mut Cases, book: &Book<'_>, state: &State<'_>) -> Result<(), AllocError> {
    add_verbs(cases, book)?;
    add_races(cases, book, state)?;
    cases.add("generated", "generated scripts", generated(book, state))?;
    cases.add("stress", "rounds of many clients", rounds(book, state))?;
    add_server(cases, book, state)
}

fn add_verbs(cases: &mut Cases, book: &Book<'_>) -> Result<(), AllocError> {
    'verbs: for (index, alone) in verbs_alone().iter().enumerate() {
        let came = match told_of(book, Kind::Alone, alone.verb) {
            Some(told) => Came::Failure(told),
            None if !book.unsupported.knows(alone.verb) => Came::Skipped("not supported"),
            None if index >= book.asked => Came::Skipped("not asked"),
            None => Came::Passed,
        };
        cases.add("alone", alone.verb, came)?;
    }
    Ok(())
}

fn add_races(cases: &mut Cases, book: &Book<'_>, state: &State<'_>) -> Result<(), AllocError> {
    'races: for race in races() {
        if !book.selection.has(race) {
            continue;
        }
        let came = match told_of(book, Kind::Race, race.name) {
            Some(told) => Came::Failure(told),
            None if !book.unsupported.allows(race) => Came::Skipped("not supported"),
            None if state.runs_of(race) == 0 => Came::Skipped("not played"),
            None => Came::Passed,
        };
        cases.add("race", race.name, came)?;
    }
    Ok(())
}

// What was told under this name, or else which of its replies was none.
fn told_of<'a>(book: &'a Book<'_>, kind: Kind, name: &str) -> Option<&'a Told> {
    match book.told_of(kind, name) {
        Some(told) => Some(told),
        None => book.told_of(Kind::Reply, name),
    }
}

// What the generated scripts came to.
fn generated<'a>(book: &'a Book<'_>, state: &State<'_>) -> Came<'a> {
    'told: for told in &book.told {
        let is_reply = told.kind == Kind::Reply && told.name.starts_with("generated-");
        if told.kind == Kind::Generated || is_reply {
            return Came::Failure(told);
        }
    }
    if state.generated.count == 0 {
        Came::Skipped("not played")
    } else {
        Came::Passed
    }
}

// What the rounds came to.
fn rounds<'a>(book: &'a Book<'_>, state: &State<'_>) -> Came<'a> {
    match told_of(book, Kind::Rounds, STRESS) {
        Some(told) => Came::Failure(told),
        None if state.generated.rounds.count == 0 => Came::Skipped("not played"),
        None => Came::Passed,
    }
}

// An error, if the test hasn't ended, or the server failed or couldn't be tested.
fn add_server(cases: &mut Cases, book: &Book<'_>, state: &State<'_>) -> Result<(), AllocError> {
    if !state.has_ended {
        return cases.add("test", "server", Came::Error("the test didn't end"));
    }
    let status = book.status(state);
    if status == 0 || status == 1 {
        return Ok(());
    }
    let message = message_of(cases.alloc, status, book, state)?;
    let message = escaped(cases.alloc, message.as_bytes())?;
    cases.add("test", "server", Came::Error(message.as_str()))
}

// Why the test ended with this status.
fn message_of(
    alloc: Global,
    status: u8,
    book: &Book<'_>,
    state: &State<'_>,
) -> Result<String, AllocError> {
    let tally = &state.tally;
    match &book.fault {
        Some(fault) => format!(in alloc; "exit status {status}: {fault}"),
        None => format!(in alloc;
            "exit status {status}: {} runs failed, {} without a connection, {} undecided",
            tally.failed, tally.unconnected, tally.undecided
        ),
    }
}
