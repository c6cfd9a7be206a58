//! Each verb alone: whether the server knows it, and answers it rightly.

use crate::finding::keep_new;
use crate::folder::Folder;
use crate::generated::Generated;
use crate::outcome::{Failure, Outcome};
use crate::player::Player;
use crate::prepared::Prepared;
use crate::race::{Alone, Race, verbs_alone};
use crate::report::Report;
use crate::seen::{Seen, Shown};
use mc_answers::{InputFault, Sink};
use mc_code::Code;
use mc_connect::Network;
use mc_protocol::{Fault, Verb};
use std::alloc::{AllocError, Global};
use std::io::Eprint;
use std::rt::Clock;
use std::sync::Wait;
use std::thread::Threads;

// What comes to a request that the server doesn't know. A part of it is enough: a body may be taken for another request.
const UNKNOWN: &str = "came \"ERROR\\r\\n";

/// A verb that the server doesn't know.
#[derive(Clone, Copy, Drop)]
pub(crate) struct Unknown {
    pub(crate) verb: &'static str,
    /// Whether it closes the connection in place of an answer.
    pub(crate) closes: bool,
}

/// The verbs that the server doesn't know.
#[derive(Drop)]
pub(crate) struct Unsupported {
    verbs: Vec<Unknown>,
}

impl Unsupported {
    /// It knows all.
    pub(crate) fn new(alloc: Global) -> Unsupported {
        Unsupported {
            verbs: Vec::new(alloc),
        }
    }

    /// The same once more.
    pub(crate) fn copy(&self, alloc: Global) -> Result<Unsupported, AllocError> {
        Ok(Unsupported {
            verbs: Vec::from_slice(alloc, self.verbs.as_slice())?,
        })
    }

    /// Whether it knows this verb.
    pub(crate) fn knows(&self, verb: &str) -> bool {
        !self.verbs.iter().any(|unknown| unknown.verb == verb)
    }

    /// Whether it knows all verbs of the race.
    pub(crate) fn allows(&self, race: &Race) -> bool {
        !self.verbs.iter().any(|unknown| race.asks(unknown.verb))
    }

    /// Whether it knows all verbs of the code.
    pub(crate) fn allows_code(&self, code: &Code) -> bool {
        code.templates()
            .iter()
            .all(|template| self.knows(template.verb.word()))
    }

    /// The verbs.
    pub(crate) fn verbs(&self) -> &[Unknown] {
        self.verbs.as_slice()
    }

    fn add(&mut self, verb: Option<Verb>, closes: bool) -> Result<(), AllocError> {
        let Some(verb) = verb else {
            return Ok(());
        };
        let verb = verb.word();
        if self.knows(verb) {
            self.verbs.push(Unknown { verb, closes })?;
        }
        Ok(())
    }
}

/// Asks the server each verb alone, unless it answers none, and tells what it answers wrongly.
pub(crate) fn ask_verbs<R: Threads + Wait + Clock + Sync + Eprint, N: Network, O: Sink, F: Folder>(
    player: &mut Player<'_, R, N>,
    report: &mut Report<'_, O, F>,
    generated: &Generated,
) -> Result<(), InputFault> {
    'verbs: for alone in verbs_alone() {
        if player.is_over() || player.is_strange() {
            break;
        }
        let told = report.book.told.len();
        ask(player, report, alone)?;
        report.book.asked = report.book.asked.saturating_add(1);
        keep_new(player, report, &[], generated, told)?;
    }
    Ok(())
}

fn ask<R: Threads + Wait + Clock + Sync + Eprint, N: Network, O: Sink, F: Folder>(
    player: &mut Player<'_, R, N>,
    report: &mut Report<'_, O, F>,
    alone: &Alone,
) -> Result<(), InputFault> {
    let Some(mut prepared) = Prepared::of_script(player.alloc, alone.script.as_bytes())? else {
        return Ok(());
    };
    match player.play(&mut prepared)? {
        Outcome::Unexplained(seen) => tell_wrong_alone(player, report, alone, seen),
        Outcome::Wrong(text) => {
            player.give_way();
            report.tell_wrong(alone.verb, text.as_str())
        }
        Outcome::Failed(failure) => {
            let unsupported = &mut report.book.unsupported;
            Ok(note_failure(player, unsupported, &mut prepared, &failure)?)
        }
        Outcome::Explained | Outcome::Undecided | Outcome::Unconnected(_) | Outcome::NotRun => Ok(
            (),
        ),
    }
}

// Tells a verb whose replies nothing explains, though nothing else was asked.
fn tell_wrong_alone<R: Threads + Wait + Clock + Sync + Eprint, N: Network, O: Sink, F: Folder>(
    player: &mut Player<'_, R, N>,
    report: &mut Report<'_, O, F>,
    alone: &Alone,
    seen: Seen,
) -> Result<(), InputFault> {
    let limit = player.target.how.limit;
    let shown = Shown::of(player.alloc, seen, limit)?;
    player.give_way();
    report.tell_wrong_alone(limit, alone.verb, alone.script, shown)
}

// Notes the verb of a failed run as one that the server doesn't know, if that is why it failed.
fn note_failure<R: Threads + Wait + Clock + Sync + Eprint, N: Network>(
    player: &mut Player<'_, R, N>,
    unsupported: &mut Unsupported,
    prepared: &mut Prepared,
    failure: &Failure,
) -> Result<(), AllocError> {
    if is_unknown(failure) {
        player.take_back_failure();
        return unsupported.add(failure.verb, false);
    }
    if failure.fault == Fault::Ended {
        return ask_again(player, prepared, failure.verb, unsupported);
    }
    Ok(())
}

fn is_unknown(failure: &Failure) -> bool {
    failure.fault == Fault::ErrorLine && failure.text.as_str().contains(UNKNOWN)
}

// Asks once more after the server closed the connection at a request of this verb. If it does so again, it doesn't know the verb.
fn ask_again<R: Threads + Wait + Clock + Sync + Eprint, N: Network>(
    player: &mut Player<'_, R, N>,
    prepared: &mut Prepared,
    verb: Option<Verb>,
    unsupported: &mut Unsupported,
) -> Result<(), AllocError> {
    if let Outcome::Failed(failure) = player.play(prepared)?
        && failure.fault == Fault::Ended
        && failure.verb == verb
    {
        player.take_back_failure();
        player.take_back_failure();
        unsupported.add(verb, true)?;
    }
    Ok(())
}
