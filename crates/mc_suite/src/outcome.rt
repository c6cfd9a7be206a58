//! What a run of a test came to.

use crate::seen::Seen;
use mc_command::{Played, Remarks};
use mc_core::{Ending, World};
use mc_explain::Verdict;
use mc_model::History;
use mc_protocol::{Actor, Fault, Verb};
use std::alloc::{AllocError, Global};
use std::io;

/// What a run came to.
#[derive(Drop)]
pub(crate) enum Outcome {
    /// All requests have replies that an order explains.
    Explained,
    /// No order explains the replies.
    Unexplained(Seen),
    /// A section failed, and the replies until then are explained or undecided.
    Failed(Failure),
    /// More came than replies, or what came is no reply, as this says.
    Wrong(String),
    /// The search for an order used up its turns.
    Undecided,
    /// A section got no connection.
    Unconnected(io::Error),
    /// No thread could be made for a branch.
    NotRun,
}

impl Outcome {
    /// What came that is no reply, or more than replies.
    pub(crate) fn into_wrong(self) -> Option<String> {
        match self {
            Outcome::Wrong(text) => Some(text),
            _ => None,
        }
    }
}

/// How a section failed.
#[derive(Drop)]
pub(crate) struct Failure {
    pub(crate) fault: Fault,
    /// The verb of the request that had no reply, if there is one.
    pub(crate) verb: Option<Verb>,
    /// What was asked, and what came.
    pub(crate) text: String,
}

/// What a run came to, by what was played and remarked. A search for what explains it takes at most `limit` turns.
pub(crate) fn outcome_of(
    alloc: Global,
    played: Played,
    remarks: Remarks,
    limit: u64,
) -> Result<Outcome, AllocError> {
    match played {
        Played::Ended(_, history, Verdict::Unexplained, _) => unexplained(alloc, history, limit),
        Played::Ended(world, history, verdict, _) => {
            let text = text_of(alloc, &remarks)?;
            Ok(ended(&world, &history, &verdict, text))
        }
        Played::NoConnection(_) => match remarks {
            Remarks::NoConnection(unconnected) => Ok(Outcome::Unconnected(unconnected.error)),
            _ => Ok(Outcome::NotRun),
        },
        Played::NotRun => Ok(Outcome::NotRun),
    }
}

// What a run came to that no order is to explain. Its history is judged once more, because this is what is told.
fn unexplained(alloc: Global, history: History, limit: u64) -> Result<Outcome, AllocError> {
    match Seen::of(alloc, history, limit)? {
        Some(seen) => Ok(Outcome::Unexplained(seen)),
        None => Ok(Outcome::Undecided),
    }
}

// What a run came to that is explained, or undecided.
fn ended(world: &World, history: &History, verdict: &Verdict, text: String) -> Outcome {
    match fault_of(world) {
        Some(Fault::BadReply | Fault::TooMuch) => Outcome::Wrong(text),
        Some(fault) => Outcome::Failed(Failure {
            fault,
            verb: unanswered_verb(history),
            text,
        }),
        None if !text.is_empty() => Outcome::Wrong(text),
        None => match verdict {
            Verdict::Explained(_) => Outcome::Explained,
            Verdict::Unexplained | Verdict::Undecided => Outcome::Undecided,
        },
    }
}

// How the first section that failed did, in the order P, A, B.
fn fault_of(world: &World) -> Option<Fault> {
    'sections: for section in [Actor::P, Actor::A, Actor::B] {
        if let Ending::Failed(fault) = world.ending(section) {
            return Some(fault);
        }
    }
    None
}

// The verb of the first request without a reply.
fn unanswered_verb(history: &History) -> Option<Verb> {
    'sections: for section in [Actor::P, Actor::A, Actor::B] {
        if let Some(sent) = history
            .sent(section)
            .iter()
            .find(|sent| sent.reply.is_none())
        {
            return Some(sent.request.verb);
        }
    }
    None
}

// What was remarked on the sections, with a semicolon between.
fn text_of(alloc: Global, remarks: &Remarks) -> Result<String, AllocError> {
    let mut text = String::new(alloc);
    let Remarks::Evidence(all) = remarks else {
        return Ok(text);
    };
    'remarks: for (index, remark) in all.iter().enumerate() {
        if index > 0 {
            text.push_str("; ")?;
        }
        text.push_str(remark.as_str())?;
    }
    Ok(text)
}
