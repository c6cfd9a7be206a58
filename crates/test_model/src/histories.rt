//! What makes a history. The rules themselves, and the faults of requests that make none, are cases of the program.
use crate::lines::{reply_in, request_in};
use crate::memory::again;
use mc_model::{History, HistoryBuilder, HistoryKind, Sent};
use mc_protocol::{Actor, Verb};
use mc_words::WordsFault;
use std::alloc::Global;
use std::test::Fail;

/// A request with its reply, or `?` where none came.
fn sent(alloc: Global, request: &str, reply: &str) -> Result<Sent, WordsFault> {
    let request = request_in(alloc, request)?;
    let reply = if reply == "?" {
        None
    } else {
        Some(reply_in(alloc, reply)?)
    };
    Ok(Sent { request, reply })
}

/// The requests of a section with their replies.
type Section = &'static [(&'static str, &'static str)];

fn section(alloc: Global, lines: &[(&str, &str)]) -> Result<Vec<Sent>, WordsFault> {
    let mut section = Vec::new(alloc);
    for (request, reply) in lines {
        section.push(sent(alloc, request, reply)?)?;
    }
    Ok(section)
}

/// A rule that is broken, and the section and place of the request that breaks it.
type Broken = (HistoryKind, Actor, usize);

/// The history of these sections, or what is broken. A call that finds no memory is made once more.
fn history(
    alloc: Global,
    sections: [&[(&str, &str)]; 3],
) -> Result<Result<History, Broken>, WordsFault> {
    match history_of(alloc, sections)? {
        Err((HistoryKind::OutOfMemory, _, _)) => history_of(alloc, sections),
        found => Ok(found),
    }
}

fn history_of(
    alloc: Global,
    sections: [&[(&str, &str)]; 3],
) -> Result<Result<History, Broken>, WordsFault> {
    let p = section(alloc, sections[0])?;
    let a = section(alloc, sections[1])?;
    let b = section(alloc, sections[2])?;
    Ok(History::new(alloc, p, a, b))
}

fn has_verbs(section: &[Sent], verbs: &[Verb]) -> bool {
    for (sent, verb) in section.iter().zip(verbs) {
        if sent.request.verb != *verb {
            return false;
        }
    }
    section.len() == verbs.len()
}

/// The first section that has other verbs.
fn first_other(history: &History, rows: &[(Actor, &[Verb])]) -> Option<Actor> {
    for (actor, verbs) in rows {
        if !has_verbs(history.sent(*actor), verbs) {
            return Some(*actor);
        }
    }
    None
}

/// What a section has in a history of all three.
static P: Section = &[("delete a", "NOT_FOUND")];

static A: Section = &[("get a", "MISS"), ("touch a", "NOT_FOUND")];

static B: Section = &[("gets a", "?")];

static VERBS: &[(Actor, &[Verb])] = &[
    (Actor::P, &[Verb::Delete]),
    (Actor::A, &[Verb::Get, Verb::Touch]),
    (Actor::B, &[Verb::Gets]),
];

/// The first section that has other verbs in a history of all three.
fn first_other_in(alloc: Global, rows: &[(Actor, &[Verb])]) -> Result<Option<Actor>, Fail> {
    let history = history(alloc, [P, A, B])?.map_err(|broken| broken.0)?;
    Ok(first_other(&history, rows))
}

#[test]
fn takes_histories(rt: HostRuntime) -> Result<(), Fail> {
    assert_eq!(rt; first_other_in(rt.alloc(), VERBS)?, None);
    Ok(())
}

/// What is pushed, and the rule that it would break.
type Push = (Actor, &'static str, &'static str, Option<HistoryKind>);

/// What is pushed, one after another. What breaks a rule changes nothing.
static PUSHES: &[Push] = &[
    (Actor::P, "delete a", "NOT_FOUND", None),
    (Actor::A, "get b", "MISS", Some(HistoryKind::NotCleared)),
    (Actor::A, "get a", "STORED", Some(HistoryKind::WrongReply)),
    (Actor::A, "get a", "MISS", None),
    (Actor::P, "delete b", "NOT_FOUND", Some(HistoryKind::Order)),
];

static BUILT: &[(Actor, &[Verb])] = &[
    (Actor::P, &[Verb::Delete]),
    (Actor::A, &[Verb::Get]),
    (Actor::B, &[]),
];

/// Pushes the row's request, and answers the rule that it would break.
fn push_fault(
    alloc: Global,
    builder: &mut HistoryBuilder,
    row: &Push,
) -> Result<Option<HistoryKind>, WordsFault> {
    let (actor, request, reply, _) = row;
    match builder.push(*actor, sent(alloc, request, reply)?) {
        Ok(()) => Ok(None),
        Err(HistoryKind::OutOfMemory) => Err(WordsFault::out_of_memory()),
        Err(kind) => Ok(Some(kind)),
    }
}

fn is_pushed(alloc: Global, builder: &mut HistoryBuilder, row: &Push) -> Result<bool, WordsFault> {
    Ok(again(|| push_fault(alloc, builder, row))? == row.3)
}

/// The first row of what is pushed that the builder doesn't meet.
fn first_odd(alloc: Global, builder: &mut HistoryBuilder) -> Result<Option<usize>, Fail> {
    for (index, row) in PUSHES.iter().enumerate() {
        if !is_pushed(alloc, builder, row)? {
            return Ok(Some(index));
        }
    }
    Ok(None)
}

/// The first row that isn't met, and the first section that has other verbs then.
fn oddities(alloc: Global) -> Result<(Option<usize>, Option<Actor>), Fail> {
    let mut builder = HistoryBuilder::new(alloc);
    let odd = first_odd(alloc, &mut builder)?;
    Ok((odd, first_other(&builder.finish(), BUILT)))
}

#[test]
fn builds_histories(rt: HostRuntime) -> Result<(), Fail> {
    assert_eq!(rt; oddities(rt.alloc())?, (None, None));
    Ok(())
}
