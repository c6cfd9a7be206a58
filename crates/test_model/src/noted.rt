//! Histories that keep what was noted: what makes one, and what they count. `cases/judge` has the faults of notes that make none.
use crate::lines::{reply_in, request_in};
use crate::memory::again;
use mc_model::{History, HistoryKind, Note, NotedBuilder};
use mc_protocol::Actor;
use mc_words::WordsFault;
use std::alloc::Global;
use std::test::Fail;

/// What is noted: the section, whether its request begins, and the words of the request or of the reply.
type Line = (Actor, bool, &'static str);

fn note(alloc: Global, begins: bool, words: &str) -> Result<Note, WordsFault> {
    Ok(if begins {
        Note::Begin(request_in(alloc, words)?)
    } else {
        Note::Reply(reply_in(alloc, words)?)
    })
}

/// A rule that is broken, and the section and the place in the list of the note that breaks it.
type Broken = (HistoryKind, Actor, usize);

/// The history of these notes, or what is broken. A call that finds no memory is made once more.
fn history(alloc: Global, lines: &[Line]) -> Result<Result<History, Broken>, WordsFault> {
    match history_of(alloc, lines)? {
        Err((HistoryKind::OutOfMemory, _, _)) => history_of(alloc, lines),
        found => Ok(found),
    }
}

fn history_of(alloc: Global, lines: &[Line]) -> Result<Result<History, Broken>, WordsFault> {
    let mut notes = Vec::new(alloc);
    for (actor, begins, words) in lines {
        notes.push((*actor, note(alloc, *begins, words)?))?;
    }
    Ok(History::noted(alloc, notes))
}

/// The history of notes that make one.
fn sound_history(alloc: Global, lines: &[Line]) -> Result<History, Fail> {
    Ok(history(alloc, lines)?.map_err(|broken| broken.0)?)
}

/// Each section's last request was not answered in one of these.
static OPEN: &[&[Line]] = &[
    &[],
    &[(Actor::P, true, "delete a")],
    &[
        (Actor::P, true, "delete a"),
        (Actor::P, false, "NOT_FOUND"),
        (Actor::A, true, "get a"),
    ],
    &[
        (Actor::P, true, "delete a"),
        (Actor::P, false, "NOT_FOUND"),
        (Actor::A, true, "get a"),
        (Actor::B, true, "get a"),
    ],
];

fn has_notes(history: &History, lines: &[Line]) -> bool {
    let Some(notes) = history.notes() else {
        return false;
    };
    notes.len() == lines.len()
        && notes.iter().zip(lines).all(|((actor, note), (who, begins, _))| {
            actor == who && matches!(note, Note::Begin(_)) == *begins
        })
}

/// Whether the notes make a history, which keeps them.
fn are_kept(alloc: Global, lines: &[Line]) -> Result<bool, Fail> {
    Ok(has_notes(&sound_history(alloc, lines)?, lines))
}

#[test]
fn takes_requests_without_replies(rt: HostRuntime) -> Result<(), Fail> {
    for lines in OPEN {
        assert!(rt; are_kept(rt.alloc(), lines)?);
    }
    Ok(())
}

/// A's first request overlaps both of B's, and its second one begins after both were answered.
static COUNTED: &[Line] = &[
    (Actor::P, true, "delete a"),
    (Actor::P, false, "NOT_FOUND"),
    (Actor::A, true, "set a 0 =1"),
    (Actor::B, true, "get a"),
    (Actor::B, false, "MISS"),
    (Actor::B, true, "gets a"),
    (Actor::A, false, "STORED"),
    (Actor::B, false, "HIT 0 =1 7"),
    (Actor::A, true, "get a"),
    (Actor::B, true, "touch a"),
];

/// A section, a place in it, and how many of the other branch's requests were answered before the one there began.
static COUNTS: &[(Actor, usize, usize)] = &[
    (Actor::P, 0, 0),
    (Actor::A, 0, 0),
    (Actor::A, 1, 2),
    (Actor::A, 2, 0),
    (Actor::B, 0, 0),
    (Actor::B, 1, 0),
    (Actor::B, 2, 1),
];

/// The first of the counts that the history doesn't have.
fn first_other_count(history: &History) -> Option<(Actor, usize)> {
    for (actor, place, expected) in COUNTS {
        if history.answered_before(*actor, *place) != *expected {
            return Some((*actor, *place));
        }
    }
    None
}

/// Whether the history keeps these notes and has the counts.
fn is_counted(history: &History) -> bool {
    has_notes(history, COUNTED)
        && first_other_count(history).is_none()
        && history.sent(Actor::A).len() == 2
        && history.sent(Actor::B).len() == 3
}

#[test]
fn counts_what_was_answered_before(rt: HostRuntime) -> Result<(), Fail> {
    let history = sound_history(rt.alloc(), COUNTED)?;
    assert!(rt; is_counted(&history));
    Ok(())
}

/// Notes the words, and answers the rule that they would break.
fn fault_at(
    alloc: Global,
    builder: &mut NotedBuilder,
    actor: Actor,
    begins: bool,
    words: &str,
) -> Result<Option<HistoryKind>, WordsFault> {
    let note = note(alloc, begins, words)?;
    match builder.push(actor, note) {
        Ok(()) => Ok(None),
        Err(HistoryKind::OutOfMemory) => Err(WordsFault::out_of_memory()),
        Err(kind) => Ok(Some(kind)),
    }
}

/// Notes these words in turn, and answers the rules that they would break.
fn faults_at(
    alloc: Global,
    builder: &mut NotedBuilder,
) -> Result<[Option<HistoryKind>; 3], WordsFault> {
    Ok([
        again(|| fault_at(alloc, builder, Actor::P, true, "delete a"))?,
        again(|| fault_at(alloc, builder, Actor::A, true, "get a"))?,
        again(|| fault_at(alloc, builder, Actor::P, false, "DELETED"))?,
    ])
}

/// Notes three in turn. Answers the rules that they would break, and the history of those that break none.
fn note_three(alloc: Global) -> Result<([Option<HistoryKind>; 3], History), WordsFault> {
    let mut builder = NotedBuilder::new(alloc);
    let faults = faults_at(alloc, &mut builder)?;
    Ok((faults, builder.finish()?))
}

/// Whether the second of three notes is refused, and the others are those of the history. To finish a builder consumes it, so all is
/// noted once more if there is no memory for that.
fn is_refused_alone(alloc: Global) -> Result<bool, WordsFault> {
    let (faults, history) = again(|| note_three(alloc))?;
    Ok(
        faults == [None, Some(HistoryKind::Order), None]
            && has_notes(&history, &[(Actor::P, true, ""), (Actor::P, false, "")]),
    )
}

#[test]
fn a_refused_note_changes_nothing(rt: HostRuntime) -> Result<(), Fail> {
    assert!(rt; is_refused_alone(rt.alloc())?);
    Ok(())
}
