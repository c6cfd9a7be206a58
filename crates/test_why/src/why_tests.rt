//! From which place on nothing explains a history, what explains the part before it, and what a cache answers there.

use crate::memory::again;
use mc_explain::{Verdict, judge, parse_history, print_explanation};
use mc_model::History;
use mc_protocol::{Actor, OutOfMemory};
use mc_why::{Answer, Cause, Finding, why_unexplained};
use mc_words::print_reply_words;
use std::alloc::Global;
use std::test::Fail;

// The text of a history that nothing explains, the limit of each search, and what is to be found.
type Row = (&'static str, u64, &'static str);

static NOTED: [Row; 10] = [
    // Both count, and both are answered 6. B's reply comes last, and after A's count it is 7.
    (
        "history 2\nP begin delete a\nP reply NOT_FOUND\nP begin set a 0 =5\nP reply STORED\nA begin incr a 1\nB begin incr a 1\n\
         A reply NUMBER 6\nB reply NUMBER 6\nend\n",
        u64::MAX,
        "place 7\nP 0\nP 1\nA 2\nB next 0 NUMBER 7\n",
    ),
    // The same, where A's reply comes last. B counts first, since it is answered 6.
    (
        "history 2\nP begin delete a\nP reply NOT_FOUND\nP begin set a 0 =5\nP reply STORED\nA begin incr a 1\nB begin incr a 1\n\
         B reply NUMBER 6\nA reply NUMBER 6\nend\n",
        u64::MAX,
        "place 7\nP 0\nP 1\nB 2\nA next 0 NUMBER 7\n",
    ),
    // Two winners of one cas. A's changes the number, so B's finds another one.
    (
        "history 2\nP begin delete a\nP reply NOT_FOUND\nP begin set a 0 =1\nP reply STORED\nP begin gets a\nP reply HIT 0 =1 7\n\
         A begin cas a 0 =2 7\nB begin cas a 0 =3 7\nA reply STORED\nB reply STORED\nend\n",
        u64::MAX,
        "place 9\nP 0\nP 7\nP 0\nA 1\nB next 0 EXISTS\n",
    ),
    // A stale read: B's request began after A's was answered.
    (
        "history 2\nP begin delete a\nP reply NOT_FOUND\nA begin set a 0 =1\nA reply STORED\nB begin get a\nB reply MISS\nend\n",
        u64::MAX,
        "place 5\nP 0\nA 1\nB next 0 HIT 0 =1\n",
    ),
    // B read what A counted before A was answered, so A's request is in the order; where it stands it counts 5 to 6. What
    // happens afterwards is of no account.
    (
        "history 2\nP begin delete a\nP reply NOT_FOUND\nP begin set a 0 =5\nP reply STORED\nA begin incr a 1\nB begin get a\n\
         B reply HIT 0 =6\nA reply NUMBER 7\nB begin get a\nA begin get a\nA reply MISS\nend\n",
        u64::MAX,
        "place 7\nP 0\nP 1\nA 2\nB 0\nA acted 0 NUMBER 6\n",
    ),
    // The same with a number that was padded: the request in the order has the choice of its move.
    (
        "history 2\nP begin delete a\nP reply NOT_FOUND\nP begin set a 0 =10\nP reply STORED\nA begin decr a 1\nB begin get a\n\
         B reply HIT 0 =9%20\nA reply NUMBER 8\nend\n",
        u64::MAX,
        "place 7\nP 0\nP 1\nA 2 pad\nB 0\nA acted 0 NUMBER 9\n",
    ),
    // Neither branch has acted, and either could come next.
    (
        "history 2\nP begin delete a\nP reply NOT_FOUND\nP begin set a 0 =5\nP reply STORED\nA begin incr a 1\nB begin get a\n\
         B reply HIT 0 =7\nend\n",
        u64::MAX,
        "place 6\nP 0\nP 1\nA next 0 NUMBER 6\nB next 0 HIT 0 =5\n",
    ),
    // Nothing but the first request.
    (
        "history 2\nP begin delete a\nP reply NOT_FOUND\nP begin get a\nP reply HIT 0 =1\nA begin get a\nA reply MISS\nend\n",
        u64::MAX,
        "place 3\nP 0\nP next 1 MISS\n",
    ),
    // What was there at the start is gone, and nothing is read as a number that isn't one.
    (
        "history 2\nP begin delete a\nP reply DELETED\nP begin set a 0 =x\nP reply STORED\nA begin incr a 1\nA reply NUMBER 1\nend\n",
        u64::MAX,
        "place 5\nstart a 1\nP 0\nP 2\nA next 0 NOT_A_NUMBER\n",
    ),
    // Of eight notes the first four are tried first. They take two turns.
    (
        "history 2\nP begin delete a\nP reply NOT_FOUND\nP begin set a 0 =5\nP reply STORED\nA begin incr a 1\nB begin incr a 1\n\
         A reply NUMBER 6\nB reply NUMBER 6\nend\n",
        1,
        "undecided 4\n",
    ),
];

static UNNOTED: [Row; 4] = [
    // B's first request explains A's, so the place is that of B's second.
    (
        "history 1\nP delete a -> NOT_FOUND\nA get a -> HIT 0 =1\nB set a 0 =1 -> STORED\nB get a -> MISS\nend\n",
        u64::MAX,
        "place 3\nP 0\nB 1\nA 0\nB next 1 HIT 0 =1\n",
    ),
    // A's request stands before all of B's in the order P, A, B, wherever the text has it.
    (
        "history 1\nP delete a -> NOT_FOUND\nP set a 0 =5 -> STORED\nB incr a 1 -> NUMBER 6\nA incr a 1 -> NUMBER 6\nend\n",
        u64::MAX,
        "place 3\nP 0\nP 1\nA 2\nB next 0 NUMBER 7\n",
    ),
    // A's request was not answered and has acted, since B read what it counted; B's second request comes next.
    (
        "history 1\nP delete a -> NOT_FOUND\nP set a 0 =5 -> STORED\nA incr a 1 -> ?\nB get a -> HIT 0 =6\nB get a -> HIT 0 =7\nend\n",
        u64::MAX,
        "place 4\nP 0\nP 1\nA 2\nB 0\nA acted 0 NUMBER 6\nB next 1 HIT 0 =6\n",
    ),
    // Of three requests the first two are tried first.
    (
        "history 1\nP delete a -> NOT_FOUND\nP set a 0 =5 -> STORED\nA get a -> MISS\nend\n",
        1,
        "undecided 2\n",
    ),
];

fn push_answer(lines: &mut Vec<u8>, actor: Actor, answer: &Option<Answer>) -> Result<(), Fail> {
    let (word, place, reply) = match answer {
        None => return Ok(()),
        Some(Answer::Next { place, reply }) => ("next", *place, reply),
        Some(Answer::Acted { place, reply }) => ("acted", *place, reply),
    };
    let alloc = *lines.allocator();
    let section = actor.word();
    let line = format!(in alloc; "{section} {word} {place} ")?;
    lines.extend_from_slice(line.as_bytes())?;
    print_reply_words(reply, lines)?;
    lines.push(b'\n')?;
    Ok(())
}

fn lines_of_cause(alloc: Global, cause: &Cause) -> Result<Vec<u8>, Fail> {
    let mut lines = Vec::new(alloc);
    let place = cause.place;
    let first = format!(in alloc; "place {place}\n")?;
    lines.extend_from_slice(first.as_bytes())?;
    print_explanation(&cause.explanation, &mut lines)?;
    push_answer(&mut lines, Actor::P, &cause.answers.p)?;
    push_answer(&mut lines, Actor::A, &cause.answers.a)?;
    push_answer(&mut lines, Actor::B, &cause.answers.b)?;
    Ok(lines)
}

fn lines_of(alloc: Global, finding: &Finding) -> Result<Vec<u8>, Fail> {
    match finding {
        Finding::Cause(cause) => lines_of_cause(alloc, cause),
        Finding::Undecided(place) => {
            let place = *place;
            let line = format!(in alloc; "undecided {place}\n")?;
            Ok(Vec::from_slice(alloc, line.as_bytes())?)
        }
    }
}

// What is found of the history, once it is known that nothing explains it.
pub(crate) fn found_of(
    alloc: Global,
    history: &History,
    limit: u64,
) -> Result<Option<Finding>, OutOfMemory> {
    let (verdict, _) = judge(alloc, history, u64::MAX)?;
    match verdict {
        Verdict::Unexplained => Ok(Some(again(|| why_unexplained(alloc, history, limit))?)),
        Verdict::Explained(_) | Verdict::Undecided => Ok(None),
    }
}

fn is_found(alloc: Global, row: &Row) -> Result<bool, Fail> {
    let (text, limit, wanted) = row;
    let (history, _) = parse_history(alloc, text.as_bytes())?;
    match found_of(alloc, &history, *limit)? {
        Some(finding) => {
            let lines = lines_of(alloc, &finding)?;
            Ok(lines.as_slice() == wanted.as_bytes())
        }
        None => Ok(false),
    }
}

// One history, where both branches might come next: few enough allocations that each of them can be refused.
#[test]
fn finds_why_nothing_explains_one_history(rt: HostRuntime) -> Result<(), Fail> {
    assert!(rt; is_found(rt.alloc(), &NOTED[6])?);
    Ok(())
}

#[test]
fn finds_why_nothing_explains_each_history_with_notes(rt: HostRuntime) -> Result<(), Fail> {
    for row in &NOTED {
        assert!(rt; is_found(rt.alloc(), row)?, "{}", row.0);
    }
    Ok(())
}

#[test]
fn finds_why_nothing_explains_each_history_without_notes(rt: HostRuntime) -> Result<(), Fail> {
    for row in &UNNOTED {
        assert!(rt; is_found(rt.alloc(), row)?, "{}", row.0);
    }
    Ok(())
}
