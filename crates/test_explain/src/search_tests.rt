//! What a search finds, and how many turns it takes. `cases/judge/turns.cases` has more of it.

use crate::memory::again;
use mc_explain::{Explanation, Verdict, judge, parse_history, print_explanation};
use mc_model::History;
use mc_protocol::OutOfMemory;
use std::alloc::Global;
use std::test::Fail;

// The lines of the requests, the limit, the lines of what is found, and the turns that are used.
type Row = (&'static str, u64, &'static str, u64);

static ROWS: [Row; 4] = [
    // A counts first, and then B. Each of the four requests acts where it is tried first.
    (
        "P delete a -> NOT_FOUND\nP set a 0 =5 -> STORED\nA incr a 1 -> NUMBER 6\nB incr a 1 -> NUMBER 7\n",
        4,
        "P 0\nP 1\nA 2\nB 3\n",
        4,
    ),
    // Whichever counts second finds 6 and not 5: P's two; A's and B's after it; B's and A's after it.
    (
        "P delete a -> NOT_FOUND\nP set a 0 =5 -> STORED\nA incr a 1 -> NUMBER 6\nB incr a 1 -> NUMBER 6\n",
        u64::MAX,
        "unexplained\n",
        6,
    ),
    // Something was there before, and was the first version.
    (
        "P delete a -> DELETED\nP set a 0 =5 -> STORED\n",
        2,
        "start a 1\nP 0\nP 2\n",
        2,
    ),
    // A server refuses to read a body with a letter after a space.
    (
        "P delete a -> NOT_FOUND\nP set a 0 =5%20x -> STORED\nA incr a 1 -> NOT_A_NUMBER\n",
        u64::MAX,
        "P 0\nP 1\nA 0 refuse\n",
        3,
    ),
];

// What is found of the history of these requests in at most `limit` turns, as its lines, and the turns that were used.
fn found(alloc: Global, requests: &str, limit: u64) -> Result<(Vec<u8>, u64), Fail> {
    let text = format!(in alloc; "history 1\n{requests}end\n")?;
    found_of_text(alloc, &text, limit)
}

fn found_of_text(alloc: Global, text: &str, limit: u64) -> Result<(Vec<u8>, u64), Fail> {
    let read = again(|| parse_history(alloc, text.as_bytes()))?;
    Ok(found_of(alloc, &read.0, limit)?)
}

fn found_of(alloc: Global, history: &History, limit: u64) -> Result<(Vec<u8>, u64), OutOfMemory> {
    let judged = again(|| judge(alloc, history, limit))?;
    Ok((lines_of(alloc, &judged.0)?, judged.1))
}

fn lines_of(alloc: Global, verdict: &Verdict) -> Result<Vec<u8>, OutOfMemory> {
    match verdict {
        Verdict::Explained(explanation) => printed(alloc, explanation),
        Verdict::Unexplained => Vec::from_slice(alloc, b"unexplained\n"),
        Verdict::Undecided => Vec::from_slice(alloc, b"undecided\n"),
    }
}

fn printed(alloc: Global, explanation: &Explanation) -> Result<Vec<u8>, OutOfMemory> {
    let mut lines = Vec::new(alloc);
    print_explanation(explanation, &mut lines)?;
    Ok(lines)
}

#[test]
fn finds_what_explains_each_first_row(rt: HostRuntime) -> Result<(), Fail> {
    for (requests, limit, wanted, turns) in &ROWS {
        assert!(rt;
            is_found(rt.alloc(), requests, *limit, wanted, *turns)?,
            "{requests}"
        );
    }
    Ok(())
}

fn is_found(
    alloc: Global,
    requests: &str,
    limit: u64,
    wanted: &str,
    turns: u64,
) -> Result<bool, Fail> {
    let (lines, used) = found(alloc, requests, limit)?;
    Ok(lines.as_slice() == wanted.as_bytes() && used == turns)
}
