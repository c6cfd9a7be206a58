//! Texts without a history.

use mc_draw::{Drawing, Form, draw};
use mc_model::HistoryKind;
use mc_protocol::OutOfMemory;
use std::alloc::Global;
use std::test::Fail;

// A text, the number of a job, and the fault with its line.
type Row = (&'static str, Option<u64>, HistoryKind, u32);

static TEXTS: [Row; 5] = [
    // No line begins a history, so the first line that counts is at fault.
    ("# none\nhistory 3\nend\n", None, HistoryKind::Header, 2),
    // The lines before the history are counted.
    (
        "P done\nhistory 1\nP delete a -> MISS\nend\n",
        None,
        HistoryKind::WrongReply,
        3,
    ),
    // A line within a history isn't one before it.
    (
        "history 1\nP delete a -> NOT_FOUND\nhistory 1\nend\n",
        None,
        HistoryKind::Line,
        3,
    ),
    // It isn't ended by what looks like its end.
    (
        "x\nhistory 1\nP delete a -> NOT_FOUND\nend x\n",
        None,
        HistoryKind::Line,
        4,
    ),
    // There is a history, but not of this job.
    (
        "job 3\nhistory 1\nP delete a -> NOT_FOUND\nend\n",
        Some(30),
        HistoryKind::Header,
        5,
    ),
];

fn are_refused(alloc: Global) -> Result<bool, OutOfMemory> {
    'texts: for (text, job, kind, line) in &TEXTS {
        match draw(alloc, text.as_bytes(), Form::Svg, 1000, *job)? {
            Drawing::Refused(fault) if fault.kind == *kind && fault.line == *line => {}
            _ => return Ok(false),
        }
    }
    Ok(true)
}

#[test]
fn refuses_what_has_no_history(rt: HostRuntime) -> Result<(), Fail> {
    assert!(rt; are_refused(rt.alloc())?);
    Ok(())
}
