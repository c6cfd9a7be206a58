//! Texts without a timeline.

use mc_model::HistoryKind;
use mc_protocol::OutOfMemory;
use mc_timeline_draw::{Drawing, Form, draw};
use std::alloc::Global;
use std::test::Fail;

// A text, the number of a job, and the fault with its line.
type Row = (&'static str, Option<u64>, HistoryKind, u32);

static TEXTS: [Row; 3] = [
    // The lines before the timeline are counted.
    (
        "round 1 of 1\nhistory 3\n0 begin delete a\n0 reply MISS\nend\n",
        None,
        HistoryKind::WrongReply,
        4,
    ),
    // The line `end` is missing.
    (
        "x\nhistory 3\n0 begin delete a\n",
        None,
        HistoryKind::Unended,
        4,
    ),
    // There is a timeline, but not of this job.
    ("job 3\nhistory 3\nend\n", Some(30), HistoryKind::Header, 4),
];

fn are_refused(alloc: Global) -> Result<bool, OutOfMemory> {
    'texts: for (text, job, kind, line) in &TEXTS {
        match draw(alloc, text.as_bytes(), Form::Svg, 1000, *job)? {
            Drawing::Refused(fault) if fault.kind == *kind && fault.line == *line => {}
            _ => return Ok(false),
        }
    }
    Ok(true)
}

#[test]
fn refuses_what_has_no_timeline(rt: HostRuntime) -> Result<(), Fail> {
    assert!(rt; are_refused(rt.alloc())?);
    Ok(())
}
