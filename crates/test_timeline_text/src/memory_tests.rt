//! Short texts, so that each of the few allocations can be refused.

use mc_history::HistoryFault;
use mc_linearize::TimelineExplanation;
use mc_model::HistoryKind;
use mc_protocol::OutOfMemory;
use mc_timeline::Timeline;
use mc_timeline_text::{begins_timeline, parse_timeline, print_timeline_explanation};
use std::alloc::Global;
use std::test::Fail;

const TEXT: &[u8] = b"history 3\n1 begin delete a\n1 reply DELETED\nexplain\nstart a 1\n1 0\nend\n";

// What is read of the text. A call that finds no memory is made once more.
fn read(alloc: Global) -> Result<(Timeline, Option<TimelineExplanation>), HistoryFault> {
    match parse_timeline(alloc, TEXT) {
        Err(fault) if fault.kind == HistoryKind::OutOfMemory => parse_timeline(alloc, TEXT),
        read => read,
    }
}

#[test]
fn reads_a_short_text(rt: HostRuntime) -> Result<(), Fail> {
    let (timeline, explanation) = read(rt.alloc())?;
    assert_eq!(rt; timeline.notes().len(), 2);
    assert!(rt; explanation.is_some());
    Ok(())
}

fn begins(alloc: Global) -> Result<bool, OutOfMemory> {
    match begins_timeline(alloc, TEXT) {
        Ok(begins) => Ok(begins),
        Err(_) => begins_timeline(alloc, TEXT),
    }
}

#[test]
fn knows_a_short_text(rt: HostRuntime) -> Result<(), Fail> {
    assert!(rt; begins(rt.alloc())?);
    Ok(())
}

// What is there once the explanation is printed after a front.
fn printed(alloc: Global, explanation: &TimelineExplanation) -> Result<Vec<u8>, OutOfMemory> {
    let mut out = Vec::from_slice(alloc, b"explain\n")?;
    if print_timeline_explanation(explanation, &mut out).is_err() {
        print_timeline_explanation(explanation, &mut out)?;
    }
    Ok(out)
}

#[test]
fn prints_a_short_explanation(rt: HostRuntime) -> Result<(), Fail> {
    let (_timeline, explanation) = read(rt.alloc())?;
    let Some(explanation) = explanation else {
        return Err(Fail::from("an explanation"));
    };
    assert!(rt;
        printed(rt.alloc(), &explanation)?.as_slice() == b"explain\nstart a 1\n1 0\n".as_slice()
    );
    Ok(())
}
