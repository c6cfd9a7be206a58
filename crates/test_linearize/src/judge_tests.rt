//! Verdicts on timelines whose requests have one key.
use crate::notes::push_all;
use crate::rows::{CLEARED, ROWS};
use mc_linearize::{KeyVerdict, judge_key};
use mc_protocol::Bytes;
use mc_timeline::{Timeline, TimelineBuilder};
use mc_words::WordsFault;
use std::alloc::Global;
use std::test::Fail;

/// Whether each row's verdict is that one.
fn judges_as_expected(alloc: Global) -> Result<bool, WordsFault> {
    for (lines, explained) in ROWS {
        let mut builder = TimelineBuilder::new(alloc);
        push_all(alloc, &mut builder, CLEARED)?;
        push_all(alloc, &mut builder, lines)?;
        if judged(alloc, &builder.finish())? != Some(*explained) {
            return Ok(false);
        }
    }
    Ok(true)
}

/// Whether something explains the requests on `a`, if the turns are enough.
fn judged(alloc: Global, timeline: &Timeline) -> Result<Option<bool>, WordsFault> {
    let key = Bytes::new(Vec::from_slice(alloc, b"a")?);
    let (verdict, _turns) = judge_key(alloc, timeline, &key, 1_000)?;
    Ok(match verdict {
        KeyVerdict::Explained(_) => Some(true),
        KeyVerdict::Unexplained => Some(false),
        KeyVerdict::Undecided => None,
    })
}

#[test]
fn verdicts_of_one_key(rt: HostRuntime) -> Result<(), Fail> {
    assert!(rt; judges_as_expected(rt.alloc())?);
    Ok(())
}
