//! The texts of timelines.
use crate::notes::{Line, push_all};
use mc_timeline::{TimelineBuilder, print_timeline};
use mc_words::WordsFault;
use std::alloc::Global;
use std::test::Fail;

const NOTES: [Line; 5] = [
    (0, true, "delete a"),
    (0, false, "NOT_FOUND"),
    (2, true, "set a 0 =5"),
    (11, true, "get a"),
    (2, false, "STORED"),
];

const TEXT: &[u8] =
    b"history 3\n0 begin delete a\n0 reply NOT_FOUND\n2 begin set a 0 =5\n11 begin get a\n2 reply STORED\nend\n";

fn printed(alloc: Global) -> Result<Vec<u8>, WordsFault> {
    let mut builder = TimelineBuilder::new(alloc);
    push_all(alloc, &mut builder, &NOTES)?;
    let mut out = Vec::new(alloc);
    print_timeline(&builder.finish(), &mut out)?;
    Ok(out)
}

#[test]
fn prints_a_line_for_each_note(rt: HostRuntime) -> Result<(), Fail> {
    assert!(rt; printed(rt.alloc())?.as_slice() == TEXT);
    Ok(())
}
