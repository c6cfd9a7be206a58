//! Timelines of the requests on one key.
use crate::notes::{Line, push_all};
use mc_protocol::Bytes;
use mc_timeline::{TimelineBuilder, print_timeline, restrict};
use mc_words::WordsFault;
use std::alloc::Global;
use std::test::Fail;

const NOTES: [Line; 8] = [
    (0, true, "delete a"),
    (1, true, "set b 0 =1"),
    (0, false, "NOT_FOUND"),
    (0, true, "get a"),
    (1, false, "STORED"),
    (1, true, "get a"),
    (0, false, "MISS"),
    (0, true, "gets b"),
];

const TEXT: &[u8] = b"history 3\n1 begin set b 0 =1\n1 reply STORED\n0 begin gets b\nend\n";

fn printed(alloc: Global) -> Result<Vec<u8>, WordsFault> {
    let mut builder = TimelineBuilder::new(alloc);
    push_all(alloc, &mut builder, &NOTES)?;
    let key = Bytes::new(Vec::from_slice(alloc, b"b")?);
    let mut out = Vec::new(alloc);
    print_timeline(&restrict(alloc, &builder.finish(), &key)?, &mut out)?;
    Ok(out)
}

#[test]
fn keeps_the_notes_of_one_key(rt: HostRuntime) -> Result<(), Fail> {
    assert!(rt; printed(rt.alloc())?.as_slice() == TEXT);
    Ok(())
}
