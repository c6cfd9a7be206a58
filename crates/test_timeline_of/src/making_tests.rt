//! Timelines of histories.
use mc_history::parse_history;
use mc_timeline::print_timeline;
use mc_timeline_of::timeline_of;
use std::alloc::Global;
use std::test::Fail;

/// A history, and the timeline of the same notes if it keeps its notes. Every verb's request is copied, and every reply's parts.
static ROWS: [(&[u8], Option<&[u8]>); 3] = [
    (b"history 1\nP delete a -> NOT_FOUND\nend\n", None),
    (b"history 2\nend\n", Some(b"history 3\nend\n")),
    (
        b"history 2\nP begin delete a\nP reply NOT_FOUND\nP begin set a 3 =x\nP reply STORED\nB begin gets a\n\
          A begin append a 0 =yz\nB reply HIT 3 =x 7\nB begin cas a 0 =5 7\nB reply EXISTS\nA reply STORED\nA begin incr a 2\nend\n",
        Some(
            b"history 3\n0 begin delete a\n0 reply NOT_FOUND\n0 begin set a 3 =x\n0 reply STORED\n2 begin gets a\n\
              1 begin append a 0 =yz\n2 reply HIT 3 =x 7\n2 begin cas a 0 =5 7\n2 reply EXISTS\n1 reply STORED\n1 begin incr a 2\nend\n",
        ),
    ),
];

/// The text of the history's timeline.
fn printed(alloc: Global, text: &[u8]) -> Result<Option<Vec<u8>>, Fail> {
    let (history, _) = parse_history(alloc, text)?;
    let Some(timeline) = timeline_of(alloc, &history)? else {
        return Ok(None);
    };
    let mut out = Vec::new(alloc);
    print_timeline(&timeline, &mut out)?;
    Ok(Some(out))
}

/// Whether the text is the one that is wanted.
fn is_wanted(found: &Option<Vec<u8>>, wanted: &Option<&[u8]>) -> bool {
    match (found, wanted) {
        (Some(text), Some(other)) => text.as_slice() == *other,
        (None, None) => true,
        _ => false,
    }
}

/// The first of these rows that is answered otherwise.
fn first_other(alloc: Global) -> Result<Option<usize>, Fail> {
    for (row, (text, wanted)) in ROWS.iter().enumerate() {
        if !is_wanted(&printed(alloc, text)?, wanted) {
            return Ok(Some(row));
        }
    }
    Ok(None)
}

#[test]
fn has_the_notes_of_the_history(rt: HostRuntime) -> Result<(), Fail> {
    assert_eq!(rt; first_other(rt.alloc())?, None);
    Ok(())
}
