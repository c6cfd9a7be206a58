//! Which requests of an unexplained key stay.

use mc_history::HistoryFault;
use mc_model::HistoryKind;
use mc_protocol::{Bytes, OutOfMemory};
use mc_shrink::{smallest, without};
use mc_timeline::{Timeline, print_timeline};
use mc_timeline_text::parse_timeline;
use std::alloc::Global;
use std::test::Fail;

// The lines of a timeline's notes, of which nothing explains those on the key a, the limit of all searches, and the lines that stay.
type Row = (&'static str, u64, &'static str);

static SMALLEST: [Row; 9] = [
    // Two increments of 5 are answered 6: what was read before shows nothing.
    (
        "0 begin set a 0 =5\n0 reply STORED\n1 begin get a\n1 reply HIT 0 =5\n1 begin incr a 1\n2 begin incr a 1\n1 reply NUMBER 6\n\
         2 reply NUMBER 6\n2 begin touch a\n2 reply TOUCHED\n",
        u64::MAX,
        "0 begin set a 0 =5\n0 reply STORED\n1 begin incr a 1\n2 begin incr a 1\n1 reply NUMBER 6\n2 reply NUMBER 6\n",
    ),
    // Each of these reads alone is wrong: the first is left.
    (
        "0 begin set a 0 =1\n0 reply STORED\n1 begin get a\n1 reply HIT 0 =2\n2 begin get a\n2 reply HIT 0 =3\n3 begin get a\n\
         3 reply MISS\n",
        u64::MAX,
        "0 begin set a 0 =1\n0 reply STORED\n1 begin get a\n1 reply HIT 0 =2\n",
    ),
    // A request without a reply may have changed something.
    (
        "0 begin set a 0 =1\n0 reply STORED\n1 begin set a 0 =2\n2 begin get a\n2 reply HIT 0 =3\n",
        u64::MAX,
        "0 begin set a 0 =1\n0 reply STORED\n1 begin set a 0 =2\n2 begin get a\n2 reply HIT 0 =3\n",
    ),
    // So did one that stored or deleted something.
    (
        "0 begin set a 0 =1\n0 reply STORED\n1 begin set a 0 =2\n1 reply STORED\n1 begin delete a\n1 reply DELETED\n2 begin get a\n\
         2 reply HIT 0 =3\n",
        u64::MAX,
        "0 begin set a 0 =1\n0 reply STORED\n1 begin set a 0 =2\n1 reply STORED\n1 begin delete a\n1 reply DELETED\n2 begin get a\n\
         2 reply HIT 0 =3\n",
    ),
    // A gets stays if a cas that stays names its number.
    (
        "0 begin set a 0 =1\n0 reply STORED\n1 begin gets a\n1 reply HIT 0 =1 7\n2 begin cas a 0 =2 7\n2 reply STORED\n3 begin get a\n\
         3 reply HIT 0 =1\n",
        u64::MAX,
        "0 begin set a 0 =1\n0 reply STORED\n1 begin gets a\n1 reply HIT 0 =1 7\n2 begin cas a 0 =2 7\n2 reply STORED\n3 begin get a\n\
         3 reply HIT 0 =1\n",
    ),
    // A cas that found another version goes, and then the gets goes too.
    (
        "0 begin set a 0 =1\n0 reply STORED\n1 begin gets a\n1 reply HIT 0 =1 7\n1 begin set a 0 =3\n1 reply STORED\n\
         2 begin cas a 0 =2 7\n2 reply EXISTS\n3 begin get a\n3 reply HIT 0 =9\n",
        u64::MAX,
        "0 begin set a 0 =1\n0 reply STORED\n1 begin set a 0 =3\n1 reply STORED\n3 begin get a\n3 reply HIT 0 =9\n",
    ),
    // The first request stays, and other keys aren't there.
    (
        "0 begin delete a\n0 reply NOT_FOUND\n4 begin delete b\n1 begin set a 0 =1\n1 reply STORED\n4 reply NOT_FOUND\n2 begin get a\n\
         2 reply HIT 0 =2\n",
        u64::MAX,
        "0 begin delete a\n0 reply NOT_FOUND\n1 begin set a 0 =1\n1 reply STORED\n2 begin get a\n2 reply HIT 0 =2\n",
    ),
    // Every other reply that says that nothing changed.
    (
        "0 begin set a 0 =x\n0 reply STORED\n1 begin add a 0 =1\n1 reply NOT_STORED\n1 begin incr a 1\n1 reply NOT_A_NUMBER\n\
         1 begin get a\n1 reply MISS\n1 begin replace a 0 =1\n1 reply NOT_STORED\n1 begin delete a\n1 reply NOT_FOUND\n",
        u64::MAX,
        "0 begin set a 0 =x\n0 reply STORED\n1 begin get a\n1 reply MISS\n",
    ),
    // Without turns all stay.
    (
        "0 begin set a 0 =1\n0 reply STORED\n1 begin get a\n1 reply HIT 0 =2\n2 begin get a\n2 reply HIT 0 =3\n",
        0,
        "0 begin set a 0 =1\n0 reply STORED\n1 begin get a\n1 reply HIT 0 =2\n2 begin get a\n2 reply HIT 0 =3\n",
    ),
];

/// What the call answers. A call that finds no memory is made once more.
fn again<T, F: FnMut() -> Result<T, OutOfMemory>>(mut call: F) -> Result<T, OutOfMemory>
    requires { F.IsAlwaysCallable call }
{
    match call() {
        Err(_) => call(),
        found => found,
    }
}

// The timeline's text.
fn text_of(alloc: Global, timeline: &Timeline) -> Result<Vec<u8>, OutOfMemory> {
    let mut text = Vec::new(alloc);
    print_timeline(timeline, &mut text)?;
    Ok(text)
}

// The timeline of these lines, unless they are none.
fn timeline_of(alloc: Global, notes: &str) -> Result<Option<Timeline>, Fail> {
    let text = format!(in alloc; "history 3\n{notes}end\n")?;
    Ok(
        parse_timeline(alloc, text.as_bytes())
            .ok()
            .map(|(timeline, _)| timeline),
    )
}

// Whether these are the lines of the timeline's notes.
fn has_lines(alloc: Global, timeline: &Timeline, notes: &str) -> Result<bool, Fail> {
    let wanted = format!(in alloc; "history 3\n{notes}end\n")?;
    let text = again(|| text_of(alloc, timeline))?;
    Ok(text.as_slice() == wanted.as_bytes())
}

// Whether the lines stay that the row says.
fn is_smallest(alloc: Global, row: &Row) -> Result<bool, Fail> {
    let (notes, limit, wanted) = row;
    let Some(timeline) = timeline_of(alloc, notes)? else {
        return Ok(false);
    };
    let key = Bytes::new(again(|| Vec::from_slice(alloc, b"a"))?);
    let left = again(|| smallest(alloc, &timeline, &key, *limit))?;
    has_lines(alloc, &left, wanted)
}

#[test]
fn leaves_out_what_is_not_needed(rt: HostRuntime) -> Result<(), Fail> {
    for row in &SMALLEST {
        assert!(rt; is_smallest(rt.alloc(), row)?, "{}", row.0);
    }
    Ok(())
}

// Few enough allocations that each of them can be refused.
static SHORT: &[u8] =
    b"history 3\n1 begin delete a\n1 reply NOT_FOUND\n1 begin get a\n2 begin get a\n1 reply HIT 0 =\n2 reply MISS\nend\n";

// The short timeline. A call that finds no memory is made once more.
fn short_timeline(alloc: Global) -> Result<Timeline, HistoryFault> {
    let (timeline, _) = match parse_timeline(alloc, SHORT) {
        Err(fault) if fault.kind == HistoryKind::OutOfMemory => parse_timeline(alloc, SHORT)?,
        read => read?,
    };
    Ok(timeline)
}

#[test]
fn leaves_out_what_it_is_told(rt: HostRuntime) -> Result<(), Fail> {
    let timeline = short_timeline(rt.alloc())?;
    let Some(part) = again(|| without(rt.alloc(), &timeline, &[false, false, true]))? else {
        return Err(Fail::new("no timeline"));
    };
    let wanted = "1 begin delete a\n1 reply NOT_FOUND\n2 begin get a\n2 reply MISS\n";
    assert!(rt; has_lines(rt.alloc(), &part, wanted)?);
    Ok(())
}

#[test]
fn leaves_out_one_of_two_reads(rt: HostRuntime) -> Result<(), Fail> {
    let timeline = short_timeline(rt.alloc())?;
    let key = Bytes::new(again(|| Vec::from_slice(rt.alloc(), b"a"))?);
    let left = again(|| smallest(rt.alloc(), &timeline, &key, u64::MAX))?;
    let wanted = "1 begin delete a\n1 reply NOT_FOUND\n1 begin get a\n1 reply HIT 0 =\n";
    assert!(rt; has_lines(rt.alloc(), &left, wanted)?);
    Ok(())
}

#[test]
fn a_get_begins_no_timeline(rt: HostRuntime) -> Result<(), Fail> {
    let timeline = short_timeline(rt.alloc())?;
    let part = again(|| without(rt.alloc(), &timeline, &[true]))?;
    assert!(rt; part.is_none());
    Ok(())
}
