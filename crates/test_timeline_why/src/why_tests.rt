//! With which note the requests on a key become unexplained, and how that is printed.

use mc_history::HistoryFault;
use mc_linearize::{KeyVerdict, judge_key};
use mc_model::HistoryKind;
use mc_protocol::{Bytes, OutOfMemory};
use mc_timeline::Timeline;
use mc_timeline_text::parse_timeline;
use mc_timeline_why::{TimelineFinding, cut_timeline, print_timeline_why, why_key_unexplained};
use std::alloc::Global;
use std::test::Fail;

// The lines of a timeline's notes, a key whose requests nothing explains, the limit of each search, and what is printed.
type Row = (&'static str, &'static str, u64, &'static str);

static PRINTED: [Row; 6] = [
    // Three increments of 5 are answered 7, 6 and 7.
    (
        "0 begin delete a\n0 reply NOT_FOUND\n0 begin set a 0 =5\n0 reply STORED\n1 begin incr a 1\n2 begin incr a 1\n3 begin incr a 1\n\
         1 reply NUMBER 7\n2 reply NUMBER 6\n3 reply NUMBER 7\n",
        "a",
        u64::MAX,
        "why\nline 11 3 reply NUMBER 7\nexplained before\n0 0  delete a -> NOT_FOUND\n0 1  set a 0 =5 -> STORED\n\
         2 2  incr a 1 -> NUMBER 6\n1 3  incr a 1 -> NUMBER 7\noverlap 8\nend\n",
    ),
    // Places are those of the whole timeline, and a key may be there at the start.
    (
        "0 begin delete a\n0 reply NOT_FOUND\n1 begin delete b\n1 reply DELETED\n1 begin get a\n2 begin get b\n1 reply MISS\n\
         2 reply HIT 0 =x\n2 begin get a\n",
        "b",
        u64::MAX,
        "why\nline 9 2 reply HIT 0 =x\nexplained before\nstart b 1  b held an item\n1 0  delete b -> DELETED\noverlap 7\nend\n",
    ),
    // Requests without a reply may have acted, each once.
    (
        "0 begin delete a\n0 reply NOT_FOUND\n1 begin set a 0 =1\n2 begin set a 0 =2\n3 begin get a\n3 reply HIT 0 =1\n\
         4 begin get a\n4 reply HIT 0 =2\n5 begin get a\n5 reply HIT 0 =1\n",
        "a",
        u64::MAX,
        "why\nline 11 5 reply HIT 0 =1\nexplained before\n0 0  delete a -> NOT_FOUND\n1 1  set a 0 =1 -> ?\n3 0  get a -> HIT 0 =1\n\
         2 2  set a 0 =2 -> ?\n4 0  get a -> HIT 0 =2\noverlap 4 5 10\nend\n",
    ),
    // Nothing but the first request.
    (
        "7 begin set a 0 =\n7 reply NOT_STORED\n",
        "a",
        u64::MAX,
        "why\nline 3 7 reply NOT_STORED\nexplained before\noverlap 2\nend\n",
    ),
    // A key that reads as a mark of a move isn't shown beside one.
    (
        "63 begin delete pad\n63 reply DELETED\n63 begin touch pad\n63 reply TOUCHED\n",
        "pad",
        u64::MAX,
        "why\nline 5 63 reply TOUCHED\nexplained before\nstart pad 1  pad held an item\n63 0\noverlap 4\nend\n",
    ),
    // Without the last three replies the increments may act in many orders, of which none leaves 5.
    (
        "0 begin set a 0 =5\n0 reply STORED\n1 begin incr a 1\n2 begin incr a 1\n3 begin incr a 1\n0 begin get a\n0 reply HIT 0 =5\n\
         1 reply NOT_FOUND\n2 reply NOT_FOUND\n3 reply NOT_FOUND\n",
        "a",
        3,
        "why\nundecided at line 9\nend\n",
    ),
];

/// What the call answers. A call that finds no memory is made once more.
fn again<T, F: FnMut() -> Result<T, OutOfMemory>>(mut call: F) -> Result<T, OutOfMemory>
    requires { F.IsAlwaysCallable call }
{
    match call() {
        Err(_) => call(),
        found => found,
    }
}

// What is found of the requests on the key, once it is known that nothing explains them.
fn found_of(
    alloc: Global,
    timeline: &Timeline,
    key: &Bytes,
    limit: u64,
) -> Result<Option<TimelineFinding>, OutOfMemory> {
    let (verdict, _) = judge_key(alloc, timeline, key, u64::MAX)?;
    match verdict {
        KeyVerdict::Unexplained => Ok(Some(why_key_unexplained(alloc, timeline, key, limit)?)),
        KeyVerdict::Explained(_) | KeyVerdict::Undecided => Ok(None),
    }
}

// The numbers of the lines of these places, in a text whose header is its first line.
fn lines_of(alloc: Global, places: &[usize]) -> Result<Vec<u64>, OutOfMemory> {
    let mut lines = Vec::new(alloc);
    'places: for place in places {
        lines.push((*place as u64).saturating_add(2))?;
    }
    Ok(lines)
}

// What is printed of the finding.
fn text_of(
    alloc: Global,
    timeline: &Timeline,
    key: &Bytes,
    finding: &TimelineFinding,
) -> Result<Vec<u8>, OutOfMemory> {
    let line = (finding.place() as u64).saturating_add(2);
    let overlap = lines_of(alloc, finding.overlap())?;
    let mut printed = Vec::new(alloc);
    print_timeline_why(
        finding,
        timeline,
        key,
        line,
        overlap.as_slice(),
        &mut printed,
    )?;
    Ok(printed)
}

// What is found of the requests on the key, as it is printed.
fn printed_of(alloc: Global, timeline: &Timeline, name: &str, limit: u64) -> Result<Vec<u8>, Fail> {
    let key = Bytes::new(again(|| Vec::from_slice(alloc, name.as_bytes()))?);
    match again(|| found_of(alloc, timeline, &key, limit))? {
        Some(finding) => Ok(again(|| text_of(alloc, timeline, &key, &finding))?),
        None => Ok(Vec::new(alloc)),
    }
}

fn is_printed(alloc: Global, row: &Row) -> Result<bool, Fail> {
    let (notes, name, limit, wanted) = row;
    let text = format!(in alloc; "history 3\n{notes}end\n")?;
    let Ok((timeline, _)) = parse_timeline(alloc, text.as_bytes()) else {
        return Ok(false);
    };
    let printed = printed_of(alloc, &timeline, name, *limit)?;
    Ok(printed.as_slice() == wanted.as_bytes())
}

#[test]
fn prints_what_is_found(rt: HostRuntime) -> Result<(), Fail> {
    for row in &PRINTED {
        assert!(rt; is_printed(rt.alloc(), row)?, "{}", row.0);
    }
    Ok(())
}

// Few enough allocations that each of them can be refused.
static SHORT: &[u8] =
    b"history 3\n1 begin delete a\n1 reply NOT_FOUND\n1 begin get a\n1 reply HIT 0 =\nend\n";

// The short timeline. A call that finds no memory is made once more.
fn short_timeline(alloc: Global) -> Result<Timeline, HistoryFault> {
    let (timeline, _) = match parse_timeline(alloc, SHORT) {
        Err(fault) if fault.kind == HistoryKind::OutOfMemory => parse_timeline(alloc, SHORT)?,
        read => read?,
    };
    Ok(timeline)
}

#[test]
fn cuts_a_short_timeline(rt: HostRuntime) -> Result<(), Fail> {
    let timeline = short_timeline(rt.alloc())?;
    let front = again(|| cut_timeline(rt.alloc(), &timeline, 3))?;
    assert_eq!(rt; front.notes().len(), 3);
    Ok(())
}

#[test]
fn finds_what_a_short_timeline_shows(rt: HostRuntime) -> Result<(), Fail> {
    let timeline = short_timeline(rt.alloc())?;
    let printed = printed_of(rt.alloc(), &timeline, "a", u64::MAX)?;
    let wanted =
        b"why\nline 5 1 reply HIT 0 =\nexplained before\n1 0  delete a -> NOT_FOUND\noverlap 4\nend\n";
    assert!(rt; printed.as_slice() == wanted.as_slice());
    Ok(())
}
