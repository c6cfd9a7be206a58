//! What is read of a text, and that it is printed as it stands.

use mc_linearize::{TimelineExplanation, confirm_timeline};
use mc_protocol::OutOfMemory;
use mc_timeline::{Timeline, print_timeline};
use mc_timeline_text::{begins_timeline, parse_timeline, print_timeline_explanation};
use std::alloc::Global;
use std::test::Fail;

// The lines of notes and those of a claim, as they are printed; and whether the claim explains the notes.
static PRINTED: [(&str, &str, bool); 5] = [
    ("", "", true),
    (
        "0 begin delete a\n0 reply NOT_FOUND\n2 begin set a 0 =5\n11 begin get a\n2 reply STORED\n",
        "0 1\n2 3\n",
        true,
    ),
    (
        "0 begin delete a\n0 reply NOT_FOUND\n2 begin set a 0 =5\n11 begin get a\n2 reply STORED\n",
        "start x 9\nstart a-1 18446744073709551615\n63 0 pad\n0 1 refuse\n0 1 pad refuse\n",
        false,
    ),
    (
        "63 begin set b 4294967295 =%00~\n0 begin set c 0 =\n63 reply STORED\n7 begin gets b\n0 reply STORED\n\
         7 reply HIT 4294967295 =%00~ 7\n8 begin cas b 0 =%25 7\n9 begin incr c 18446744073709551615\n9 reply NOT_A_NUMBER\n",
        "63 7\n0 1\n7 0\n9 0\n",
        true,
    ),
    ("1 begin delete a\n", "start a 1\n1 0\n", true),
];

// The text of the timeline without its last line, and then the lines of the claim.
fn printed_again(
    alloc: Global,
    timeline: &Timeline,
    explanation: &TimelineExplanation,
) -> Result<Vec<u8>, OutOfMemory> {
    let mut text = Vec::new(alloc);
    print_timeline(timeline, &mut text)?;
    text.extend_from_slice(b"explain\n")?;
    print_timeline_explanation(explanation, &mut text)?;
    Ok(text)
}

// Whether the lines are read and printed as they stand, and the explanation is confirmed as told.
fn is_read(alloc: Global, notes: &str, claim: &str, confirms: bool) -> Result<bool, Fail> {
    let text = format!(in alloc; "history 3\n{notes}explain\n{claim}end\n")?;
    let Ok((timeline, explanation)) = parse_timeline(alloc, text.as_bytes()) else {
        return Ok(false);
    };
    let Some(explanation) = explanation else {
        return Ok(false);
    };
    let wanted = format!(in alloc; "history 3\n{notes}end\nexplain\n{claim}")?;
    let printed = printed_again(alloc, &timeline, &explanation)?;
    let confirmed = confirm_timeline(alloc, &timeline, &explanation)?;
    Ok(printed.as_slice() == wanted.as_bytes() && confirmed == confirms)
}

#[test]
fn prints_what_was_read(rt: HostRuntime) -> Result<(), Fail> {
    for (notes, claim, confirms) in &PRINTED {
        assert!(rt;
            is_read(rt.alloc(), notes, claim, *confirms)?,
            "{notes}{claim}"
        );
    }
    Ok(())
}

const LOOSE: &[u8] =
    b"# a comment\n\n  history   3 \r\n 0  begin set a 0 =%41  \n#0 reply STORED\n0 reply  STORED\nend";

const EXACT: &[u8] = b"history 3\n0 begin set a 0 =A\n0 reply STORED\nend\n";

// What is printed of a text without an explanation, or nothing.
fn printed_timeline(alloc: Global, text: &[u8]) -> Result<Vec<u8>, OutOfMemory> {
    let mut out = Vec::new(alloc);
    if let Ok((timeline, None)) = parse_timeline(alloc, text) {
        print_timeline(&timeline, &mut out)?;
    }
    Ok(out)
}

#[test]
fn reads_lines_as_every_text_has_them(rt: HostRuntime) -> Result<(), Fail> {
    assert!(rt; printed_timeline(rt.alloc(), LOOSE)?.as_slice() == EXACT);
    Ok(())
}

static FRONTS: [(&[u8], bool); 6] = [
    (b"history 3", true),
    (b"\n#\nhistory 3\nend\n", true),
    (b"history 2\n", false),
    (b"history 3 1\n", false),
    (b"history", false),
    (b"", false),
];

// The place of the first text that begins otherwise.
fn first_other(alloc: Global) -> Result<Option<usize>, OutOfMemory> {
    for (place, (text, begins)) in FRONTS.iter().enumerate() {
        if begins_timeline(alloc, text)? != *begins {
            return Ok(Some(place));
        }
    }
    Ok(None)
}

#[test]
fn knows_the_first_line(rt: HostRuntime) -> Result<(), Fail> {
    assert_eq!(rt; first_other(rt.alloc())?, None);
    Ok(())
}
