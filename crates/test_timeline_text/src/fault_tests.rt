//! Which fault a text of a timeline has: its kind, its line, the word that it is about, and what was expected there.

use mc_history::{Expected, ExpectedInTimeline, Misread};
use mc_model::HistoryKind;
use mc_model::HistoryKind::{
    Header, Line, NotCleared, Number, Order, TooMany, Unended, UnseenNumber, WrongReply,
};
use mc_timeline_text::parse_timeline;
use mc_words::ExpectedWord;
use std::alloc::Global;
use std::test::Fail;

// Lines, the kind of their fault, the number of its line, the index there of the word that it is about, and what was expected
// in its place.
type Row = (&'static str, HistoryKind, u32, usize, Expected);

static TEXTS: &[Row] = &[
    (
        "",
        Header,
        1,
        0,
        Expected::InTimeline(ExpectedInTimeline::Header),
    ),
    (
        "\nhistory 2\n",
        Header,
        2,
        1,
        Expected::InTimeline(ExpectedInTimeline::Header),
    ),
    (
        "history 3 4\n",
        Header,
        1,
        2,
        Expected::InTimeline(ExpectedInTimeline::Header),
    ),
    ("history 3\n", Unended, 2, 0, Expected::EndLine),
    ("history 3\nend\nend\n", Line, 3, 0, Expected::EndOfText),
    (
        "history 3\nend now\n",
        Line,
        2,
        1,
        Expected::InTimeline(ExpectedInTimeline::NoteOrEnd),
    ),
    (
        "history 3\nstart a 1\n",
        Line,
        2,
        0,
        Expected::InTimeline(ExpectedInTimeline::NoteOrEnd),
    ),
];

// What follows `history 3`, `0 begin delete a` and `0 reply NOT_FOUND`.
static NOTES: &[Row] = &[
    (
        "1 begin get b\n",
        NotCleared,
        4,
        3,
        Expected::InTimeline(ExpectedInTimeline::OpenedKey),
    ),
    (
        "1 begin add b 0 =1\n",
        NotCleared,
        4,
        3,
        Expected::InTimeline(ExpectedInTimeline::OpenedKey),
    ),
    (
        "1 begin delete b\n2 begin get b\n",
        NotCleared,
        5,
        3,
        Expected::InTimeline(ExpectedInTimeline::OpenedKey),
    ),
    (
        "64 begin get a\n",
        Number,
        4,
        0,
        Expected::InTimeline(ExpectedInTimeline::SmallClient),
    ),
    (
        "18446744073709551616 begin get\n",
        Number,
        4,
        0,
        Expected::InTimeline(ExpectedInTimeline::SmallClient),
    ),
    (
        "07 begin get a\n",
        Line,
        4,
        0,
        Expected::InTimeline(ExpectedInTimeline::Client),
    ),
    (
        "064 begin get a\n",
        Line,
        4,
        0,
        Expected::InTimeline(ExpectedInTimeline::Client),
    ),
    (
        "P begin get a\n",
        Line,
        4,
        0,
        Expected::InTimeline(ExpectedInTimeline::NoteOrEnd),
    ),
    ("63\n", Line, 4, 1, Expected::BeginOrReply),
    (
        "1 begin get A\n",
        Line,
        4,
        3,
        Expected::Word(ExpectedWord::Key),
    ),
    (
        "1 begin gets a\n1 reply MISS\n1 begin set a 0 =1\n1 reply STORED\n2 begin gets a\n3 begin cas a 0 =2 7\n",
        UnseenNumber,
        9,
        6,
        Expected::InTimeline(ExpectedInTimeline::SeenUnique),
    ),
    (
        "1 begin get a\n1 begin get a\n",
        Order,
        5,
        0,
        Expected::InTimeline(ExpectedInTimeline::IdleClient),
    ),
    (
        "1 reply MISS\n",
        Order,
        4,
        0,
        Expected::InTimeline(ExpectedInTimeline::AwaitedReply),
    ),
    (
        "1 begin get a\n1 reply STORED\n",
        WrongReply,
        5,
        2,
        Expected::InTimeline(ExpectedInTimeline::FittingReply),
    ),
];

// What follows them and `explain`.
static CLAIMS: &[Row] = &[
    ("", Unended, 5, 0, Expected::EndLine),
    (
        "64 1\nend\n",
        Number,
        5,
        0,
        Expected::InTimeline(ExpectedInTimeline::SmallClient),
    ),
    (
        "07 1\nend\n",
        Line,
        5,
        0,
        Expected::InTimeline(ExpectedInTimeline::Client),
    ),
    (
        "0 1\nstart a 1\nend\n",
        Line,
        6,
        0,
        Expected::InTimeline(ExpectedInTimeline::MoveOrEnd),
    ),
    ("0\nend\n", Line, 5, 1, Expected::MoveNumber),
    ("0 1 refuse pad\nend\n", Line, 5, 3, Expected::Marks),
    ("start a 1\nstart a 2\nend\n", Line, 6, 1, Expected::NewKey),
    ("start a\nend\n", Line, 5, 2, Expected::StartNumber),
    ("0 1\nend\nend\n", Line, 7, 0, Expected::EndOfText),
];

// Whether the row's text, which follows these lines, has its fault.
fn is_right(alloc: Global, front: &str, row: &Row) -> Result<bool, Fail> {
    let (lines, kind, line, word, expected) = *row;
    let text = format!(in alloc; "{front}{lines}")?;
    let Err(fault) = parse_timeline(alloc, text.as_bytes()) else {
        return Ok(false);
    };
    Ok(
        fault.kind == kind
            && fault.line == line
            && fault.misread == Some(Misread { word, expected }),
    )
}

// The lines of the first row that has another fault.
fn first_other(
    alloc: Global,
    front: &str,
    rows: &'static [Row],
) -> Result<Option<&'static str>, Fail> {
    for row in rows {
        if !is_right(alloc, front, row)? {
            return Ok(Some(row.0));
        }
    }
    Ok(None)
}

const FRONT: &str = "history 3\n0 begin delete a\n0 reply NOT_FOUND\n";

const CLAIMED: &str = "history 3\n0 begin delete a\n0 reply NOT_FOUND\nexplain\n";

#[test]
fn tells_the_fault_of_a_text(rt: HostRuntime) -> Result<(), Fail> {
    assert_eq!(rt; first_other(rt.alloc(), "", TEXTS)?, None);
    Ok(())
}

#[test]
fn tells_the_fault_of_a_note(rt: HostRuntime) -> Result<(), Fail> {
    assert_eq!(rt; first_other(rt.alloc(), FRONT, NOTES)?, None);
    Ok(())
}

#[test]
fn tells_the_fault_of_an_explanation(rt: HostRuntime) -> Result<(), Fail> {
    assert_eq!(rt; first_other(rt.alloc(), CLAIMED, CLAIMS)?, None);
    Ok(())
}

// A text of a request on each of this many keys, each answered.
fn long_text(alloc: Global, keys: usize) -> Result<String, Fail> {
    let mut text = String::from_str(alloc, "history 3\n")?;
    for key in 0..keys {
        text.push_str(format!(in alloc; "5 begin set k{key} 0 =\n5 reply STORED\n")?.as_str())?;
    }
    text.push_str("end\n")?;
    Ok(text)
}

fn fault_of_many(alloc: Global, keys: usize) -> Result<Option<(HistoryKind, u32)>, Fail> {
    let text = long_text(alloc, keys)?;
    Ok(match parse_timeline(alloc, text.as_bytes()) {
        Ok(_read) => None,
        Err(fault) => Some((fault.kind, fault.line)),
    })
}

#[test]
fn takes_a_thousand_keys(rt: HostRuntime) -> Result<(), Fail> {
    assert_eq!(rt; fault_of_many(rt.alloc(), 1_000)?, None);
    assert_eq!(rt; fault_of_many(rt.alloc(), 1_001)?, Some((TooMany, 2_002)));
    Ok(())
}
