//! Reports that make no whole.

use mc_join::{Joined, ReportFault, ReportKind, join};
use mc_protocol::OutOfMemory;
use std::alloc::Global;
use std::test::Fail;

// Reports, and how they are refused.
type Row = (&'static str, ReportKind, u32);

static TEXTS: [Row; 21] = [
    ("", ReportKind::Unended, 1),
    ("# nothing\n\n", ReportKind::Unended, 3),
    ("0 explained\n", ReportKind::Unended, 2),
    ("not run\n", ReportKind::Line, 1),
    ("0 explained\nout of memory\n", ReportKind::Line, 2),
    (
        "0 explained A\njobs 1 explained 1 unexplained 0 other 0\n",
        ReportKind::Line,
        1,
    ),
    ("0 explained C Ended\n", ReportKind::Line, 1),
    ("0 explained A Endless\n", ReportKind::Line, 1),
    ("0 no connection C\n", ReportKind::Line, 1),
    ("18446744073709551616 explained\n", ReportKind::Line, 1),
    (
        "0 explained\njobs 1 explained 1 unexplained 0\n",
        ReportKind::Line,
        2,
    ),
    (
        "0 explained\njobs 2 explained 1 unexplained 0 other 0\n",
        ReportKind::Line,
        2,
    ),
    (
        "jobs 0 explained 0 unexplained 0 other 0\n",
        ReportKind::Line,
        1,
    ),
    // A brief report.
    (
        "jobs 1 explained 1 unexplained 0 other 0\n",
        ReportKind::Totals,
        1,
    ),
    (
        "0 undecided\njobs 2 explained 1 unexplained 0 other 1\n",
        ReportKind::Totals,
        2,
    ),
    (
        "0 undecided\njobs 1 explained 1 unexplained 0 other 0\n",
        ReportKind::Totals,
        2,
    ),
    (
        "0 explained\n2 explained\njobs 2 explained 2 unexplained 0 other 0\n",
        ReportKind::Missing,
        2,
    ),
    (
        "1 explained\n1 explained\njobs 2 explained 2 unexplained 0 other 0\n",
        ReportKind::Doubled,
        2,
    ),
    (
        "2 explained\njobs 1 explained 1 unexplained 0 other 0\n0 explained\njobs 1 explained 1 unexplained 0 other 0\n",
        ReportKind::Missing,
        1,
    ),
    (
        "0 explained\njobs 1 explained 1 unexplained 0 other 0\n0 explained\njobs 1 explained 1 unexplained 0 other 0\n",
        ReportKind::Doubled,
        3,
    ),
    (
        "0 explained\njobs 1 explained 1 unexplained 0 other 0\n{\"job\":\"1\"}\n",
        ReportKind::Mixed,
        3,
    ),
];

// What may not stand after the totals.
static ENDS: [Row; 6] = [
    (
        "0 unexplained\njobs 1 explained 0 unexplained 1 other 0\nout of memory\n",
        ReportKind::Line,
        3,
    ),
    (
        "0 unexplained\njobs 1 explained 0 unexplained 1 other 0\nshrunk\nscript 1\n",
        ReportKind::Unended,
        5,
    ),
    (
        "0 unexplained\njobs 1 explained 0 unexplained 1 other 0\nshrunk\nend\nhistory 2\nend\n",
        ReportKind::Line,
        5,
    ),
    (
        "0 unexplained\njobs 1 explained 0 unexplained 1 other 0\njob 0\n1 explained\n",
        ReportKind::Unended,
        4,
    ),
    (
        "0 unexplained\njobs 1 explained 0 unexplained 1 other 0\njob x\n",
        ReportKind::Line,
        3,
    ),
    (
        "0 unexplained\njobs 1 explained 0 unexplained 1 other 0\njob 0\nhistory 2\nend\n1 explained\nshrunk\n",
        ReportKind::Line,
        7,
    ),
];

static OBJECTS: [Row; 15] = [
    ("{\n", ReportKind::Line, 1),
    ("{}\n", ReportKind::Line, 1),
    (
        "{\"job\":1,\"verdict\":\"undecided\"}\n",
        ReportKind::Line,
        1,
    ),
    (
        "{\"job\":\"1\",\"verdict\":\"explained\"}\n",
        ReportKind::Line,
        1,
    ),
    (
        "{\"job\":\"1\",\"outcome\":\"late\"}\n",
        ReportKind::Line,
        1,
    ),
    (
        "{\"job\":\"1\",\"verdict\":\"undecided\",\"failed\":{}}\n",
        ReportKind::Line,
        1,
    ),
    (
        "{\"job\":\"1\",\"verdict\":\"undecided\"}\n",
        ReportKind::Unended,
        2,
    ),
    (
        "{\"totals\":{\"jobs\":1,\"explained\":1,\"unexplained\":0,\"other\":0}}\n",
        ReportKind::Unended,
        2,
    ),
    (
        "{\"job\":\"1\",\"verdict\":\"undecided\"}\n1 undecided\n",
        ReportKind::Mixed,
        2,
    ),
    (
        "{\"totals\":{\"jobs\":1,\"explained\":1,\"unexplained\":0,\"other\":0},\"seed\":\"1\",\"from\":\"0\",\"jobs\":\"1\"}\n",
        ReportKind::Line,
        1,
    ),
    (
        "{\"totals\":{\"jobs\":1,\"explained\":1,\"unexplained\":0,\"other\":0},\"seed\":\"1\",\"from\":\"0\",\"jobs\":\"2\",\"name\":null}\n",
        ReportKind::Totals,
        1,
    ),
    (
        "{\"job\":\"0\",\"verdict\":\"undecided\"}\n\
         {\"totals\":{\"jobs\":1,\"explained\":1,\"unexplained\":0,\"other\":0},\"seed\":\"1\",\"from\":\"0\",\"jobs\":\"1\",\"name\":null}\n",
        ReportKind::Totals,
        2,
    ),
    // A job that isn't one of the part, and one that stands twice.
    (
        "{\"job\":\"1\",\"verdict\":\"undecided\"}\n\
         {\"totals\":{\"jobs\":1,\"explained\":0,\"unexplained\":0,\"other\":1},\"seed\":\"1\",\"from\":\"0\",\"jobs\":\"1\",\"name\":null}\n",
        ReportKind::Line,
        1,
    ),
    (
        "{\"job\":\"1\",\"verdict\":\"undecided\"}\n{\"job\":\"1\",\"verdict\":\"undecided\"}\n\
         {\"totals\":{\"jobs\":2,\"explained\":0,\"unexplained\":0,\"other\":2},\"seed\":\"1\",\"from\":\"0\",\"jobs\":\"2\",\"name\":null}\n",
        ReportKind::Line,
        2,
    ),
    (
        "{\"totals\":{\"jobs\":1,\"explained\":1,\"unexplained\":0,\"other\":0},\"seed\":\"1\",\"from\":\"0\",\"jobs\":\"1\",\"name\":null}\n\
         {\"totals\":{\"jobs\":1,\"explained\":1,\"unexplained\":0,\"other\":0},\"seed\":\"1\",\"from\":\"1\",\"jobs\":\"1\",\"name\":\"a\"}\n",
        ReportKind::Campaign,
        2,
    ),
];

fn is_refused(alloc: Global, row: &Row) -> Result<bool, OutOfMemory> {
    let (text, kind, line) = row;
    let wanted = ReportFault {
        kind: *kind,
        line: *line,
    };
    match join(alloc, text.as_bytes())? {
        Joined::Refused(fault) => Ok(fault == wanted),
        Joined::Whole(..) => Ok(false),
    }
}

// The index of the first row that is refused otherwise.
fn first_other(alloc: Global, rows: &[Row]) -> Result<Option<usize>, OutOfMemory> {
    'rows: for (index, row) in rows.iter().enumerate() {
        if !is_refused(alloc, row)? {
            return Ok(Some(index));
        }
    }
    Ok(None)
}

#[test]
fn refuses_text(rt: HostRuntime) -> Result<(), Fail> {
    let found = first_other(rt.alloc(), TEXTS.as_slice())?;
    assert_eq!(rt; found, None);
    Ok(())
}

#[test]
fn refuses_ends_of_text(rt: HostRuntime) -> Result<(), Fail> {
    let found = first_other(rt.alloc(), ENDS.as_slice())?;
    assert_eq!(rt; found, None);
    Ok(())
}

#[test]
fn refuses_json(rt: HostRuntime) -> Result<(), Fail> {
    let found = first_other(rt.alloc(), OBJECTS.as_slice())?;
    assert_eq!(rt; found, None);
    Ok(())
}
