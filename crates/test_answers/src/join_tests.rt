//! Reports joined.

use mc_answers::{Reader, Writer, command};
use std::alloc::{AllocError, Global};
use std::test::Fail;

// Reports, what is written for them, and the status.
type Row = (&'static str, &'static str, u8);

static ROWS: [Row; 4] = [
    (
        "1 explained\njobs 1 explained 1 unexplained 0 other 0\n0 explained\njobs 1 explained 1 unexplained 0 other 0\n",
        "0 explained\n1 explained\njobs 2 explained 2 unexplained 0 other 0\n",
        0,
    ),
    (
        "0 unexplained\njobs 1 explained 0 unexplained 1 other 0\n",
        "0 unexplained\njobs 1 explained 0 unexplained 1 other 0\n",
        1,
    ),
    (
        "0 not run\njobs 1 explained 0 unexplained 0 other 1\n",
        "0 not run\njobs 1 explained 0 unexplained 0 other 1\n",
        4,
    ),
    ("0 explained\n", "refused report 7 Unended line 2\n", 3),
];

fn is_answered(alloc: Global, row: &Row) -> Result<bool, AllocError> {
    let (reports, written, wanted) = row;
    let mut line = Vec::new(alloc);
    'words: for word in ["mcrace", "join"] {
        line.push(String::from_str(alloc, word)?)?;
    }
    let mut output = Vec::new(alloc);
    let mut faults = Vec::new(alloc);
    let status = command(
        alloc,
        line.as_slice(),
        &mut Reader::new(reports.as_bytes()),
        &mut Writer::new(&mut output),
        &mut Writer::new(&mut faults),
    );
    Ok(status == *wanted && output.as_slice() == written.as_bytes() && faults.is_empty())
}

// The index of the first row that is answered otherwise.
fn first_other(alloc: Global) -> Result<Option<usize>, AllocError> {
    'rows: for (index, row) in ROWS.iter().enumerate() {
        if !is_answered(alloc, row)? {
            return Ok(Some(index));
        }
    }
    Ok(None)
}

#[test]
fn joins_reports(rt: HostRuntime) -> Result<(), Fail> {
    assert_eq!(rt; first_other(rt.alloc())?, None);
    Ok(())
}
