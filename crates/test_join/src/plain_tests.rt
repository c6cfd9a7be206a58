//! Reports as text.

use mc_join::{Finding, Joined, join};
use mc_protocol::OutOfMemory;
use std::alloc::Global;
use std::test::Fail;

// Reports, the whole, and what is found.
type Row = (&'static str, &'static str, Finding);

static ROWS: [Row; 6] = [
    (
        "7 explained\njobs 1 explained 1 unexplained 0 other 0\n",
        "7 explained\njobs 1 explained 1 unexplained 0 other 0\n",
        Finding::Explained,
    ),
    // Parts in another order; blank lines, comments and a missing LF.
    (
        "# second\n2 explained\n3 explained\njobs 2 explained 2 unexplained 0 other 0\n\n\
         0 explained\r\n1 explained A ReadFailed\njobs 2 explained 2 unexplained 0 other 0",
        "0 explained\n1 explained A ReadFailed\n2 explained\n3 explained\n\
         jobs 4 explained 4 unexplained 0 other 0\n",
        Finding::Other,
    ),
    // Each outcome; the greatest number.
    (
        "18446744073709551612 no connection B\n18446744073709551613 not run\n\
         jobs 2 explained 0 unexplained 0 other 2\n\
         18446744073709551614 not made\n18446744073709551615 undecided P Ended B TooMuch\n\
         jobs 2 explained 0 unexplained 0 other 2\n",
        "18446744073709551612 no connection B\n18446744073709551613 not run\n\
         18446744073709551614 not made\n18446744073709551615 undecided P Ended B TooMuch\n\
         jobs 4 explained 0 unexplained 0 other 4\n",
        Finding::Other,
    ),
    // A reply that is none speaks against the server.
    (
        "0 explained A BadReply\njobs 1 explained 1 unexplained 0 other 0\n\
         1 undecided\njobs 1 explained 0 unexplained 0 other 1\n",
        "0 explained A BadReply\n1 undecided\njobs 2 explained 1 unexplained 0 other 1\n",
        Finding::Unexplained,
    ),
    // The script of the first part that has one.
    (
        "1 unexplained\njobs 1 explained 0 unexplained 1 other 0\nshrunk\nscript 1\nkeys b\nend\n\
         0 unexplained\njobs 1 explained 0 unexplained 1 other 0\nshrunk\nscript 1\nkeys a\nend\n",
        "0 unexplained\n1 unexplained\njobs 2 explained 0 unexplained 2 other 0\nshrunk\nscript 1\nkeys a\nend\n",
        Finding::Unexplained,
    ),
    // What is shown, in the order of the jobs.
    (
        "2 unexplained\njobs 1 explained 0 unexplained 1 other 0\n\
         job 2\nwhy\nundecided at line 2\nend\nhistory 2\nA begin get a\nend\n\
         0 explained\n1 unexplained\njobs 2 explained 1 unexplained 1 other 0\n\
         shrunk\nkeys a\nend\njob 1\nhistory 2\nend\n",
        "0 explained\n1 unexplained\n2 unexplained\njobs 3 explained 1 unexplained 2 other 0\n\
         shrunk\nkeys a\nend\njob 1\nhistory 2\nend\n\
         job 2\nwhy\nundecided at line 2\nend\nhistory 2\nA begin get a\nend\n",
        Finding::Unexplained,
    ),
];

fn is_joined(alloc: Global, row: &Row) -> Result<bool, OutOfMemory> {
    let (text, whole, found) = row;
    match join(alloc, text.as_bytes())? {
        Joined::Whole(report, finding) => {
            Ok(report.as_slice() == whole.as_bytes() && finding == *found)
        }
        Joined::Refused(_) => Ok(false),
    }
}

// The index of the first row that is joined otherwise.
fn first_other(alloc: Global) -> Result<Option<usize>, OutOfMemory> {
    'rows: for (index, row) in ROWS.iter().enumerate() {
        if !is_joined(alloc, row)? {
            return Ok(Some(index));
        }
    }
    Ok(None)
}

#[test]
fn joins_text(rt: HostRuntime) -> Result<(), Fail> {
    assert!(rt; first_other(rt.alloc())?.is_none());
    Ok(())
}

// A part of one job that is shown.
fn shown_part(alloc: Global, job: u32) -> Result<String, OutOfMemory> {
    format!(in alloc;
        "{job} unexplained\njobs 1 explained 0 unexplained 1 other 0\njob {job}\nhistory 2\nend\n"
    )
}

// The report of as many such parts, the last of them first.
fn shown_whole(alloc: Global, parts: u32) -> Result<Joined, OutOfMemory> {
    let mut text = String::new(alloc);
    'parts: for job in (0..parts).rev() {
        text.push_str(shown_part(alloc, job)?.as_str())?;
    }
    join(alloc, text.as_bytes())
}

#[test]
fn shows_ten_jobs(rt: HostRuntime) -> Result<(), Fail> {
    let shown = match shown_whole(rt.alloc(), 12)? {
        Joined::Whole(report, _) => {
            report.as_slice().ends_with(b"job 9\nhistory 2\nend\n")
                && report
                    .as_slice()
                    .starts_with(b"0 unexplained\n1 unexplained\n")
        }
        Joined::Refused(_) => false,
    };
    assert!(rt; shown);
    Ok(())
}
