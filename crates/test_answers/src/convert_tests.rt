//! Histories converted, and judged where they stand in a report.

use mc_answers::{Reader, Writer, command};
use std::alloc::{AllocError, Global};
use std::test::Fail;

const REPORT: &str =
    "1 unexplained\n2 unexplained\njobs 2 explained 0 unexplained 2 other 0\njob 1\nhistory 2\nP begin get a\nend\n\
    job 2\nhistory 2\nP begin delete a\nend\n";

// Words of a line, its status, and what it writes for the report.
type Row = (&'static [&'static str], u8, &'static str);

static ROWS: [Row; 4] = [
    (
        &["mcrace", "convert", "--to", "edn", "--job", "2"],
        0,
        "{:process 0, :type :invoke, :f :delete, :value [\"a\"], :index 0}\n\
         {:process 0, :type :info, :f :delete, :value [\"a\"], :index 1}\n",
    ),
    (
        &["mcrace", "convert", "--to", "json", "--job", "2"],
        0,
        "{\"job\":\"2\",\"verdict\":\"unexplained\",\"history\":{\"version\":2,\"sections\":[\"P\",\"A\",\"B\"],\
         \"notes\":[{\"section\":\"P\",\"request\":{\"verb\":\"delete\",\"key\":\"a\"}}]}}\n",
    ),
    (
        &["mcrace", "judge", "--run", "--json"],
        3,
        "{\"refused\":{\"what\":\"history\",\"code\":6,\"fault\":\"NotCleared\",\"line\":6}}\n",
    ),
    (&["mcrace", "judge", "--job", "2"], 0, "explained\nend\n"),
];

// The index of the first row that is answered otherwise.
fn first_other(alloc: Global) -> Result<Option<usize>, AllocError> {
    'rows: for (index, row) in ROWS.iter().enumerate() {
        if !is_answered(alloc, row)? {
            return Ok(Some(index));
        }
    }
    Ok(None)
}

fn is_answered(alloc: Global, row: &Row) -> Result<bool, AllocError> {
    let (words, wanted, written) = row;
    let mut line = Vec::new(alloc);
    'words: for word in *words {
        line.push(String::from_str(alloc, word)?)?;
    }
    let mut output = Vec::new(alloc);
    let mut faults = Vec::new(alloc);
    let status = command(
        alloc,
        line.as_slice(),
        &mut Reader::new(REPORT.as_bytes()),
        &mut Writer::new(&mut output),
        &mut Writer::new(&mut faults),
    );
    Ok(status == *wanted && output.as_slice() == written.as_bytes() && faults.is_empty())
}

#[test]
fn converts_a_job(rt: HostRuntime) -> Result<(), Fail> {
    assert_eq!(rt; first_other(rt.alloc())?, None);
    Ok(())
}
