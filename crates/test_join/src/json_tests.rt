//! Reports as JSON.

use mc_join::{Finding, Joined, join};
use mc_protocol::OutOfMemory;
use std::alloc::Global;
use std::test::Fail;

// Reports, the whole, and what is found.
type Row = (&'static str, &'static str, Finding);

static ROWS: [Row; 4] = [
    (
        "{\"totals\":{\"jobs\":2,\"explained\":2,\"unexplained\":0,\"other\":0},\"seed\":\"1\",\"from\":\"2\",\
         \"jobs\":\"2\",\"name\":null}\n\
         {\"totals\":{\"jobs\":2,\"explained\":2,\"unexplained\":0,\"other\":0},\"seed\":\"1\",\"from\":\"0\",\
         \"jobs\":\"2\",\"name\":null}\n",
        "{\"totals\":{\"jobs\":4,\"explained\":4,\"unexplained\":0,\"other\":0},\"seed\":\"1\",\"from\":\"0\",\
         \"jobs\":\"4\",\"name\":null}\n",
        Finding::Explained,
    ),
    // Lines of jobs, a name, and the script of the first part that has one. A part may have several reports, and may not say how many
    // jobs were asked for.
    (
        "{\"job\":\"3\",\"verdict\":\"unexplained\",\"history\":{\"version\":2}}\n\
         {\"totals\":{\"jobs\":2,\"explained\":1,\"unexplained\":1,\"other\":0}}\n\
         {\"totals\":{\"jobs\":1,\"explained\":1,\"unexplained\":0,\"other\":0},\"seed\":\"7\",\"from\":\"2\",\
         \"jobs\":null,\"name\":\"n\",\"shrunk\":[\"script 1\",\"end\"]}\n\
         {\"job\":\"1\",\"outcome\":\"no connection\",\"section\":\"P\"}\n\
         {\"totals\":{\"jobs\":2,\"explained\":1,\"unexplained\":0,\"other\":1},\"seed\":\"7\",\"from\":\"0\",\
         \"jobs\":\"2\",\"name\":\"n\"}",
        "{\"job\":\"1\",\"outcome\":\"no connection\",\"section\":\"P\"}\n\
         {\"job\":\"3\",\"verdict\":\"unexplained\",\"history\":{\"version\":2}}\n\
         {\"totals\":{\"jobs\":5,\"explained\":3,\"unexplained\":1,\"other\":1},\"seed\":\"7\",\"from\":\"0\",\
         \"jobs\":null,\"name\":\"n\",\"shrunk\":[\"script 1\",\"end\"]}\n",
        Finding::Unexplained,
    ),
    (
        "{\"job\":\"18446744073709551615\",\"verdict\":\"explained\",\"failed\":[{\"section\":\"A\",\"fault\":\"BadReply\"}]}\n\
         {\"totals\":{\"jobs\":1,\"explained\":1,\"unexplained\":0,\"other\":0},\"seed\":\"1\",\
         \"from\":\"18446744073709551615\",\"jobs\":\"1\",\"name\":null}\n",
        "{\"job\":\"18446744073709551615\",\"verdict\":\"explained\",\"failed\":[{\"section\":\"A\",\"fault\":\"BadReply\"}]}\n\
         {\"totals\":{\"jobs\":1,\"explained\":1,\"unexplained\":0,\"other\":0},\"seed\":\"1\",\
         \"from\":\"18446744073709551615\",\"jobs\":\"1\",\"name\":null}\n",
        Finding::Unexplained,
    ),
    (
        "{\"job\":\"0\",\"outcome\":\"not run\"}\n{\"job\":\"1\",\"outcome\":\"not made\"}\n{\"job\":\"2\",\"verdict\":\"undecided\"}\n\
         {\"totals\":{\"jobs\":3,\"explained\":0,\"unexplained\":0,\"other\":3},\"seed\":\"1\",\"from\":\"0\",\"jobs\":\"3\",\"name\":null}\n",
        "{\"job\":\"0\",\"outcome\":\"not run\"}\n{\"job\":\"1\",\"outcome\":\"not made\"}\n{\"job\":\"2\",\"verdict\":\"undecided\"}\n\
         {\"totals\":{\"jobs\":3,\"explained\":0,\"unexplained\":0,\"other\":3},\"seed\":\"1\",\"from\":\"0\",\"jobs\":\"3\",\"name\":null}\n",
        Finding::Other,
    ),
];

fn is_joined(alloc: Global, row: &Row) -> Result<bool, OutOfMemory> {
    let (text, whole, found) = row;
    match join(alloc, text.as_bytes())? {
        Joined::Whole(report, finding) => {
            Ok(report.as_slice() == whole.as_bytes() && finding == *found)
        }
        Joined::Refused(_) => Ok(false),
    }
}

// The index of the first row that is joined otherwise.
fn first_other(alloc: Global) -> Result<Option<usize>, OutOfMemory> {
    'rows: for (index, row) in ROWS.iter().enumerate() {
        if !is_joined(alloc, row)? {
            return Ok(Some(index));
        }
    }
    Ok(None)
}

#[test]
fn joins_json(rt: HostRuntime) -> Result<(), Fail> {
    assert!(rt; first_other(rt.alloc())?.is_none());
    Ok(())
}

const SHOWN: &str = ",\"history\":{\"version\":2}}\n";

// Twelve unexplained jobs with a section that failed.
fn twelve(alloc: Global) -> Result<String, OutOfMemory> {
    let mut text = String::new(alloc);
    'jobs: for job in 0..12_u32 {
        let line = format!(in alloc;
            "{{\"job\":\"{job}\",\"verdict\":\"unexplained\",\"failed\":[{{\"section\":\"B\",\"fault\":\"Ended\"}}]{SHOWN}"
        )?;
        text.push_str(line.as_str())?;
    }
    text.push_str(
        "{\"totals\":{\"jobs\":12,\"explained\":0,\"unexplained\":12,\"other\":0},\"seed\":\"1\",\"from\":\"0\",",
    )?;
    text.push_str("\"jobs\":\"12\",\"name\":null}\n")?;
    Ok(text)
}

fn ends_short(report: &[u8]) -> bool {
    report.ends_with(
        b"\"history\":{\"version\":2}}\n\
          {\"job\":\"10\",\"verdict\":\"unexplained\",\"failed\":[{\"section\":\"B\",\"fault\":\"Ended\"}]}\n\
          {\"job\":\"11\",\"verdict\":\"unexplained\",\"failed\":[{\"section\":\"B\",\"fault\":\"Ended\"}]}\n\
          {\"totals\":{\"jobs\":12,\"explained\":0,\"unexplained\":12,\"other\":0},\"seed\":\"1\",\"from\":\"0\",\
          \"jobs\":\"12\",\"name\":null}\n",
    )
}

#[test]
fn shows_ten_jobs_in_json(rt: HostRuntime) -> Result<(), Fail> {
    let alloc = rt.alloc();
    let shown = match join(alloc, twelve(alloc)?.as_bytes())? {
        Joined::Whole(report, _) => ends_short(report.as_slice()),
        Joined::Refused(_) => false,
    };
    assert!(rt; shown);
    Ok(())
}
