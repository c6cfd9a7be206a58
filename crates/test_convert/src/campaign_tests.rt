//! Campaigns in JSON and in JUnit's XML.

use mc_convert::{CampaignArguments, Converted, Form, campaign_json, campaign_junit, convert};
use mc_protocol::OutOfMemory;
use std::alloc::Global;
use std::test::Fail;

const REPORT: &str =
    "0 explained\n1 unexplained A Ended\n2 explained B BadReply\n3 no connection P\n4 not run\n5 not made\n\
    6 undecided\n7 unexplained\njobs 8 explained 2 unexplained 2 other 4\nshrunk\nscript 1\nkeys a\nend\n\
    job 1\nhistory 2\nend\njob 7\nwhy\nundecided at line 2\nend\nhistory 2\nend\n";

const LINES: &str =
    "{\"job\":\"1\",\"verdict\":\"unexplained\",\"failed\":[{\"section\":\"A\",\"fault\":\"Ended\"}],\
    \"history\":{\"version\":2,\"sections\":[\"P\",\"A\",\"B\"],\"notes\":[]}}\n\
    {\"job\":\"2\",\"verdict\":\"explained\",\"failed\":[{\"section\":\"B\",\"fault\":\"BadReply\"}]}\n\
    {\"job\":\"3\",\"outcome\":\"no connection\",\"section\":\"P\"}\n\
    {\"job\":\"4\",\"outcome\":\"not run\"}\n\
    {\"job\":\"5\",\"outcome\":\"not made\"}\n\
    {\"job\":\"6\",\"verdict\":\"undecided\"}\n\
    {\"job\":\"7\",\"verdict\":\"unexplained\",\"why\":{\"line\":2,\"undecided\":true,\"start\":[],\"order\":[],\"answers\":[]},\
    \"history\":{\"version\":2,\"sections\":[\"P\",\"A\",\"B\"],\"notes\":[]}}\n\
    {\"totals\":{\"jobs\":8,\"explained\":2,\"unexplained\":2,\"other\":4}";

const SCRIPT: &str = ",\"shrunk\":[\"script 1\",\"keys a\",\"end\"]}\n";

const ARGUMENTS: &str =
    ",\"seed\":\"18446744073709551615\",\"from\":\"0\",\"jobs\":null,\"name\":\"x\"";

const JUNIT: &str = "<?xml version=\"1.0\" encoding=\"UTF-8\"?>\n\
    <testsuite name=\"mcrace campaign\" tests=\"1\" failures=\"1\" errors=\"0\">\n\
    <testcase classname=\"mcrace.campaign\" name=\"jobs 0 to 7\">\n\
    <failure message=\"job 1 unexplained A Ended\">history 2\nend\n</failure>\n\
    <error message=\"job 2 explained B BadReply\"></error>\n\
    <error message=\"job 3 no connection P\"></error>\n\
    <error message=\"job 4 not run\"></error>\n\
    <error message=\"job 5 not made\"></error>\n\
    <error message=\"job 6 undecided\"></error>\n\
    <failure message=\"job 7 unexplained\">why\nundecided at line 2\nend\nhistory 2\nend\n</failure>\n\
    </testcase>\n</testsuite>\n";

// The texts one after the other.
fn joined(alloc: Global, parts: &[&str]) -> Result<Vec<u8>, OutOfMemory> {
    let mut text = Vec::new(alloc);
    'parts: for part in parts {
        text.extend_from_slice(part.as_bytes())?;
    }
    Ok(text)
}

fn has_arguments(alloc: Global) -> Result<bool, OutOfMemory> {
    let arguments = CampaignArguments {
        seed: u64::MAX,
        from: 0,
        jobs: None,
        name: Some("x"),
    };
    let json = campaign_json(alloc, REPORT.as_bytes(), Some(arguments))?;
    Ok(json == joined(alloc, &[LINES, ARGUMENTS, SCRIPT])?)
}

fn is_converted(alloc: Global) -> Result<bool, OutOfMemory> {
    match convert(alloc, REPORT.as_bytes(), Form::Json, None)? {
        Converted::Written(json) => Ok(json == joined(alloc, &[LINES, SCRIPT])?),
        _ => Ok(false),
    }
}

// The report of 201 jobs, of which the last is undecided.
fn long_report(alloc: Global) -> Result<Vec<u8>, OutOfMemory> {
    let mut text = Vec::new(alloc);
    'jobs: for job in 0..200u64 {
        let line = format!(in alloc; "{job} explained\n")?;
        text.extend_from_slice(line.as_bytes())?;
    }
    text.extend_from_slice(b"200 undecided\njobs 201 explained 200 unexplained 0 other 1\n")?;
    Ok(text)
}

const LONG_JUNIT: &str = "<?xml version=\"1.0\" encoding=\"UTF-8\"?>\n\
    <testsuite name=\"mcrace campaign\" tests=\"3\" failures=\"0\" errors=\"1\">\n\
    <testcase classname=\"mcrace.campaign\" name=\"jobs 0 to 99\">\n</testcase>\n\
    <testcase classname=\"mcrace.campaign\" name=\"jobs 100 to 199\">\n</testcase>\n\
    <testcase classname=\"mcrace.campaign\" name=\"jobs 200 to 200\">\n\
    <error message=\"job 200 undecided\"></error>\n</testcase>\n</testsuite>\n";

fn has_cases(alloc: Global) -> Result<bool, OutOfMemory> {
    let text = long_report(alloc)?;
    let xml = campaign_junit(alloc, text.as_slice())?;
    Ok(xml.as_slice() == LONG_JUNIT.as_bytes())
}

#[test]
fn campaigns_in_json(rt: HostRuntime) -> Result<(), Fail> {
    assert!(rt; has_arguments(rt.alloc())?);
    assert!(rt; is_converted(rt.alloc())?);
    Ok(())
}

#[test]
fn campaigns_in_junit(rt: HostRuntime) -> Result<(), Fail> {
    let xml = campaign_junit(rt.alloc(), REPORT.as_bytes())?;
    assert!(rt; xml.as_slice() == JUNIT.as_bytes());
    assert!(rt; has_cases(rt.alloc())?);
    Ok(())
}
