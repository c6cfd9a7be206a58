//! Forms of texts that are short, so that each of the few allocations can be refused.

use crate::memory::again;
use mc_convert::{
    Converted, Form, campaign_json, campaign_junit, convert, convert_timeline, escaped,
    find_history, report_json,
};
use mc_protocol::OutOfMemory;
use std::alloc::Global;
use std::test::Fail;

const HISTORY: &[u8] = b"history 2\nP begin delete a\nend\n";

const REPORT: &[u8] = b"1 not run\njobs 1 explained 0 unexplained 0 other 1\n";

// Whether the history is converted into this.
fn is_written(alloc: Global, form: Form, wanted: &str) -> Result<bool, OutOfMemory> {
    match again(|| convert(alloc, HISTORY, form, None))? {
        Converted::Written(out) => Ok(out.as_slice() == wanted.as_bytes()),
        _ => Ok(false),
    }
}

#[test]
fn converts_a_short_history(rt: HostRuntime) -> Result<(), Fail> {
    assert!(rt;
        is_written(
            rt.alloc(),
            Form::Json,
            "{\"history\":{\"version\":2,\"sections\":[\"P\",\"A\",\"B\"],\
        \"notes\":[{\"section\":\"P\",\"request\":{\"verb\":\"delete\",\"key\":\"a\"}}]}}\n"
        )?
    );
    Ok(())
}

#[test]
fn converts_a_short_timeline(rt: HostRuntime) -> Result<(), Fail> {
    let alloc = rt.alloc();
    let printed = b"history 3\n7 begin delete a\nend\n";
    let json = again(|| convert_timeline(alloc, printed, Form::Json, None, printed))?;
    assert!(rt;
        json.as_slice().ends_with(
            b"\"notes\":[{\"client\":7,\"request\":{\"verb\":\"delete\",\"key\":\"a\"}}]}}\n"
        )
    );
    Ok(())
}

#[test]
fn reports_a_short_text(rt: HostRuntime) -> Result<(), Fail> {
    let alloc = rt.alloc();
    let json = again(|| report_json(alloc, b"unexplained\n"))?;
    assert!(rt; json.as_slice() == b"{\"verdict\":\"unexplained\"}\n".as_slice());
    Ok(())
}

#[test]
fn converts_a_short_report(rt: HostRuntime) -> Result<(), Fail> {
    let alloc = rt.alloc();
    let json = again(|| campaign_json(alloc, REPORT, None))?;
    assert!(rt;
        json.as_slice().starts_with(
            b"{\"job\":\"1\",\"outcome\":\"not run\"}\n{\"totals\":{\"jobs\":1,"
        )
    );
    Ok(())
}

#[test]
fn converts_a_short_report_to_junit(rt: HostRuntime) -> Result<(), Fail> {
    let alloc = rt.alloc();
    let xml = again(|| campaign_junit(alloc, REPORT))?;
    assert!(rt;
        xml.as_slice().ends_with(
            b"<error message=\"job 1 not run\"></error>\n</testcase>\n</testsuite>\n"
        )
    );
    Ok(())
}

#[test]
fn escapes_a_short_text(rt: HostRuntime) -> Result<(), Fail> {
    let alloc = rt.alloc();
    let text = again(|| escaped(alloc, b"<"))?;
    assert!(rt; text.as_str() == "&lt;");
    Ok(())
}

#[test]
fn copies_a_short_part(rt: HostRuntime) -> Result<(), Fail> {
    let alloc = rt.alloc();
    let text = again(|| find_history(b"x\nhistory 1\n", None).after_blank_lines(alloc))?;
    assert!(rt; text.as_slice() == b"\nhistory 1\n".as_slice());
    Ok(())
}
