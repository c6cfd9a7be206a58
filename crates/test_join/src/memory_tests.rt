//! Reports that are short, so that each of the few allocations can be refused.

use crate::memory::again;
use mc_join::{Joined, ReportFault, ReportKind, join};
use mc_protocol::OutOfMemory;
use std::alloc::Global;
use std::test::Fail;

const TEXT: &[u8] = b"1 unexplained\njobs 1 explained 0 unexplained 1 other 0\nshrunk\nend\n";

const JSON: &[u8] =
    b"{\"totals\":{\"jobs\":1,\"explained\":1,\"unexplained\":0,\"other\":0},\"seed\":\"1\",\"from\":\"0\",\"jobs\":\"1\",\"name\":\"n\"}\n";

fn is_same(alloc: Global, text: &[u8]) -> Result<bool, OutOfMemory> {
    match again(|| join(alloc, text))? {
        Joined::Whole(report, _) => Ok(report.as_slice() == text),
        Joined::Refused(_) => Ok(false),
    }
}

#[test]
fn joins_a_short_text(rt: HostRuntime) -> Result<(), Fail> {
    assert!(rt; is_same(rt.alloc(), TEXT)?);
    Ok(())
}

#[test]
fn joins_a_short_object(rt: HostRuntime) -> Result<(), Fail> {
    assert!(rt; is_same(rt.alloc(), JSON)?);
    Ok(())
}

#[test]
fn says_a_fault(rt: HostRuntime) -> Result<(), Fail> {
    let fault = ReportFault {
        kind: ReportKind::Campaign,
        line: 12,
    };
    let alloc = rt.alloc();
    let text = again(|| fault.text(alloc))?;
    assert!(rt; text.as_str() == "refused report 4 Campaign line 12\n");
    Ok(())
}
