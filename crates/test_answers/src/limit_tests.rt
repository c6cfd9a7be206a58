//! The limit of `drive`.

use crate::driven::{SCRIPT, STEPS_OF_P};
use mc_answers::{Reader, Writer, command};
use std::alloc::{AllocError, Global};
use std::test::Fail;

// A's connection ends before its reply.
const STEPS_OF_BRANCHES: &str = "A begin
A fail 3
B begin
B reply NUMBER 6
end
";

const ANSWERED: &str = "skipped 0
P done
A failed 3 Ended
B done
explained
P 0
P 1
B 2
end
";

const UNDECIDED: &str = "skipped 0
P done
A failed 3 Ended
B done
undecided
";

// One turn for each of P's two requests. B's takes another; A's, which was never answered, is tried before it.
static ROWS: [(&str, &str); 3] = [("0", UNDECIDED), ("2", UNDECIDED), ("1000", ANSWERED)];

#[test]
fn drive_keeps_its_limit(rt: HostRuntime) -> Result<(), Fail> {
    for (limit, wanted) in ROWS {
        assert!(rt; is_answered(rt.alloc(), limit, wanted)?, "{limit}");
    }
    Ok(())
}

// Whether `drive` with this limit writes this to its output alone, and ends with status 4.
fn is_answered(alloc: Global, limit: &str, wanted: &str) -> Result<bool, AllocError> {
    let line = line_of(alloc, limit)?;
    let text = format!(in alloc; "{SCRIPT}{STEPS_OF_P}{STEPS_OF_BRANCHES}")?;
    let mut output = Vec::new(alloc);
    let mut faults = Vec::new(alloc);
    let status = command(
        alloc,
        line.as_slice(),
        &mut Reader::new(text.as_bytes()),
        &mut Writer::new(&mut output),
        &mut Writer::new(&mut faults),
    );
    Ok(status == 4 && output.as_slice() == wanted.as_bytes() && faults.is_empty())
}

// The line of `drive` with this limit.
fn line_of(alloc: Global, limit: &str) -> Result<Vec<String>, AllocError> {
    let mut line = Vec::new(alloc);
    for word in ["mcrace", "drive", "--limit", limit] {
        line.push(String::from_str(alloc, word)?)?;
    }
    Ok(line)
}
