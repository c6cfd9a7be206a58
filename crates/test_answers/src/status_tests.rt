//! The status after a run, by how its sections ended and the verdict.

use crate::driven::{SCRIPT, STEPS_OF_P};
use mc_answers::run_status;
use mc_assembler::assemble;
use mc_history::parse_steps;
use mc_script_text::parse;
use mc_trial::trial;
use mc_verify::{Checked, verify};
use std::alloc::Global;
use std::test::Fail;

// Steps after P's last reply, and the status of the run that they make.
static ROWS: [(&str, u8); 6] = [
    ("A begin\nA reply NUMBER 6\nB begin\nB reply NUMBER 7\n", 0),
    ("A begin\nB begin\nA reply NUMBER 6\nB reply NUMBER 6\n", 1),
    ("A begin\nA reply NUMBER 6\nB begin\nB fail 4\n", 1),
    ("A begin\nA reply NUMBER 6\nB begin\nB fail 5\n", 4),
    ("A begin\nA fail 3\nB begin\nB fail 4\n", 1),
    ("A begin\nA reply NUMBER 6\n", 4),
];

#[test]
fn a_run_has_its_status(rt: HostRuntime) -> Result<(), Fail> {
    let checked = checked(rt.alloc())?;
    for (steps, status) in ROWS {
        assert_eq!(rt;
            status_after(rt.alloc(), &checked, steps)?,
            status,
            "{steps}"
        );
    }
    Ok(())
}

// The code of the script.
fn checked(alloc: Global) -> Result<Checked, Fail> {
    let code = assemble(alloc, &parse(alloc, SCRIPT.as_bytes())?)?;
    Ok(verify(alloc, code).map_err(|(refusal, _)| refusal)?)
}

// The status of the run that these steps make.
fn status_after(alloc: Global, checked: &Checked, branches: &str) -> Result<u8, Fail> {
    let list = format!(in alloc; "{STEPS_OF_P}{branches}end\n")?;
    let steps = parse_steps(alloc, list.as_bytes(), 1)?;
    let (world, _, verdict) = trial(alloc, checked, steps, 1_000)?;
    Ok(run_status(checked, &world, &verdict))
}
