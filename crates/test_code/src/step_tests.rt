//! To which step of a script an instruction of its code belongs.

use mc_assembler::{assemble, step_at};
use mc_protocol::Actor;
use mc_script_text::parse;
use std::alloc::Global;
use std::test::Fail;

// P begins with a delete of each key; `gets` with `>v` is two instructions.
static TEXT: &[u8] = b"script 1
keys a b
vars v
budget P 4 200
budget A 0 0
budget B 1 100
P
set a 0 =5
start:
gets a >v
halt
A
B
incr a $v
end
";

// Of each section the steps to which its instructions belong, and how many those are.
static STEPS: [(Actor, &[Option<usize>]); 3] = [
    (
        Actor::P,
        &[None, None, Some(0), Some(1), Some(1), Some(2), None],
    ),
    (Actor::A, &[None]),
    (Actor::B, &[Some(0), None]),
];

fn are_steps(alloc: Global, actor: Actor, wanted: &[Option<usize>]) -> Result<bool, Fail> {
    let script = parse(alloc, TEXT)?;
    let code = assemble(alloc, &script)?;
    let known = wanted
        .iter()
        .enumerate()
        .all(|(place, step)| step_at(&script, actor, place) == *step);
    Ok(known && code.section(actor).len() == wanted.len())
}

#[test]
fn finds_the_step_of_an_instruction(rt: HostRuntime) -> Result<(), Fail> {
    for (actor, wanted) in &STEPS {
        assert!(rt; are_steps(rt.alloc(), *actor, *wanted)?, "{actor:?}");
    }
    Ok(())
}
