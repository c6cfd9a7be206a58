//! The lines of a script's steps.

use crate::memory::again;
use mc_protocol::Actor;
use mc_script_text::parse_lines;
use std::alloc::Global;
use std::test::Fail;

// Its third line is the first that counts; labels are no steps, and A has none.
static TEXT: &str = "# two comments
# above
script 1
keys a b
vars v
budget P 4 200
budget A 2 100
budget B 2 100
P
set a 0 =5

start:
gets a >v
halt
A
# nothing
B
incr a 1
end
";

// The numbers of the lines of its steps.
static LINES: [(Actor, &[u32]); 3] = [
    (Actor::P, &[10, 13, 14]),
    (Actor::A, &[]),
    (Actor::B, &[18]),
];

fn are_lines(alloc: Global, actor: Actor, wanted: &[u32]) -> Result<bool, Fail> {
    let (script, lines) = again(|| parse_lines(alloc, TEXT.as_bytes()))?;
    Ok(lines.of(actor) == wanted && script.steps(actor).len() == wanted.len())
}

#[test]
fn numbers_the_lines_of_steps(rt: HostRuntime) -> Result<(), Fail> {
    for (actor, wanted) in &LINES {
        assert!(rt; are_lines(rt.alloc(), *actor, *wanted)?, "{actor:?}");
    }
    Ok(())
}
