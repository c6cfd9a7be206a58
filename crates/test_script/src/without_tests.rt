//! A script less one of its steps.

use crate::memory::again;
use crate::print_tests::MARKS_PRINTED;
use crate::printed::{is_printed_as, text_of};
use mc_protocol::{Actor, OutOfMemory};
use mc_script::{Script, without};
use mc_script_text::parse;
use std::alloc::{AllocError, Global};
use std::test::Fail;

// Each step of `MARKS_PRINTED`: the section, its place, and the number of its line.
static STEPS_OF_MARKS: [(Actor, usize, usize); 6] = [
    (Actor::P, 0, 9),
    (Actor::A, 0, 11),
    (Actor::A, 1, 12),
    (Actor::B, 0, 15),
    (Actor::B, 1, 16),
    (Actor::B, 2, 17),
];

// Labels before and between the steps, two at one place, and two at the end.
const LABELS: &str = "script 1
keys a
budget P 0 0
budget A 24 8192
budget B 0 0
P
A
first:
get a hit:second miss:third
second:
third:
get a hit:fourth miss:end
goto fourth
fourth:
get a hit:last miss:end
halt
last:
end:
B
end
";

static STEPS_OF_LABELS: [(Actor, usize, usize); 5] = [
    (Actor::A, 0, 9),
    (Actor::A, 1, 12),
    (Actor::A, 2, 13),
    (Actor::A, 3, 15),
    (Actor::A, 4, 16),
];

// The text less the line with this number, counted from 1.
fn less_line(alloc: Global, text: &str, number: usize) -> Result<String, OutOfMemory> {
    let mut rest = String::new(alloc);
    for (index, line) in text.lines().enumerate() {
        if index + 1 != number {
            rest.push_str(line)?;
            rest.push_str("\n")?;
        }
    }
    Ok(rest)
}

// What is printed of the script less this step. Nothing is where it has no such step. A call that finds no memory is made once more.
fn printed_less(
    alloc: Global,
    script: &Script,
    actor: Actor,
    step: usize,
) -> Result<Vec<u8>, Fail> {
    if script.steps(actor).len() <= step {
        return Ok(Vec::new(alloc));
    }
    let less = match without(alloc, script, actor, step) {
        Err(AllocError) => without(alloc, script, actor, step)?,
        Ok(less) => less,
    };
    text_of(alloc, &less, b"")
}

// Whether the step has the line that it is said to have.
fn leaves_line(
    alloc: Global,
    script: &Script,
    text: &str,
    row: &(Actor, usize, usize),
) -> Result<bool, Fail> {
    let (actor, step, line) = row;
    let printed = printed_less(alloc, script, *actor, *step)?;
    let wanted = less_line(alloc, text, *line)?;
    Ok(printed.as_slice() == wanted.as_bytes() && is_printed_as(alloc, &wanted, &wanted)?)
}

// The same of each of these steps.
fn each_leaves_line(
    alloc: Global,
    script: &Script,
    text: &str,
    steps: &[(Actor, usize, usize)],
) -> Result<bool, Fail> {
    for row in steps {
        if !leaves_line(alloc, script, text, row)? {
            return Ok(false);
        }
    }
    Ok(true)
}

fn leave_lines(alloc: Global, text: &str, steps: &[(Actor, usize, usize)]) -> Result<bool, Fail> {
    let script = again(|| parse(alloc, text.as_bytes()))?;
    each_leaves_line(alloc, &script, text, steps)
}

// One step, which two labels and a flag stand around: few enough allocations that each of them can be refused.
#[test]
fn leaves_the_other_lines_of_one_step(rt: HostRuntime) -> Result<(), Fail> {
    assert!(rt; leave_lines(rt.alloc(), MARKS_PRINTED, &[(Actor::A, 1, 12)])?);
    Ok(())
}

#[test]
fn leaves_the_other_lines(rt: HostRuntime) -> Result<(), Fail> {
    assert!(rt; leave_lines(rt.alloc(), MARKS_PRINTED, &STEPS_OF_MARKS)?);
    assert!(rt; leave_lines(rt.alloc(), LABELS, &STEPS_OF_LABELS)?);
    Ok(())
}
