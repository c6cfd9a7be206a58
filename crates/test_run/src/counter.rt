//! The script that the tests run: two increments of one counter.

use mc_assembler::assemble;
use mc_code::Code;
use mc_core::Event;
use mc_protocol::{Actor, Fault, OutOfMemory, Reply};
use mc_script_text::parse;
use mc_verify::{Checked, verify};
use std::alloc::Global;
use std::test::Fail;

/// P stores 5, and each branch adds 1.
pub(crate) const COUNTER: &[u8] = b"script 1\nkeys a\nbudget P 2 26\nbudget A 1 10\nbudget B 1 10\n\
    P\nset a 0 =5\nA\nincr a 1\nB\nincr a 1\nend\n";

/// An event of the table.
#[derive(Clone, Copy)]
pub(crate) enum Given {
    Begin,
    Stored,
    NotFound,
    Number(u64),
    Fail(Fault),
}

impl Given {
    /// The event itself.
    pub(crate) fn event(self) -> Event {
        Event::Reply(match self {
            Given::Begin => return Event::Begin,
            Given::Fail(fault) => return Event::Fail(fault),
            Given::Stored => Reply::Stored,
            Given::NotFound => Reply::NotFound,
            Given::Number(number) => Reply::Number(number),
        })
    }
}

/// The code of the script above, which is sound.
pub(crate) fn counter(alloc: Global) -> Result<Checked, Fail> {
    checked(alloc, COUNTER)
}

/// The code of a script, which is sound.
pub(crate) fn checked(alloc: Global, script: &[u8]) -> Result<Checked, Fail> {
    let code = code_of(alloc, script)?;
    Ok(verify(alloc, code).map_err(|(refusal, _)| refusal)?)
}

fn code_of(alloc: Global, script: &[u8]) -> Result<Code, Fail> {
    let script = parse(alloc, script)?;
    Ok(assemble(alloc, &script)?)
}

/// The events of a table.
pub(crate) fn events(
    alloc: Global,
    steps: &[(Actor, Given)],
) -> Result<Vec<(Actor, Event)>, OutOfMemory> {
    let mut events = Vec::new(alloc);
    'steps: for (actor, given) in steps {
        events.push((*actor, given.event()))?;
    }
    Ok(events)
}
