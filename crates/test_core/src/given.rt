//! Events as the tests' tables write them, and worlds that are led by them.

ghost use Rattle.std.specs.Prelude.{IfOk};
ghost use Rattle.mc_core.specs.Held.{IsHeldBy};

use mc_assembler::assemble;
use mc_code::Code;
use mc_core::{Ending, Event, World, drive};
use mc_protocol::{Actor, Fault, OutOfMemory, Reply};
use mc_script_text::parse;
use mc_verify::{Checked, verify};
use std::alloc::{AllocError, Global};
use std::test::Fail;

/// An event of a table.
#[derive(Clone, Copy)]
pub(crate) enum Given {
    Begin,
    Stored,
    NotFound,
    Number(u64),
    Fail(Fault),
}

/// A step of a table: a section's event.
pub(crate) type Step = (Actor, Given);

impl Given {
    pub(crate) fn event(self) -> Event {
        Event::Reply(match self {
            Given::Begin => return Event::Begin,
            Given::Fail(fault) => return Event::Fail(fault),
            Given::Stored => Reply::Stored,
            Given::NotFound => Reply::NotFound,
            Given::Number(number) => Reply::Number(number),
        })
    }
}

/// The events of a table.
fn events(alloc: Global, steps: &[Step]) -> Result<Vec<(Actor, Event)>, OutOfMemory> {
    let mut events = Vec::new(alloc);
    'steps: for (actor, given) in steps {
        events.push((*actor, given.event()))?;
    }
    Ok(events)
}

/// The world after the steps of a table, and how many of them it refused. A call that finds no memory is made once more, with events
/// that are made anew.
pub(crate) fn driven(
    alloc: Global,
    code: &Checked,
    steps: &[Step],
) -> Result<(World, u64), OutOfMemory>
    ensures held { IfOk result (λ driven. IsHeldBy code.now.code driven.0) }
{
    match drive(alloc, code, events(alloc, steps)?) {
        Err(AllocError) => drive(alloc, code, events(alloc, steps)?),
        driven => driven,
    }
}

/// How P, A and B stand.
pub(crate) fn endings(world: &World) -> [Ending; 3] {
    [
        world.ending(Actor::P),
        world.ending(Actor::A),
        world.ending(Actor::B),
    ]
}

/// The code of a script, which is sound.
pub(crate) fn checked(alloc: Global, script: &[u8]) -> Result<Checked, Fail> {
    let code = code(alloc, script)?;
    Ok(verify(alloc, code).map_err(|(refusal, _)| refusal)?)
}

fn code(alloc: Global, script: &[u8]) -> Result<Code, Fail> {
    let script = parse(alloc, script)?;
    Ok(assemble(alloc, &script)?)
}
