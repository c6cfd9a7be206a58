//! Sections of a script, played with given replies.
ghost use Rattle.std.specs.Prelude.{◌≡◌, true, None, IfOk};
ghost use Rattle.mc_machine.specs.Machine as machines;

use crate::given::Given;
use mc_assembler::assemble;
use mc_code::{Call, Code};
use mc_machine::Machine;
use mc_protocol::{Actor, OutOfMemory, may_answer};
use mc_script::VARIABLES_LIMIT;
use mc_script_text::parse;
use mc_verify::{Checked, verify};
use std::alloc::Global;
use std::test::Fail;

/// Calls of a section, each with the index of its template and its number: those that it made, and before each the upcoming one.
#[derive(Debug, Drop)]
pub(crate) struct Calls {
    pub(crate) made: Vec<(u8, u64)>,
    pub(crate) upcoming: Vec<(u8, u64)>,
}

/// What came of a section: its calls; whether it is done; and the numbers of its first two variables.
#[derive(Debug, Drop)]
pub(crate) struct Played {
    pub(crate) calls: Calls,
    pub(crate) is_done: bool,
    pub(crate) numbers: [u64; 2],
}

/// The code of a script.
fn code(alloc: Global, script: &[u8]) -> Result<Code, Fail> {
    let script = parse(alloc, script)?;
    Ok(assemble(alloc, &script)?)
}

/// The same, which is sound.
fn checked(alloc: Global, script: &[u8]) -> Result<Checked, Fail> {
    let code = code(alloc, script)?;
    Ok(verify(alloc, code).map_err(|(refusal, _)| refusal)?)
}

/// Plays P of the code with its replies, and then a branch with its own, if P is done; else what came of P.
fn play(
    alloc: Global,
    checked: &Checked,
    prefix: &[Given],
    branch: Actor,
    replies: &[Given],
) -> Result<Played, OutOfMemory> {
    let mut p = Machine::start(checked, Actor::P, [0; VARIABLES_LIMIT]);
    let calls = follow(alloc, checked, &mut p, prefix)?;
    match branch {
        Actor::P => return Ok(seen(calls, &p, checked)),
        Actor::A | Actor::B => {}
    }
    if !p.at_halt(checked) {
        return Ok(seen(calls, &p, checked));
    }
    let mut machine = Machine::start(checked, branch, p.numbers());
    let calls = follow(alloc, checked, &mut machine, replies)?;
    Ok(seen(calls, &machine, checked))
}

/// Gives the section's calls these replies in turn, until there is no call or the reply doesn't fit it. The call after the last
/// reply is made, too.
fn follow(
    alloc: Global,
    checked: &Checked,
    machine: &mut Machine,
    replies: &[Given],
) -> Result<Calls, OutOfMemory>
    requires stands { machines.Stands checked.now.code machine.old }
    requires idle { machines.outstanding_of machine.old ≡ None }
    ensures stands { machines.Stands checked.now.code machine.new }
    ensures actor { machines.actor_of machine.new ≡ machines.actor_of machine.old }
{
    let mut calls = Calls {
        made: Vec::new(alloc),
        upcoming: Vec::new(alloc),
    };
    'replies: for given in replies {
        if !exchange(alloc, checked, machine, *given, &mut calls)? {
            return Ok(calls);
        }
    }
    make_call(checked, machine, &mut calls)?;
    Ok(calls)
}

/// Makes the next call, if there is one, and adds it to the calls.
fn make_call(
    checked: &Checked,
    machine: &mut Machine,
    calls: &mut Calls,
) -> Result<Option<Call>, OutOfMemory>
    requires stands { machines.Stands checked.now.code machine.old }
    requires idle { machines.outstanding_of machine.old ≡ None }
    ensures stands { machines.Stands checked.now.code machine.new }
    ensures actor { machines.actor_of machine.new ≡ machines.actor_of machine.old }
    ensures made { IfOk result (λ made. machines.outstanding_of machine.new ≡ made) }
{
    if let Some(call) = machine.upcoming(checked) {
        calls.upcoming.push((call.template, call.number))?;
    }
    let made = machine.next(checked);
    if let Some(call) = made {
        calls.made.push((call.template, call.number))?;
    }
    Ok(made)
}

/// Makes the next call and answers it. False where there is no call, or where the reply doesn't fit it.
fn exchange(
    alloc: Global,
    checked: &Checked,
    machine: &mut Machine,
    given: Given,
    calls: &mut Calls,
) -> Result<bool, OutOfMemory>
    requires stands { machines.Stands checked.now.code machine.old }
    requires idle { machines.outstanding_of machine.old ≡ None }
    ensures stands { machines.Stands checked.now.code machine.new }
    ensures actor { machines.actor_of machine.new ≡ machines.actor_of machine.old }
    ensures idle { IfOk result (λ is_answered. is_answered ≡ true → machines.outstanding_of machine.new ≡ None) }
{
    let Some(call) = make_call(checked, machine, calls)? else {
        return Ok(false);
    };
    let reply = given.reply(alloc);
    if !may_answer(checked.code().template(call.template).verb, &reply) {
        return Ok(false);
    }
    machine.answer(checked, &reply);
    Ok(true)
}

fn seen(calls: Calls, machine: &Machine, checked: &Checked) -> Played
    requires { machines.Stands checked.now.code machine.now }
{
    let numbers = machine.numbers();
    Played {
        calls,
        is_done: machine.at_halt(checked),
        numbers: [numbers[0], numbers[1]],
    }
}

/// The replies of P, the section that is looked at, its replies, and what comes of it: its calls, whether it is done, and the
/// numbers of the first two variables.
pub(crate) type Row = (
    &'static [Given],
    Actor,
    &'static [Given],
    &'static [(u8, u64)],
    bool,
    [u64; 2],
);

/// Whether the row says what came of its section.
fn is_of(played: &Played, row: &Row) -> bool {
    let (_, _, _, calls, is_done, numbers) = *row;
    played.calls.made.as_slice() == calls
        && played.calls.upcoming.as_slice() == calls
        && played.is_done == is_done
        && played.numbers == numbers
}

fn is_met(alloc: Global, checked: &Checked, row: &Row) -> Result<bool, OutOfMemory> {
    let (prefix, section, replies, _, _, _) = *row;
    let played = play(alloc, checked, prefix, section, replies)?;
    Ok(is_of(&played, row))
}

fn first_odd_in(
    alloc: Global,
    checked: &Checked,
    rows: &[Row],
) -> Result<Option<usize>, OutOfMemory> {
    for (index, row) in rows.iter().enumerate() {
        if !is_met(alloc, checked, row)? {
            return Ok(Some(index));
        }
    }
    Ok(None)
}

/// The index of the first row that the script's sections don't meet.
pub(crate) fn first_odd(alloc: Global, script: &[u8], rows: &[Row]) -> Result<Option<usize>, Fail> {
    let checked = checked(alloc, script)?;
    Ok(first_odd_in(alloc, &checked, rows)?)
}
