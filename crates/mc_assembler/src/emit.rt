//! The instructions of a section.
ghost use Rattle.std.specs.Prelude.{◌≡◌, ◌+◌, ◌++◌, ◌<◌, [], ◌∷◌, None, ◌≤◌, length, OnOk};
ghost use Rattle.mc_assembler.specs.Layout as layout;
ghost use Rattle.mc_assembler.specs.ScriptRuns as runs;
ghost use Rattle.mc_assembler.specs.Assembling as spec;

use crate::places::Places;
use crate::size::request_count_of;
use mc_code::{CLASS_COUNT, Instr, NO_ENTRY, TEMPLATES_LIMIT};
use mc_protocol::{Bytes, Class, OutOfMemory, Verb, legal};
use mc_script::{STEPS_LIMIT, Step};

/// Where a reply leads if no jump is made on its class.
#[derive(Clone, Copy)]
pub(crate) struct Onward {
    /// Where a hit or a number leads.
    pub(crate) number: u8,
    /// Where any other reply leads.
    pub(crate) other: u8,
}

/// Appends a delete of each key. The delete's place, and the index of its template, are the index of the key.
pub(crate) fn add_clearing(
    places: &Places,
    keys: &[Bytes],
    out: &mut Vec<Instr>,
) -> Result<(), OutOfMemory>
    requires { length keys.now ≤ TEMPLATES_LIMIT }
    ensures { OnOk result (out.new.items ≡ out.old.items ++ spec.clearing_code places.now.labels 0 keys.now) }
{
    'keys: for key in 0..keys.len() as u8 {
        out.push(clearing_send(places, key))?;
    }
    Ok(())
}

/// A delete of the key with this index. Each of its replies leads to the next instruction.
fn clearing_send(places: &Places, key: u8) -> Instr
    requires { key < TEMPLATES_LIMIT }
    ensures { result ≡ spec.clearing_send places.now.labels key }
{
    let onward = Onward {
        number: key + 1,
        other: key + 1,
    };
    Instr::Send {
        template: key,
        next: entries(places, Verb::Delete, &[], onward),
    }
}

/// Appends the instructions of a section's steps, and a halt after them. The first template of the steps has the index
/// `first`.
pub(crate) fn add_steps(
    places: &Places,
    first: u8,
    steps: &[Step],
    out: &mut Vec<Instr>,
) -> Result<(), OutOfMemory>
    requires templates { first + length (layout.requests_of steps.now) ≤ TEMPLATES_LIMIT }
    requires few { length steps.now ≤ STEPS_LIMIT }
    ensures { OnOk result (out.new.items ≡ out.old.items ++ spec.instructions_from places.now first 0 steps.now) }
{
    let mut template = first;
    'steps: for (index, step) in steps.iter().enumerate() {
        add_step(places, template, index, step, out)?;
        template += request_count_of(step);
    }
    out.push(Instr::Halt)?;
    Ok(())
}

/// Appends the instructions of the step with this index. If it is a request, `template` is the index of its template.
fn add_step(
    places: &Places,
    template: u8,
    index: usize,
    step: &Step,
    out: &mut Vec<Instr>,
) -> Result<(), OutOfMemory>
    requires { index < STEPS_LIMIT }
    ensures { OnOk result (out.new.items ≡ out.old.items ++ spec.instructions_for places.now template index step.now) }
{
    match step {
        Step::Send {
            template: request,
            jumps,
            bind,
        } => {
            let onward = onward_from(places, index, *bind);
            let next = entries(places, request.verb, jumps.as_slice(), onward);
            out.push(Instr::Send { template, next })?;
            if let Some(variable) = bind {
                out.push(Instr::Bind(*variable))?;
            }
        }
        Step::Bind(variable) => out.push(Instr::Bind(*variable))?,
        Step::Goto(label) => out.push(Instr::Goto(places.of_label(*label)))?,
        Step::Halt => out.push(Instr::Halt)?,
    }
    Ok(())
}

/// Where a reply to the request at this index leads if no jump is made on its class.
fn onward_from(places: &Places, index: usize, bind: Option<u8>) -> Onward
    requires { index < STEPS_LIMIT }
    ensures { result ≡ spec.onward_from places.now.steps index bind }
{
    let other = places.of_step(index + 1);
    let number = match bind {
        Some(_) => places.of_step(index) + 1,
        None => other,
    };
    Onward { number, other }
}

/// Where a reply of each class leads, in the order of the classes.
#[tactic(auto, unfolding(crate::specs::Assembling::legal_entries))]
fn entries(
    places: &Places,
    verb: Verb,
    jumps: &[(Class, usize)],
    onward: Onward,
) -> [u8; CLASS_COUNT]
    ensures { result ≡ spec.legal_entries places.now.labels verb jumps.now onward }
{
    [
        entry(places, verb, jumps, onward, Class::Stored),
        entry(places, verb, jumps, onward, Class::NotStored),
        entry(places, verb, jumps, onward, Class::Exists),
        entry(places, verb, jumps, onward, Class::NotFound),
        entry(places, verb, jumps, onward, Class::Hit),
        entry(places, verb, jumps, onward, Class::Miss),
        entry(places, verb, jumps, onward, Class::Deleted),
        entry(places, verb, jumps, onward, Class::Touched),
        entry(places, verb, jumps, onward, Class::Number),
        entry(places, verb, jumps, onward, Class::NotNumber),
    ]
}

/// Where a reply of the class leads; `NO_ENTRY` if the verb has no such reply.
fn entry(places: &Places, verb: Verb, jumps: &[(Class, usize)], onward: Onward, class: Class) -> u8
    ensures { result ≡ spec.legal_entry places.now.labels verb jumps.now onward class }
{
    if !legal(verb, class) {
        return NO_ENTRY;
    }
    match jump_on(class, jumps) {
        Some(label) => places.of_label(label),
        None => place_onward(onward, class),
    }
}

/// Where a reply of the class leads if no jump is made on it.
fn place_onward(onward: Onward, class: Class) -> u8
    ensures { result ≡ spec.entry_by [] onward class None }
{
    match class {
        Class::Hit | Class::Number => onward.number,
        _ => onward.other,
    }
}

/// The label to which a reply of the class jumps, if it does.
fn jump_on(class: Class, jumps: &[(Class, usize)]) -> Option<usize>
    ensures { result ≡ runs.jump_on class jumps.now }
{
    'jumps: for (other, label) in jumps {
        if *other == class {
            return Some(*label);
        }
    }
    None
}
