//! The templates of a script.
ghost use Rattle.std.specs.Prelude.{◌≡◌, ◌++◌, ◌≤◌, length, IfOk, OnOk};
ghost use Rattle.mc_assembler.specs.Layout as layout;
ghost use Rattle.mc_assembler.specs.ScriptRuns as runs;

use crate::size::cleared_keys;
use mc_code::TEMPLATES_LIMIT;
use mc_protocol::{Actor, Bytes, OutOfMemory, Verb};
use mc_script::{Argument, Script, Step, Template};
use std::alloc::Global;

/// The templates of a script's requests.
pub(crate) fn templates_of(alloc: Global, script: &Script) -> Result<Vec<Template>, OutOfMemory>
    requires { length script.now.names.keys ≤ TEMPLATES_LIMIT }
    ensures { IfOk result (λ templates. templates.items ≡ layout.templates_of script.now) }
{
    let mut templates = Vec::new(alloc);
    add_section(alloc, script, Actor::P, &mut templates)?;
    add_section(alloc, script, Actor::A, &mut templates)?;
    add_section(alloc, script, Actor::B, &mut templates)?;
    Ok(templates)
}

/// Appends the templates of a section.
fn add_section(
    alloc: Global,
    script: &Script,
    actor: Actor,
    out: &mut Vec<Template>,
) -> Result<(), OutOfMemory>
    requires { length script.now.names.keys ≤ TEMPLATES_LIMIT }
    ensures { OnOk result (out.new.items ≡ out.old.items ++ layout.requests_of (runs.all_steps script.now actor)) }
{
    add_clearing(alloc, cleared_keys(script, actor), out)?;
    add_requests(alloc, script.steps(actor), out)
}

/// Appends a delete of each of these keys.
fn add_clearing(alloc: Global, keys: &[Bytes], out: &mut Vec<Template>) -> Result<(), OutOfMemory>
    requires { length keys.now ≤ TEMPLATES_LIMIT }
    ensures { OnOk result (out.new.items ≡ out.old.items ++ layout.requests_of (runs.clearing_steps 0 keys.now)) }
{
    'keys: for key in 0..keys.len() as u8 {
        out.push(delete_of(alloc, key))?;
    }
    Ok(())
}

/// A delete of the key with this index. It needs no flag and changes none.
fn delete_of(alloc: Global, key: u8) -> Template
    ensures { result ≡ runs.clearing key }
{
    Template {
        verb: Verb::Delete,
        key,
        flags: 0,
        argument: Argument::Nothing,
        body: Bytes::new(Vec::new(alloc)),
        require_set: 0,
        require_clear: 0,
        sets: 0,
        clears: 0,
    }
}

/// Appends the templates of these steps.
fn add_requests(alloc: Global, steps: &[Step], out: &mut Vec<Template>) -> Result<(), OutOfMemory>
    ensures { OnOk result (out.new.items ≡ out.old.items ++ layout.requests_of steps.now) }
{
    'steps: for step in steps {
        if let Step::Send { template, .. } = step {
            out.push(template.copy(alloc)?)?;
        }
    }
    Ok(())
}
