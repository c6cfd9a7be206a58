//! The code of a script.
ghost use Rattle.std.specs.Prelude.{◌≡◌, ◌≤◌, IfOk, IfErr};
ghost use Rattle.mc_assembler.specs.Agreement.{Agrees};
ghost use Rattle.mc_code.specs.Code as spec;
ghost use Rattle.mc_assembler.specs.Layout as layout;

use crate::AsmFault;
use crate::emit::{add_clearing, add_steps};
use crate::places::Places;
use crate::size::{check_limits, cleared_keys, request_count};
use crate::templates::templates_of;
use mc_code::{Code, INSTRUCTIONS_LIMIT, Section, TEMPLATES_LIMIT};
use mc_protocol::{Actor, OutOfMemory, Sections};
use mc_script::{Script, copy_all};
use std::alloc::Global;

/// Assembles a script. Whatever the replies are, its code does what the script does: P first deletes each key, and then
/// each section does its steps.
///
/// A script that needs too many templates is refused. So is one with a section that needs too many instructions, and the
/// fault names the first such section.
pub fn assemble(alloc: Global, script: &Script) -> Result<Code, AsmFault>
    ensures layout { IfOk result (λ code. code ≡ layout.code_of script.now) }
    ensures kept { IfOk result spec.IsCode }
    ensures agrees { IfOk result (Agrees script.now) }
    ensures exceeded { IfErr result (layout.IsExceeded script.now) }
    ensures first { IfErr result (layout.IsFirst script.now) }
{
    check_limits(script)?;
    let keys = copy_all(alloc, script.keys())?;
    let templates = templates_of(alloc, script)?;
    let of_p = request_count(script, Actor::P);
    let of_a = request_count(script, Actor::A);
    let p = section(alloc, script, Actor::P, 0)?;
    let a = section(alloc, script, Actor::A, of_p as u8)?;
    let b = section(alloc, script, Actor::B, (of_p + of_a) as u8)?;
    let flags = script.flags().len() as u8;
    let vars = script.vars().len() as u8;
    Ok(Code::new(keys, flags, vars, templates, Sections { p, a, b }))
}

/// The code of a section. Its first template has the index `first`.
fn section(alloc: Global, script: &Script, actor: Actor, first: u8) -> Result<Section, OutOfMemory>
    requires first { first ≡ layout.first_template script.now actor }
    requires templates { layout.template_count script.now ≤ TEMPLATES_LIMIT }
    requires instructions { layout.instruction_count script.now actor ≤ INSTRUCTIONS_LIMIT }
    ensures { IfOk result (λ section. section ≡ layout.section_code script.now actor) }
{
    let keys = cleared_keys(script, actor);
    let steps = script.steps(actor);
    let count = keys.len() as u8;
    let places = Places::new(alloc, count, steps, script.labels(actor))?;
    let mut instructions = Vec::new(alloc);
    add_clearing(&places, keys, &mut instructions)?;
    add_steps(&places, first + count, steps, &mut instructions)?;
    Ok(Section {
        budget: script.budget(actor),
        instructions,
    })
}
