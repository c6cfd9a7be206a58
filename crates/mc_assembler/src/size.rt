//! How many templates and instructions a script needs, and whether those are too many.
ghost use Rattle.std.specs.Prelude.{◌≡◌, ◌≢◌, ◌+◌, ◌*◌, ◌≤◌, length, IfErr, OnOk};
ghost use Rattle.mc_protocol.specs.declared.actor.Actor as actor;
ghost use Rattle.mc_assembler.specs.Layout as layout;
ghost use Rattle.mc_assembler.specs.ScriptRuns as runs;
ghost use Rattle.mc_assembler.specs.Assembling as assembling;

use crate::AsmFault;
use mc_code::{INSTRUCTIONS_LIMIT, TEMPLATES_LIMIT};
use mc_protocol::{Actor, Bytes, KEYS_LIMIT};
use mc_script::{STEPS_LIMIT, Script, Step};

/// How many instructions a step needs: two if it is a request that binds a variable, and otherwise one.
pub(crate) fn size_of(step: &Step) -> u8
    ensures size { result ≡ layout.size_of step.now }
    ensures few { result ≤ 2 }
{
    match step {
        Step::Send { bind: Some(_), .. } => 2,
        _ => 1,
    }
}

/// How many templates a step needs: one if it is a request.
pub(crate) fn request_count_of(step: &Step) -> u8
    ensures count { result ≡ length (layout.request_of step.now) }
    ensures few { result ≤ 1 }
{
    match step {
        Step::Send { .. } => 1,
        _ => 0,
    }
}

/// The keys that a section deletes before its steps: P deletes each of them.
pub(crate) fn cleared_keys(script: &Script, actor: Actor) -> &[Bytes]
    ensures { result.now ≡ assembling.cleared_keys script.now actor }
{
    match actor {
        Actor::P => script.keys(),
        _ => &[],
    }
}

/// How many templates a section needs: one for each key that it deletes, and one for each request of its steps.
#[tactic(auto, using(crate::proofs::Fronts::request_count_is, crate::proofs::Bounds::few_keys, crate::proofs::Bounds::few_steps))]
pub(crate) fn request_count(script: &Script, actor: Actor) -> usize
    ensures few { result ≤ KEYS_LIMIT + STEPS_LIMIT }
    ensures count { result ≡ length (layout.requests_of (runs.all_steps script.now actor)) }
{
    cleared_keys(script, actor).len() + request_count_in(script.steps(actor))
}

/// How many instructions a section needs, with the halt that ends it.
#[tactic(auto, using(crate::proofs::Fronts::all_size))]
pub(crate) fn instruction_count(script: &Script, actor: Actor) -> usize
    ensures { result ≡ layout.instruction_count script.now actor }
{
    cleared_keys(script, actor).len() + size_of_all(script.steps(actor)) + 1
}

/// How many templates these steps need.
fn request_count_in(steps: &[Step]) -> usize
    ensures count { result ≡ length (layout.requests_of steps.now) }
    ensures few { result ≤ length steps.now }
{
    let mut count = 0;
    'steps: for step in steps {
        count += usize::from(request_count_of(step));
    }
    count
}

/// How many instructions these steps need.
fn size_of_all(steps: &[Step]) -> usize
    ensures size { result ≡ layout.size_of_all steps.now }
    ensures few { result ≤ 2 * length steps.now }
{
    let mut size = 0;
    'steps: for step in steps {
        size += usize::from(size_of(step));
    }
    size
}

/// Checks that the script doesn't need too many templates, and then that no section needs too many instructions.
pub(crate) fn check_limits(script: &Script) -> Result<(), AsmFault>
    ensures templates { OnOk result (layout.template_count script.now ≤ TEMPLATES_LIMIT) }
    ensures instructions { OnOk result ((actor : actor.Actor) → layout.instruction_count script.now actor ≤ INSTRUCTIONS_LIMIT) }
    ensures exceeded { IfErr result (layout.IsExceeded script.now) }
    ensures first { IfErr result (layout.IsFirst script.now) }
    ensures memory { IfErr result (λ fault. fault ≢ AsmFault.OutOfMemory) }
{
    let templates = request_count(script, Actor::P)
        + request_count(script, Actor::A)
        + request_count(script, Actor::B);
    if templates > TEMPLATES_LIMIT {
        return Err(AsmFault::TooManyTemplates);
    }
    check_section(script, Actor::P)?;
    check_section(script, Actor::A)?;
    check_section(script, Actor::B)
}

/// Checks that the section doesn't need too many instructions.
fn check_section(script: &Script, actor: Actor) -> Result<(), AsmFault>
    ensures few { OnOk result (layout.instruction_count script.now actor ≤ INSTRUCTIONS_LIMIT) }
    ensures exceeded { IfErr result (layout.IsExceeded script.now) }
    ensures named { IfErr result (λ fault. fault ≡ AsmFault.TooManyInstructions actor) }
{
    if instruction_count(script, actor) > INSTRUCTIONS_LIMIT {
        return Err(AsmFault::TooManyInstructions(actor));
    }
    Ok(())
}
