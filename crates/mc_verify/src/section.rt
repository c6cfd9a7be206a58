//! What code has, within its limits: the instructions of a section, and the keys.
ghost use Rattle.std.specs.Prelude.{◌≡◌, ◌≤◌, length};
ghost use Rattle.mc_code.specs.Code as spec;

use mc_code::{Code, INSTRUCTIONS_LIMIT, Instr, TEMPLATES_LIMIT};
use mc_protocol::{Actor, KEYS_LIMIT};

/// The instructions of a section.
pub(crate) fn instructions(code: &Code, actor: Actor) -> &[Instr]
    ensures instructions { result.now ≡ spec.instructions_in code.now actor }
    ensures few { length result.now ≤ INSTRUCTIONS_LIMIT }
{
    // Code is within its limits, as `templates` says and `section` doesn't.
    prove!(code.templates().len() <= TEMPLATES_LIMIT);
    code.section(actor)
}

/// How many keys there are.
#[tactic(auto, using(crate::proofs::Limits::few_keys))]
pub(crate) fn key_count(code: &Code) -> u8
    ensures count { result ≡ length code.now.keys }
    ensures few { result ≤ KEYS_LIMIT }
{
    code.keys().len() as u8
}
