//! All that is asked of code before it may run.
ghost use Rattle.std.specs.Prelude.{◌≡◌, IfErr, IfOk};
ghost use Rattle.mc_sound.specs.Checked.{IsChecked};
ghost use Rattle.mc_verify.specs.Refusals as spec;

use crate::Refusal;
use crate::cost::costs;
use crate::flags::flag_fault;
use crate::structure::structure_fault;
use crate::variables::variable_fault;
use mc_code::Code;
use mc_protocol::{OutOfMemory, Sections};
use mc_sound::{Checked, Cost};
use std::alloc::Global;

/// Finds out whether code is sound: no section can come to a number that is missing or of another kind, no request can
/// find a flag otherwise than it needs it, whichever branch goes first, and no section can send more than its budget.
///
/// # Errors
///
/// The least fault of code that isn't sound, by kind, section and place in this order, with a counterexample; or that
/// memory ran out. The code is handed back.
pub fn verify(alloc: Global, code: Code) -> Result<Checked, (Refusal, Code)>
    ensures accepted { IfOk result (λ checked. checked.code ≡ code) }
    ensures refused { IfErr result (λ refused. spec.IsRefusalOf code refused.0) }
    ensures returned { IfErr result (λ refused. refused.1 ≡ code) }
{
    match examine(alloc, &code) {
        Ok(Ok(maxima)) => Ok(Checked::new(code, maxima)),
        Ok(Err(refusal)) => Err((refusal, code)),
        Err(_) => Err((Refusal::out_of_memory(alloc), code)),
    }
}

/// The most that the sections of sound code may cost, or the refusal of other code.
fn examine(alloc: Global, code: &Code) -> Result<Result<Sections<Cost>, Refusal>, OutOfMemory>
    ensures accepted { IfOk result (λ found. IfOk found (λ maxima. IsChecked (record { code = code.now; maxima = maxima }))) }
    ensures refused { IfOk result (λ found. IfErr found (spec.IsRightRefusal code.now)) }
{
    match structure_fault(code) {
        Some(fault) => return Ok(Err(Refusal::new(fault, Vec::new(alloc)))),
        None => {}
    }
    match variable_fault(alloc, code)? {
        Some(refusal) => return Ok(Err(refusal)),
        None => {}
    }
    match flag_fault(alloc, code)? {
        Some(refusal) => return Ok(Err(refusal)),
        None => {}
    }
    costs(alloc, code)
}
