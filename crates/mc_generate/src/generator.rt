//! The code of generated scripts.
ghost use Rattle.std.specs.Prelude.{◌≡◌, IfErr, IfOk};
ghost use Rattle.mc_assembler.specs.Layout.{code_of};
ghost use Rattle.mc_generate.specs.{Generated.generated, Refusals.HasFault, Refusals.IsRefused, Refusals.IsTooLarge};

use crate::GenFault;
use crate::script::generate_script;
use mc_assembler::{AsmFault, assemble};
use mc_code::Code;
use mc_script::Script;
use mc_verify::{Checked, RefusalKind, verify};
use std::alloc::Global;

/// The code of a job's script.
///
/// # Errors
///
/// That memory ran out; or that the code is refused, which is so only where it exceeds a limit of the assembler or has a fault.
pub fn generate(alloc: Global, seed: u64, job: u64) -> Result<Checked, GenFault>
    ensures code { IfOk result (λ checked. checked.code ≡ code_of (generated seed job)) }
    ensures refused { IfErr result (IsRefused (generated seed job)) }
{
    let script = generate_script(alloc, seed, job)?;
    let code = assemble_script(alloc, &script)?;
    verify_code(alloc, code)
}

fn assemble_script(alloc: Global, script: &Script) -> Result<Code, GenFault>
    ensures code { IfOk result (λ code. code ≡ code_of script.now) }
    ensures refused { IfErr result (λ fault. fault ≡ GenFault.Refused → IsTooLarge script.now) }
{
    match assemble(alloc, script) {
        Ok(code) => Ok(code),
        Err(fault) => match fault {
            AsmFault::OutOfMemory => Err(GenFault::OutOfMemory),
            _ => Err(GenFault::Refused),
        },
    }
}

/// The code, if it is sound.
pub(crate) fn verify_code(alloc: Global, code: Code) -> Result<Checked, GenFault>
    ensures code { IfOk result (λ checked. checked.code ≡ code) }
    ensures refused { IfErr result (λ fault. fault ≡ GenFault.Refused → HasFault code) }
{
    match verify(alloc, code) {
        Ok(checked) => Ok(checked),
        Err((refusal, _)) => match refusal.kind {
            RefusalKind::OutOfMemory => Err(GenFault::OutOfMemory),
            _ => Err(GenFault::Refused),
        },
    }
}
