//! Which scripts may run.

ghost use Rattle.std.specs.Prelude.{◌≡◌, IfOk, IfSome};
ghost use Rattle.mc_assembler.specs.Layout.{code_of};
ghost use Rattle.mc_generate.specs.Shrunk as spec;

use mc_assembler::{AsmFault, assemble};
use mc_protocol::OutOfMemory;
use mc_script::Script;
use mc_verify::{Checked, RefusalKind, verify};
use std::alloc::{AllocError, Global};

/// The code of the script, if the script is accepted: it is assembled, and its code is verified.
pub(crate) fn accepted_code(alloc: Global, script: &Script) -> Result<Option<Checked>, OutOfMemory>
    ensures accepted { IfOk result (λ found. IfSome found (λ checked. spec.IsAccepted script.now)) }
    ensures code { IfOk result (λ found. IfSome found (λ checked. checked.code ≡ code_of script.now)) }
{
    let code = match assemble(alloc, script) {
        Ok(code) => code,
        Err(AsmFault::OutOfMemory) => return Err(AllocError),
        Err(_) => return Ok(None),
    };
    match verify(alloc, code) {
        Ok(checked) => {
            // That the code is sound is what reading it tells.
            let _code = checked.code();
            Ok(Some(checked))
        }
        Err((refusal, _)) => match refusal.kind {
            RefusalKind::OutOfMemory => Err(AllocError),
            _ => Ok(None),
        },
    }
}
