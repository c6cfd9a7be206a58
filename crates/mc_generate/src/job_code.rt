//! The code of a job: that of its script, under the name of its campaign.
ghost use Rattle.std.specs.Prelude.{◌≡◌, IfErr, IfOk};
ghost use Rattle.std.specs.Option.{option_copied};
ghost use Rattle.mc_generate.specs.JobCodes as spec;
ghost use Rattle.mc_settings.specs.Namespaces.{AreShort};
ghost use Rattle.mc_generate.specs.{CodesUnder.code_under, Refusals.HasFault};

use crate::generator::{generate, verify_code};
use crate::{JobFault, PutFault, put_under};
use mc_settings::Namespace;
use mc_sound::Checked;
use std::alloc::Global;

/// The code of a job's script, put under the name where there is one.
///
/// # Errors
///
/// That memory ran out; that the script or the code is refused; or that a key becomes longer than 40 bytes.
#[tactic(auto, using(crate::proofs::JobFaults::script_fault, crate::proofs::JobFaults::named_fault))]
pub fn generate_under(
    alloc: Global,
    seed: u64,
    name: Option<&Namespace<'_>>,
    job: u64,
) -> Result<Checked, JobFault>
    ensures code { IfOk result (λ checked. checked.code ≡ spec.code_for (option_copied name.entry) seed job) }
    ensures fault { IfErr result (spec.IsJobFault (option_copied name.entry) seed job) }
{
    let checked = generate(alloc, seed, job)?;
    match name {
        Some(name) => put_checked_under(alloc, &checked, name),
        None => Ok(checked),
    }
}

// The code under the name.
fn put_checked_under(
    alloc: Global,
    checked: &Checked,
    name: &Namespace<'_>,
) -> Result<Checked, JobFault>
    ensures code { IfOk result (λ under. under.code ≡ code_under name.now checked.now.code) }
    ensures refused { IfErr result (λ fault. fault ≡ JobFault.Refused → HasFault (code_under name.now checked.now.code)) }
    ensures long { IfErr result (λ fault. fault ≡ JobFault.KeyTooLong → AreShort name.now checked.now.code.keys → ⊥) }
{
    let under = match put_under(alloc, checked.code(), name) {
        Ok(under) => under,
        Err(fault) => match fault {
            PutFault::OutOfMemory => return Err(JobFault::OutOfMemory),
            PutFault::KeyTooLong(_) => return Err(JobFault::KeyTooLong),
        },
    };
    Ok(verify_code(alloc, under)?)
}
