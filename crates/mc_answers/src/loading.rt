//! Reading code: a script's, which is assembled, or an image's; and whether it is sound.
ghost use Rattle.std.specs.Prelude.{◌≡◌, ◌≢◌, IfErr, IfOk};
ghost use Rattle.mc_script_text.specs.declared.fault.ScriptKind.TheVariants as script_kind;
ghost use Rattle.mc_verify.specs.Refusals.{IsRightRefusal};
ghost use Rattle.mc_sound.specs.Faults.{IsSound};
ghost use Rattle.mc_answers.specs.Loading as loading;
ghost use Rattle.mc_answers.specs.Refusing.{IfRefused};

use crate::refusal::{Unanswered, refuse};
use mc_assembler::assemble;
use mc_code::Code;
use mc_hints::{LoadFault, Refused};
use mc_image::decode;
use mc_protocol::fault_of_input;
use mc_script::Script;
use mc_script_text::{ScriptFault, parse, parse_front};
use mc_verify::{Checked, verify};
use std::alloc::{AllocError, Global};

// The first bytes of an image, whatever its version.
const IMAGE_START: &[u8] = b"MCR";

/// The code of an image, where the input begins as one, or else that of a script.
pub fn load(alloc: Global, input: &[u8]) -> Result<Result<Code, LoadFault>, AllocError>
    ensures { IfOk result (loading.Loads input.now) }
{
    if input.starts_with(IMAGE_START) {
        load_image(alloc, input)
    } else {
        load_script(alloc, input)
    }
}

/// The code of the script that the text spells.
pub fn load_script(alloc: Global, text: &[u8]) -> Result<Result<Code, LoadFault>, AllocError>
    ensures { IfOk result (loading.LoadsScript text.now) }
{
    match parse(alloc, text) {
        Ok(script) => assemble_script(alloc, &script),
        Err(fault) => Ok(Err(no_script(fault)?)),
    }
}

/// The code of the script that the text begins with, and how many bytes that script has; whatever follows it.
pub fn load_front(
    alloc: Global,
    text: &[u8],
) -> Result<Result<(Code, usize), LoadFault>, AllocError>
    ensures code { IfOk result (λ loaded. IfOk loaded (λ front. loading.IsFrontCode text.now front.0 front.1)) }
    ensures fault { IfOk result (λ loaded. IfErr loaded (loading.IsFrontFault text.now)) }
{
    match parse_front(alloc, text) {
        Ok((script, size)) => match assemble_script(alloc, &script)? {
            Ok(code) => Ok(Ok((code, size))),
            Err(fault) => Ok(Err(fault)),
        },
        Err(fault) => Ok(Err(no_script(fault)?)),
    }
}

// Why a text has no code that is no script.
fn no_script(script_fault: ScriptFault) -> Result<LoadFault, AllocError>
    ensures { IfOk result (λ found. (found ≡ LoadFault.NoScript script_fault) × (script_fault.kind ≢ script_kind.OutOfMemory)) }
{
    fault_of_input(script_fault.kind)?;
    Ok(LoadFault::NoScript(script_fault))
}

fn assemble_script(alloc: Global, script: &Script) -> Result<Result<Code, LoadFault>, AllocError>
    ensures code { IfOk result (λ loaded. IfOk loaded (loading.IsAssembled script.now)) }
    ensures fault { IfOk result (λ loaded. IfErr loaded (loading.IsSizeFault script.now)) }
{
    match assemble(alloc, script) {
        Ok(code) => Ok(Ok(code)),
        Err(fault) => Ok(Err(LoadFault::TooLarge(fault_of_input(fault)?))),
    }
}

fn load_image(alloc: Global, bytes: &[u8]) -> Result<Result<Code, LoadFault>, AllocError>
    ensures { IfOk result (loading.LoadsImage bytes.now) }
{
    match decode(alloc, bytes) {
        Ok(code) => Ok(Ok(code)),
        Err(fault) => {
            fault_of_input(fault.kind)?;
            Ok(Err(LoadFault::NoImage(fault)))
        }
    }
}

/// The code of the script that the text spells, if it is sound. A refusal has a hint if `why` asks for one.
pub fn load_sound(alloc: Global, why: bool, text: &[u8]) -> Result<Checked, Unanswered>
    ensures code { IfOk result (λ checked. loading.Spells text.now checked.code) }
    ensures refused { IfErr result (λ fault. IfRefused fault (loading.IsScriptRefusal why text.now)) }
{
    match load_script(alloc, text)? {
        Ok(code) => sound_code(alloc, why, text, code),
        Err(fault) => Err(refuse(alloc, why, text, Refused::NoCode(fault))),
    }
}

/// The code of this input, if it is sound. A refusal has a hint if `why` asks for one.
pub fn sound_code(alloc: Global, why: bool, input: &[u8], code: Code) -> Result<Checked, Unanswered>
    ensures sound { IfOk result (λ checked. (checked.code ≡ code) × IsSound code) }
    ensures unsound { IfErr result (λ fault. IfRefused fault (loading.SaysUnsound code why)) }
{
    match verify_code(alloc, code)? {
        Ok(checked) => Ok(checked),
        Err(refusal) => Err(refuse(alloc, why, input, Refused::Unsound(&refusal))),
    }
}

/// The code where it is sound, or its least fault.
pub fn verify_code(
    alloc: Global,
    code: Code,
) -> Result<Result<Checked, mc_verify::Refusal>, AllocError>
    ensures sound { IfOk result (λ verified. IfOk verified (λ checked. (checked.code ≡ code) × IsSound code)) }
    ensures unsound { IfOk result (λ verified. IfErr verified (IsRightRefusal code)) }
{
    match verify(alloc, code) {
        Ok(checked) => {
            // That the code is sound is what reading it tells.
            let _code = checked.code();
            Ok(Ok(checked))
        }
        Err((refusal, _)) => {
            fault_of_input(refusal.kind)?;
            Ok(Err(refusal))
        }
    }
}
