//! The faults that an instruction has by itself, whether a run reaches it or not.
ghost use Rattle.std.specs.Prelude.{◌≡◌, ◌-◌, ◌<◌, IfErr, IfNone, IfOk, IfSome, Some, length, slice_get};
ghost use Rattle.mc_protocol.specs.declared.actor.Actor as actor;
ghost use Rattle.mc_sound.specs.Faults as faults;
ghost use Rattle.mc_verify.specs.Lowest as lowest_faults;
ghost use Rattle.mc_sound.specs.LeastFaults as least_faults;
ghost use Rattle.mc_sound.specs.Structure as structure;

use crate::clearing::lowest_not_cleared;
use crate::lowest::check_kind;
use crate::section::instructions;
use crate::targets::lowest_bad_target;
use mc_code::{Code, Instr};
use mc_protocol::Actor;
use mc_sound::{CodeFault, RefusalKind};

/// The least fault of structure: a bad target, a bad index, a section without a halt at its end, or a key that P doesn't
/// clear.
pub(crate) fn structure_fault(code: &Code) -> Option<CodeFault>
    ensures found { IfSome result (least_faults.IsLeastFrom code.now 1) }
    ensures kind { IfSome result (λ fault. least_faults.kind_number fault.kind < 5) }
    ensures none { IfNone result (least_faults.HasNoneFrom code.now 1 5) }
    ensures structured { IfNone result ((actor : actor.Actor) → faults.IsStructured code.now actor) }
{
    check_structure(code).err()
}

/// The error is the least fault of structure.
fn check_structure(code: &Code) -> Result<(), CodeFault>
    ensures least { IfErr result (least_faults.IsLeastFrom code.now 1) }
    ensures kind { IfErr result (λ fault. least_faults.kind_number fault.kind < 5) }
    ensures none { IfOk result (λ _. lowest_faults.IsFreeOf code.now 1 5) }
    ensures structured { IfOk result (λ _. (actor : actor.Actor) → faults.IsStructured code.now actor) }
{
    check_kind(code, RefusalKind::BadTarget, lowest_bad_target)?;
    check_kind(code, RefusalKind::BadIndex, lowest_bad_index)?;
    check_kind(code, RefusalKind::NoHalt, end_without_halt)?;
    check_kind(code, RefusalKind::NotCleared, lowest_not_cleared)?;
    Ok(())
}

/// The lowest place of the section whose instruction names a template or a variable that isn't there.
fn lowest_bad_index(code: &Code, actor: Actor) -> Option<u8>
    ensures some { IfSome result (lowest_faults.IsLowest code.now RefusalKind.BadIndex actor) }
    ensures none { IfNone result (faults.HasNone code.now RefusalKind.BadIndex actor) }
{
    let section = instructions(code, actor);
    'places: for place in 0..section.len() as u8 {
        if has_bad_index(code, &section[usize::from(place)]) {
            return Some(place);
        }
    }
    None
}

/// Whether the instruction names a template or a variable that isn't there.
fn has_bad_index(code: &Code, instruction: &Instr) -> bool
    ensures { result ≡ structure.has_bad_index code.now (Some instruction.now) }
{
    match instruction {
        Instr::Send { template, .. } => usize::from(*template) >= code.templates().len(),
        Instr::Bind(variable) => usize::from(*variable) >= code.vars(),
        Instr::Goto(_) | Instr::Halt => false,
    }
}

/// The section's last place, or 0 if it is empty, where no halt stands there.
fn end_without_halt(code: &Code, actor: Actor) -> Option<u8>
    ensures some { IfSome result (lowest_faults.IsLowest code.now RefusalKind.NoHalt actor) }
    ensures none { IfNone result (faults.HasNone code.now RefusalKind.NoHalt actor) }
{
    let section = instructions(code, actor);
    if ends_with_halt(section) {
        None
    } else {
        Some(section.len().saturating_sub(1) as u8)
    }
}

/// Whether the last instruction is a halt.
fn ends_with_halt(section: &[Instr]) -> bool
    ensures { result ≡ structure.is_halt (slice_get section.now (length section.now - 1)) }
{
    matches!(section.last(), Some(Instr::Halt))
}
