//! The faults of variables: a number that is missing where it is sent, one of another kind, and a bind of nothing.
ghost use Rattle.std.specs.Prelude.{◌≡◌, ◌↔◌, ℕ, true, Some, slice_get, IfErr, IfNone, IfOk, IfSome};
ghost use Rattle.mc_protocol.specs.Sections as sections;
ghost use Rattle.mc_protocol.specs.declared.actor.Actor.{Actor as Section};
ghost use Rattle.mc_code.specs.Code.{instructions_in};
ghost use Rattle.mc_verify.specs.Refusals as refusals;
ghost use Rattle.mc_sound.specs.Faults as faults;
ghost use Rattle.mc_verify.specs.Lowest as lowest_faults;
ghost use Rattle.mc_sound.specs.LeastFaults as least_faults;
ghost use Rattle.mc_flow.specs.RunKinds as runs;
ghost use Rattle.mc_verify.specs.VariableFaults as variables;

use crate::Refusal;
use crate::lowest::check_kind;
use crate::section::instructions;
use crate::variable_counterexample::variable_counterexample;
use crate::wrong_number::{binds_nothing, sends_wrong_number};
use mc_code::{Code, Instr};
use mc_flow::{KindTables, all_kind_tables, declared_template};
use mc_protocol::{Actor, OutOfMemory, Sections};
use mc_sound::{CodeFault, RefusalKind};
use std::alloc::Global;

/// The least fault of variables: a request's variable that may have no number, or one of another kind than the request
/// takes, or a bind where no number may have been shown; with a counterexample. The error is that memory ran out.
pub(crate) fn variable_fault(alloc: Global, code: &Code) -> Result<Option<Refusal>, OutOfMemory>
    requires { (actor : Section) → faults.IsStructured code.now actor }
    ensures found { IfOk result (λ found. IfSome found (refusals.IsRefusalFrom code.now 5)) }
    ensures none { IfOk result (λ found. IfNone found (least_faults.HasNoneFrom code.now 5 8)) }
{
    let tables = all_kind_tables(alloc, code)?;
    match check_variables(code, &tables) {
        Ok(()) => Ok(None),
        Err(fault) => {
            let shown = variable_counterexample(alloc, code, &tables, fault)?;
            Ok(Some(Refusal::new(fault, shown)))
        }
    }
}

/// The error is the least fault of variables, by the tables of the sections.
fn check_variables(code: &Code, tables: &Sections<KindTables>) -> Result<(), CodeFault>
    requires structured { (actor : Section) → faults.IsStructured code.now actor }
    requires tables { (actor : Section) → runs.AreKindTables code.now actor (sections.section_of tables.now actor) }
    ensures least { IfErr result (least_faults.IsLeastFrom code.now 5) }
    ensures kind { IfErr result (λ fault. variables.IsOfVariables fault.kind) }
    ensures none { IfOk result (λ _. lowest_faults.IsFreeOf code.now 5 8) }
{
    check_kind(code, RefusalKind::Unbound, |_, actor| {
        lowest_fault(RefusalKind::Unbound, code, actor, tables)
    })?;
    check_kind(code, RefusalKind::WrongKind, |_, actor| {
        lowest_fault(RefusalKind::WrongKind, code, actor, tables)
    })?;
    check_kind(code, RefusalKind::NothingToBind, |_, actor| {
        lowest_fault(RefusalKind::NothingToBind, code, actor, tables)
    })
}

/// The lowest place of the section that has a fault of this kind.
fn lowest_fault(
    kind: RefusalKind,
    code: &Code,
    actor: Actor,
    tables: &Sections<KindTables>,
) -> Option<u8>
    requires kind { variables.IsOfVariables kind }
    requires structured { (actor : Section) → faults.IsStructured code.now actor }
    requires tables { (actor : Section) → runs.AreKindTables code.now actor (sections.section_of tables.now actor) }
    ensures some { IfSome result (lowest_faults.IsLowest code.now kind actor) }
    ensures none { IfNone result (faults.HasNone code.now kind actor) }
{
    let section = instructions(code, actor);
    'places: for place in 0..section.len() as u8 {
        if is_fault_at(
            kind,
            code,
            actor,
            tables.get(actor),
            usize::from(place),
            &section[usize::from(place)],
        ) {
            return Some(place);
        }
    }
    None
}

/// Whether some run comes to a fault of this kind at the instruction of the place.
fn is_fault_at(
    kind: RefusalKind,
    code: &Code,
    actor: Actor,
    tables: &KindTables,
    place: usize,
    instruction: &Instr,
) -> bool
    requires kind { variables.IsOfVariables kind }
    requires structured { faults.IsStructured code.now actor }
    requires tables { runs.AreKindTables code.now actor tables.now }
    requires at { slice_get (instructions_in code.now actor) place ≡ Some instruction.now }
    ensures { (result ≡ true) ↔ faults.IsFault code.now kind actor place }
{
    match *instruction {
        Instr::Send { template, .. } => {
            sends_wrong_number(kind, declared_template(code, template), tables, place)
        }
        Instr::Bind(variable) => binds_nothing(kind, &tables.at(usize::from(variable), place)),
        Instr::Goto(_) => false,
        Instr::Halt => false,
    }
}
