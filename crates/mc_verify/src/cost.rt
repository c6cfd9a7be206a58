//! What the sections of a code cost at most, or the least fault of their budgets.
ghost use Rattle.std.specs.Prelude.{◌≡◌, IfErr, IfOk};
ghost use Rattle.mc_protocol.specs.Sections as sections;
ghost use Rattle.mc_protocol.specs.declared.actor.Actor.{Actor as Section};
ghost use Rattle.mc_code.specs.Code as codes;
ghost use Rattle.mc_verify.specs.Refusals as refusals;
ghost use Rattle.mc_sound.specs.Costs as spec;
ghost use Rattle.mc_flow.specs.CostTables as costs;
ghost use Rattle.mc_verify.specs.{FaultGroups.IsOfBudgets, Shown.IsShownBy};
ghost use Rattle.mc_sound.specs.Faults as faults;
ghost use Rattle.mc_verify.specs.Lowest as lowest_faults;
ghost use Rattle.mc_sound.specs.LeastFaults as least_faults;

use crate::Refusal;
use crate::budgets::lowest_places;
use crate::excess_counterexample::excess_counterexample;
use crate::lowest::check_kind;
use mc_code::Code;
use mc_flow::CostTables;
use mc_protocol::{Actor, Class, OutOfMemory, Sections};
use mc_sound::{CodeFault, Cost, Measure, RefusalKind};
use std::alloc::Global;

/// What each section costs at most. The inner error is the least fault of the budgets, a section that may send more
/// requests, or more bytes, than its budget allows; with a counterexample.
pub(crate) fn costs(
    alloc: Global,
    code: &Code,
) -> Result<Result<Sections<Cost>, Refusal>, OutOfMemory>
    requires { (actor : Section) → faults.IsStructured code.now actor }
    ensures refused { IfOk result (λ answer. IfErr answer (refusals.IsRefusalFrom code.now 10)) }
    ensures none { IfOk result (λ answer. IfOk answer (λ _. least_faults.HasNoneFrom code.now 10 12)) }
    ensures requests { IfOk result (λ answer. IfOk answer (λ most. (actor : Section)
        → spec.IsGreatestCost code.now actor Measure.Requests (sections.section_of most actor).requests)) }
    ensures bytes { IfOk result (λ answer. IfOk answer (λ most. (actor : Section)
        → spec.IsGreatestCost code.now actor Measure.Bytes (sections.section_of most actor).bytes)) }
{
    let tables = CostTables::new(alloc, code)?;
    match greatest_costs(code, &tables) {
        Ok(maxima) => Ok(Ok(maxima)),
        Err(fault) => {
            let shown = budget_counterexample(alloc, code, &tables, fault)?;
            Ok(Err(Refusal::new(fault, shown)))
        }
    }
}

/// The replies of a counterexample, by the tables.
fn budget_counterexample(
    alloc: Global,
    code: &Code,
    tables: &CostTables,
    fault: CodeFault,
) -> Result<Vec<(Actor, Class)>, OutOfMemory>
    requires code { codes.IsCode code.now }
    requires structured { (actor : Section) → faults.IsStructured code.now actor }
    requires tables { costs.AreCostTables code.now tables.now }
    requires kind { IsOfBudgets fault.kind }
    requires stands { faults.IsFault code.now fault.kind fault.actor fault.place }
    ensures { IfOk result (λ replies. IsShownBy code.now fault.kind fault.actor fault.place replies.items) }
{
    let place = usize::from(fault.place);
    match fault.kind {
        RefusalKind::TooManyRequests => {
            excess_counterexample(alloc, code, tables, Measure::Requests, fault.actor, place)
        }
        _ => excess_counterexample(alloc, code, tables, Measure::Bytes, fault.actor, place),
    }
}

/// What each section costs at most, by the tables. The error is the least fault of the budgets.
fn greatest_costs(code: &Code, tables: &CostTables) -> Result<Sections<Cost>, CodeFault>
    requires code { codes.IsCode code.now }
    requires structured { (actor : Section) → faults.IsStructured code.now actor }
    requires tables { costs.AreCostTables code.now tables.now }
    ensures refused { IfErr result (least_faults.IsLeastFrom code.now 10) }
    ensures kind { IfErr result (λ fault. IsOfBudgets fault.kind) }
    ensures none { IfOk result (λ _. least_faults.HasNoneFrom code.now 10 12) }
    ensures requests { IfOk result (λ most. (actor : Section)
        → spec.IsGreatestCost code.now actor Measure.Requests (sections.section_of most actor).requests) }
    ensures bytes { IfOk result (λ most. (actor : Section)
        → spec.IsGreatestCost code.now actor Measure.Bytes (sections.section_of most actor).bytes) }
{
    check_budgets(code, tables)?;
    Ok(Sections {
        p: tables.greatest(code, Actor::P),
        a: tables.greatest(code, Actor::A),
        b: tables.greatest(code, Actor::B),
    })
}

/// The error is the least fault of the budgets.
fn check_budgets(code: &Code, tables: &CostTables) -> Result<(), CodeFault>
    requires code { codes.IsCode code.now }
    requires structured { (actor : Section) → faults.IsStructured code.now actor }
    requires tables { costs.AreCostTables code.now tables.now }
    ensures least { IfErr result (least_faults.IsLeastFrom code.now 10) }
    ensures kind { IfErr result (λ fault. IsOfBudgets fault.kind) }
    ensures none { IfOk result (λ _. lowest_faults.IsFreeOf code.now 10 12) }
{
    let places = lowest_places(code, tables, Measure::Requests);
    check_kind(
        code,
        RefusalKind::TooManyRequests,
        |_, actor|
            ensures { result ≡ sections.section_of places actor }
        { *places.get(actor) },
    )?;
    let places = lowest_places(code, tables, Measure::Bytes);
    check_kind(
        code,
        RefusalKind::TooManyBytes,
        |_, actor|
            ensures { result ≡ sections.section_of places actor }
        { *places.get(actor) },
    )
}
