//! The lowest request of a section that exceeds the section's budget, by the tables of costs.
ghost use Rattle.std.specs.Prelude.{◌≡◌, ◌↔◌, ◌<◌, IfNone, IfSome, IsTrue, length};
ghost use Rattle.mc_protocol.specs.Sections as sections;
ghost use Rattle.mc_protocol.specs.declared.actor.Actor.{Actor as Section};
ghost use Rattle.mc_code.specs.Code as codes;
ghost use Rattle.mc_sound.specs.Costs.{bound_of};
ghost use Rattle.mc_flow.specs.CostTables as costs;
ghost use Rattle.mc_verify.specs.FaultGroups.{kind_of};
ghost use Rattle.mc_sound.specs.Faults as faults;
ghost use Rattle.mc_verify.specs.Lowest as lowest_faults;

use mc_code::Code;
use mc_flow::CostTables;
use mc_protocol::{Actor, Sections};
use mc_script::Budget;
use mc_sound::Measure;

/// For each section the lowest place with a request that exceeds the section's budget after some path.
#[tactic(auto, using(crate::proofs::Exceeding::found_in_sections))]
pub(crate) fn lowest_places(
    code: &Code,
    tables: &CostTables,
    measure: Measure,
) -> Sections<Option<u8>>
    requires code { codes.IsCode code.now }
    requires structured { (actor : Section) → faults.IsStructured code.now actor }
    requires tables { costs.AreCostTables code.now tables.now }
    ensures { lowest_faults.FindsLowest code.now (kind_of measure)
        (λ actor answer. answer ≡ sections.section_of result actor) }
{
    Sections {
        p: lowest(code, tables, measure, Actor::P),
        a: lowest(code, tables, measure, Actor::A),
        b: lowest(code, tables, measure, Actor::B),
    }
}

/// The lowest place of the section with a request that exceeds the section's budget after some path.
fn lowest(code: &Code, tables: &CostTables, measure: Measure, actor: Actor) -> Option<u8>
    requires code { codes.IsCode code.now }
    requires structured { (actor : Section) → faults.IsStructured code.now actor }
    requires tables { costs.AreCostTables code.now tables.now }
    ensures some { IfSome result (lowest_faults.IsLowest code.now (kind_of measure) actor) }
    ensures none { IfNone result (faults.HasNone code.now (kind_of measure) actor) }
{
    'places: for place in 0..code.section(actor).len() {
        if exceeds(code, tables, measure, actor, place) {
            return Some(place as u8);
        }
    }
    None
}

/// Whether a request at the place exceeds the section's budget after some path.
fn exceeds(code: &Code, tables: &CostTables, measure: Measure, actor: Actor, place: usize) -> bool
    requires code { codes.IsCode code.now }
    requires structured { (actor : Section) → faults.IsStructured code.now actor }
    requires tables { costs.AreCostTables code.now tables.now }
    requires place { place < length (codes.instructions_in code.now actor) }
    ensures { IsTrue result ↔ faults.IsFault code.now (kind_of measure) actor place }
{
    tables.cost_at(code, actor, place).by(measure) > bound(measure, code.budget(actor))
}

/// What the budget allows by the measure.
pub fn bound(measure: Measure, budget: Budget) -> u32
    ensures { result ≡ bound_of measure budget }
{
    match measure {
        Measure::Requests => budget.requests,
        Measure::Bytes => budget.bytes,
    }
}
