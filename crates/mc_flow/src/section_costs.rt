//! What the requests of a section cost at most.
ghost use Rattle.std.specs.Prelude.{◌≡◌, ◌⊎◌, ◌↔◌, ℕ, ◌<◌, ◌≤◌, IfOk, None, length, slice_index_or};
ghost use Rattle.mc_protocol.specs.Sections as sections;
ghost use Rattle.mc_protocol.specs.declared.actor.Actor.{Actor as Section};
ghost use Rattle.mc_code.specs.Code as codes;
ghost use Rattle.mc_sound.specs.Costs as costs;
ghost use Rattle.mc_flow.specs.CostTables as tables;
ghost use Rattle.mc_sound.specs.Structure as structure;
ghost use Rattle.mc_sound.specs.declared.measure.Measure.{Measure as By};

use crate::flow::flow_table;
use crate::weights::Weights;
use mc_code::{Code, Instr};
use mc_protocol::{Actor, OutOfMemory, Sections};
use mc_sound::Cost;
use std::alloc::Global;

/// What the paths to each place of a code's sections cost at most; nothing where no path leads.
#[derive(Debug, Drop)]
pub struct CostTables {
    pub weights: Weights,
    pub sections: Sections<Vec<Option<Cost>>>,
}

impl CostTables {
    /// The tables of the code's sections.
    pub fn new(alloc: Global, code: &Code) -> Result<Self, OutOfMemory>
        requires { (actor : Section) → structure.IsStructured code.now actor }
        ensures exact { IfOk result (tables.AreCostTables code.now) }
        ensures kept { codes.IsCode code.now }
    {
        let weights = Weights::new(alloc, code)?;
        let first = Some(Cost::ZERO);
        let p = flow_table(alloc, &weights, code, Actor::P, first)?;
        let a = flow_table(alloc, &weights, code, Actor::A, first)?;
        let b = flow_table(alloc, &weights, code, Actor::B, first)?;
        let sections = Sections { p, a, b };
        Ok(CostTables { weights, sections })
    }

    /// The most that a path of the section costs, with the request to which it leads; 0 where the section sends nothing.
    pub fn greatest(&self, code: &Code, actor: Actor) -> Cost
        requires code { codes.IsCode code.now }
        requires structured { (actor : Section) → structure.IsStructured code.now actor }
        requires tables { tables.AreCostTables code.now self.now }
        ensures { (measure : By) → costs.IsGreatestCost code.now actor measure (costs.cost_by measure result) }
    {
        let mut most = Cost::ZERO;
        'places: for place in 0..code.section(actor).len() {
            most = most.max(self.cost_at(code, actor, place));
        }
        most
    }

    /// The most that a path to a request at the place costs, with the request; 0 where no path leads to a request there.
    pub fn cost_at(&self, code: &Code, actor: Actor, place: usize) -> Cost
        requires code { codes.IsCode code.now }
        requires structured { (actor : Section) → structure.IsStructured code.now actor }
        requires tables { tables.AreCostTables code.now self.now }
        requires place { place < length (codes.instructions_in code.now actor) }
        ensures { (measure : By) (cost : ℕ) → (cost ≤ costs.cost_by measure result)
            ↔ ((cost ≡ 0) ⊎ tables.IsOpened code.now actor measure place cost) }
    {
        match code.instruction(actor, place) {
            Instr::Send { template, .. } => match self.entry_at(actor, place) {
                Some(cost) => cost.plus(self.weights.of(template)),
                None => Cost::ZERO,
            },
            Instr::Bind(_) | Instr::Goto(_) | Instr::Halt => Cost::ZERO,
        }
    }

    /// The entry of the place.
    pub fn entry_at(&self, actor: Actor, place: usize) -> Option<Cost>
        requires { place < length (sections.section_of self.now.sections actor).items }
        ensures { result ≡ slice_index_or (sections.section_of self.now.sections actor).items place None }
    {
        self.sections.get(actor)[place]
    }
}
