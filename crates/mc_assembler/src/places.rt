//! Where the code of each step and of each label begins.
ghost use Rattle.std.specs.Prelude.{◌≡◌, ◌+◌, ◌<◌, IfOk};
ghost use Rattle.std.specs.List.{All};
ghost use Rattle.mc_assembler.specs.Layout as layout;
ghost use Rattle.mc_assembler.specs.Assembling as spec;

use crate::size::size_of;
use mc_code::INSTRUCTIONS_LIMIT;
use mc_protocol::OutOfMemory;
use mc_script::{Label, Step};
use std::alloc::Global;
use std::marker::Model;

/// The places of a section: where the code of each step begins, where the section ends, and where the code after each
/// label begins.
#[derive(Drop)]
pub(crate) struct Places {
    steps: Vec<u8>,
    labels: Vec<u8>,
}

impl Model for Places {
    ghost use Rattle.std.specs.Prelude.{◌<◌};
    ghost use Rattle.std.specs.List.{All};
    ghost use Rattle.mc_code.specs.declared.limits.TheConstants.{INSTRUCTIONS_LIMIT};
    ghost use Rattle.mc_assembler.specs.Assembling as spec;

    ghost Value = { spec.Places };

    ghost view = { λ p. record { steps = p.steps.items; labels = p.labels.items } };

    ghost invariant = { λ p. All (λ place. place < INSTRUCTIONS_LIMIT) p.steps.items };
}

impl Places {
    /// The places of a section whose first step's code begins at `first`.
    pub(crate) fn new(
        alloc: Global,
        first: u8,
        steps: &[Step],
        labels: &[Label],
    ) -> Result<Self, OutOfMemory>
        requires { first + layout.size_of_all steps.now < INSTRUCTIONS_LIMIT }
        ensures { IfOk result (λ places. places ≡ spec.places_of first steps.now labels.now) }
    {
        let steps = step_places(alloc, first, steps)?;
        let labels = label_places(alloc, steps.as_slice(), labels)?;
        Ok(Places { steps, labels })
    }

    /// Where the code of the step with this index begins. The index after the last step's is that of the section's end.
    pub(crate) fn of_step(&self, index: usize) -> u8
        ensures place { result ≡ spec.place_in self.now.steps index }
        ensures below { result < INSTRUCTIONS_LIMIT }
    {
        place_in(self.steps.as_slice(), index)
    }

    /// Where the code after the label with this index begins.
    pub(crate) fn of_label(&self, index: usize) -> u8
        ensures { result ≡ spec.place_in self.now.labels index }
    {
        place_in(self.labels.as_slice(), index)
    }
}

/// The place with this index, or 0 if there is none.
fn place_in(places: &[u8], index: usize) -> u8
    ensures { result ≡ spec.place_in places.now index }
{
    places.get(index).copied().unwrap_or(0)
}

/// Where the code of each step begins, and then where the section ends.
fn step_places(alloc: Global, first: u8, steps: &[Step]) -> Result<Vec<u8>, OutOfMemory>
    requires { first + layout.size_of_all steps.now < INSTRUCTIONS_LIMIT }
    ensures places { IfOk result (λ places. places.items ≡ spec.places_from first steps.now) }
    ensures below { IfOk result (λ places. All (λ place. place < INSTRUCTIONS_LIMIT) places.items) }
{
    let mut places = Vec::new(alloc);
    let mut place = first;
    'steps: for step in steps {
        places.push(place)?;
        place += size_of(step);
    }
    places.push(place)?;
    Ok(places)
}

/// Where the code after each label begins. `places` are those of the steps.
fn label_places(alloc: Global, places: &[u8], labels: &[Label]) -> Result<Vec<u8>, OutOfMemory>
    ensures { IfOk result (λ found. found.items ≡ spec.label_places places.now labels.now) }
{
    let mut found = Vec::new(alloc);
    'labels: for label in labels {
        found.push(place_in(places, label.place))?;
    }
    Ok(found)
}
