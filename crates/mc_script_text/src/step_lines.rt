//! The lines on which the steps of a script stand.

ghost use Rattle.std.specs.Prelude.{◌≡◌, length, IfOk};
ghost use Rattle.mc_protocol.specs.Sections as sections;
ghost use Rattle.mc_script_text.specs.Reading as reading;

use crate::entry::is_label;
use crate::section_text::Numbered;
use mc_protocol::{Actor, OutOfMemory, Sections};
use std::alloc::Global;
use std::marker::Model;

/// The number of the line of each step of a script, as it was read. Contracts see a list of numbers for each section.
#[derive(Debug, Drop)]
pub struct StepLines {
    numbers: Sections<Vec<u32>>,
}

impl Model for StepLines {
    ghost use Rattle.std.specs.Prelude.{ℕ, List};
    ghost use Rattle.mc_protocol.specs.declared.sections.Sections.{Sections};

    ghost Value = { Sections (List ℕ) };

    ghost view = { λ l. record { p = l.numbers.p.items; a = l.numbers.a.items; b = l.numbers.b.items } };
}

impl StepLines {
    /// The lines of the steps among the lines of three sections.
    pub(crate) fn new(alloc: Global, bodies: &Sections<Vec<Numbered>>) -> Result<Self, OutOfMemory>
        ensures p { IfOk result (λ lines. length lines.p ≡ reading.step_total bodies.now.p.items) }
        ensures a { IfOk result (λ lines. length lines.a ≡ reading.step_total bodies.now.a.items) }
        ensures b { IfOk result (λ lines. length lines.b ≡ reading.step_total bodies.now.b.items) }
    {
        let p = lines_of(alloc, &bodies.p)?;
        let a = lines_of(alloc, &bodies.a)?;
        let b = lines_of(alloc, &bodies.b)?;
        Ok(StepLines {
            numbers: Sections { p, a, b },
        })
    }

    /// The numbers of the lines of a section's steps, in their order.
    pub fn of(&self, actor: Actor) -> &[u32]
        ensures { result.now ≡ sections.section_of self.now actor }
    {
        match actor {
            Actor::P => self.numbers.p.as_slice(),
            Actor::A => self.numbers.a.as_slice(),
            Actor::B => self.numbers.b.as_slice(),
        }
    }
}

/// The numbers of the lines that are no labels.
#[tactic(auto, unfolding(crate::specs::Reading::step_total))]
fn lines_of(alloc: Global, entries: &[Numbered]) -> Result<Vec<u32>, OutOfMemory>
    ensures { IfOk result (λ numbers. length numbers.items ≡ reading.step_total entries.now) }
{
    let mut numbers = Vec::new(alloc);
    'entries: for numbered in entries {
        if !is_label(&numbered.entry) {
            numbers.push(numbered.line)?;
        }
    }
    Ok(numbers)
}
