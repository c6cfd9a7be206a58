//! The script of a job.
ghost use Rattle.std.specs.Prelude.{◌≡◌, [], IfOk};
ghost use Rattle.mc_generate.specs.{Outputs.outputs_of, Outputs.rest, Outputs.draw, Pieces.branch_in};
ghost use Rattle.mc_generate.specs.Generated as spec;

use crate::draws::draw;
use crate::names::names_of;
use crate::piece::draw_piece;
use crate::piece_steps::{push, push_piece, push_storing, setting_flag, storing};
use mc_protocol::{OutOfMemory, REQUEST_BYTES_LIMIT, REQUESTS_LIMIT, Sections, Verb};
use mc_script::{Budget, Script, Section};
use rand_pcg::Lcg64Xsh32;
use std::alloc::Global;

/// The script of a job. Its two keys have the job's number in their names, so that scripts of other jobs leave them alone.
pub fn generate_script(alloc: Global, seed: u64, job: u64) -> Result<Script, OutOfMemory>
    ensures { IfOk result (λ script. script ≡ spec.generated seed job) }
{
    let mut generator = Lcg64Xsh32::new(seed, job);
    let names = names_of(alloc, job)?;
    let p = draw_prefix(alloc, &mut generator)?;
    let a = draw_branch(alloc, &mut generator)?;
    let b = draw_branch(alloc, &mut generator)?;
    Ok(Script::new(names, Sections { p, a, b }))
}

/// P, by the generator's next outputs.
fn draw_prefix(alloc: Global, generator: &mut Lcg64Xsh32) -> Result<Section, OutOfMemory>
    ensures prefix { IfOk result (λ prefix. let outputs = outputs_of generator.old in
        let second = spec.second_in (draw 2 (rest outputs)) (rest (rest outputs)) in
        prefix ≡ spec.prefix_of (draw 100 outputs) second.0) }
    ensures rest { IfOk result (λ _. let outputs = outputs_of generator.old in
        outputs_of generator.new ≡ (spec.second_in (draw 2 (rest outputs)) (rest (rest outputs))).1) }
{
    let mut prefix = with_room(alloc, 2)?;
    let first = storing(alloc, Verb::Set, 0, draw(generator, 100))?;
    push(alloc, setting_flag(first), &mut prefix)?;
    if draw(generator, 2) == 1 {
        push_storing(alloc, Verb::Set, 1, draw(generator, 100), &mut prefix)?;
    }
    Ok(prefix)
}

/// A branch, by the generator's next outputs.
#[tactic(auto, using(crate::proofs::Drawn::branch_begun))]
fn draw_branch(alloc: Global, generator: &mut Lcg64Xsh32) -> Result<Section, OutOfMemory>
    ensures branch { IfOk result (λ branch. branch ≡ spec.branch_of (branch_in (outputs_of generator.old)).0) }
    ensures rest { IfOk result (λ _. outputs_of generator.new ≡ (branch_in (outputs_of generator.old)).1) }
{
    let count = 1 + draw(generator, 3);
    // A piece has at most two steps.
    let mut branch = with_room(alloc, 2 * count as usize)?;
    'pieces: for index in 0..count {
        let piece = draw_piece(generator);
        push_piece(alloc, index, piece, &mut branch)?;
    }
    Ok(branch)
}

/// A section that has no steps, with room for this many of them. Its budget is all that a script may allow.
fn with_room(alloc: Global, steps: usize) -> Result<Section, OutOfMemory>
    ensures { IfOk result (λ section. section ≡ record { budget = spec.budget; steps = []; labels = [] }) }
{
    Ok(Section {
        budget: Budget {
            requests: REQUESTS_LIMIT as u32,
            bytes: REQUEST_BYTES_LIMIT as u32,
        },
        steps: Vec::with_capacity(alloc, steps)?,
        labels: Vec::new(alloc),
    })
}
