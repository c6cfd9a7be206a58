//! To which step of a script an instruction of its code belongs.
ghost use Rattle.std.specs.Prelude.{◌≤◌, MatchOption};
ghost use Rattle.mc_assembler.specs.Layout as layout;

use crate::size::{cleared_keys, size_of};
use mc_protocol::Actor;
use mc_script::{Script, Step};

/// The step to which the instruction at this place of a section of the script's code belongs, by its index among the
/// section's steps. The deletes before P's steps belong to none, and neither does the halt after the last step.
pub fn step_at(script: &Script, actor: Actor, place: usize) -> Option<usize>
    ensures { MatchOption result (layout.IsOfNoStep script.now actor place) (λ index. layout.IsOfStep script.now actor index place) }
{
    let cleared = cleared_keys(script, actor).len();
    if place < cleared {
        return None;
    }
    step_of_code(script.steps(actor), place - cleared)
}

/// The index of the step to which the instruction at this place belongs, in the code of these steps alone.
fn step_of_code(steps: &[Step], place: usize) -> Option<usize>
    ensures { MatchOption result (layout.size_of_all steps.now ≤ place) (λ index. layout.IsWithin steps.now index place) }
{
    let mut end = 0;
    'steps: for (index, step) in steps.iter().enumerate() {
        end += usize::from(size_of(step));
        if place < end {
            return Some(index);
        }
    }
    None
}
