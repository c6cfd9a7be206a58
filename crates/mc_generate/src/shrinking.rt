//! Shrinking: from a script with an unexplained run to a smaller one.
ghost use Rattle.std.specs.Prelude.{◌≡◌, ◌≤◌, ◌<◌, ◌+◌, ◌⊎◌, None, Some, false, length, true, IfNone, IfOk, IfSome};
ghost use Rattle.mc_protocol.specs.Sections as of;
ghost use Rattle.mc_assembler.specs.Layout.{code_of};
ghost use Rattle.mc_script.specs.Script as scripts;
ghost use Rattle.mc_generate.specs.Shrunk as spec;
ghost use Rattle.mc_generate.specs.Shrinking as shrinking;

use crate::acceptance::accepted_code;
use crate::{Shrinker, Tester};
use mc_protocol::{Actor, OutOfMemory, Sections};
use mc_script::{Script, without};
use mc_sound::Checked;
use std::alloc::Global;

/// A smaller script whose run has no explanation either, as the tester says. Once from the last step to the first, of B,
/// then A, then P, one step is dropped, and the smaller script is kept where it is accepted and the tester answers true.
///
/// The tester is asked at most `rounds` times, and of accepted scripts alone.
///
/// # Errors
///
/// Memory ran out, here or in the tester.
pub fn shrink<T: Tester>(
    alloc: Global,
    script: Script,
    tester: &mut T,
    rounds: u32,
) -> Result<Script, OutOfMemory>
    ensures less { IfOk result (spec.IsLess script) }
    ensures accepted { IfOk result (λ less. (less ≡ script) ⊎ spec.IsAccepted less) }
{
    let mut shrinker = Shrinker::new(script, rounds);
    'rounds: while let Some(checked) = shrinker.next(alloc)? {
        shrinker.answer(tester.unexplained(&checked)?);
    }
    Ok(shrinker.into_script())
}

impl Shrinker {
    /// This script, of which nothing was dropped yet. Codes are given at most `rounds` times.
    pub fn new(script: Script, rounds: u32) -> Self
        ensures shrinking { spec.IsShrinking script result }
        ensures rounds { result.rounds ≡ rounds }
    {
        let left = Sections {
            p: script.steps(Actor::P).len(),
            a: script.steps(Actor::A).len(),
            b: script.steps(Actor::B).len(),
        };
        Shrinker {
            script,
            tried: None,
            left,
            rounds,
        }
    }

    /// The code of the next smaller script that is accepted, if there is one and a round is left. One whose code was given before and
    /// that wasn't answered is dropped.
    ///
    /// # Errors
    ///
    /// Memory ran out. The step that was to be dropped stays in the script then.
    pub fn next(&mut self, alloc: Global) -> Result<Option<Checked>, OutOfMemory>
        ensures shrinking { (first : scripts.Script) → spec.IsShrinking first self.old → spec.IsShrinking first self.new }
        ensures code { IfOk result (λ found. IfSome found (λ checked.
            (less : scripts.Script) × (self.new.tried ≡ Some less) × (checked.code ≡ code_of less))) }
        ensures rounds { IfOk result (λ found. IfSome found (λ _. self.new.rounds < self.old.rounds)) }
    {
        self.tried = None;
        if self.rounds == 0 {
            return Ok(None);
        }
        'steps: while let Some((actor, step)) = take_last(&mut self.left) {
            let less = without(alloc, &self.script, actor, step)?;
            if let Some(checked) = accepted_code(alloc, &less)? {
                self.rounds -= 1;
                self.tried = Some(less);
                return Ok(Some(checked));
            }
        }
        Ok(None)
    }

    /// Whether a run of the code that was given last has no explanation: then its script is the smallest so far.
    pub fn answer(&mut self, unexplained: bool)
        ensures shrinking { (first : scripts.Script) → spec.IsShrinking first self.old → spec.IsShrinking first self.new }
        ensures smaller { (less : scripts.Script) → unexplained ≡ true → self.old.tried ≡ Some less → self.new.script ≡ less }
        ensures same { unexplained ≡ false → self.new.script ≡ self.old.script }
        ensures rounds { self.new.rounds ≡ self.old.rounds }
    {
        if let Some(less) = self.tried.take() {
            if unexplained {
                self.script = less;
            }
        }
    }

    /// The smallest script so far.
    pub fn into_script(self) -> Script
        ensures script { result ≡ self.script }
        ensures shrunk { (first : scripts.Script) → spec.IsShrinking first self → spec.IsShrunk first result }
    {
        let Shrinker { script, .. } = self;
        script
    }
}

// The next step to be dropped, and its section: the last of B, then of A, then of P.
fn take_last(left: &mut Sections<usize>) -> Option<(Actor, usize)>
    ensures taken { IfSome result (λ taken. (of.section_of left.old taken.0 ≡ taken.1 + 1)
        × (left.new ≡ shrinking.with_count taken.0 taken.1 left.old)) }
    ensures none { IfNone result (left.new ≡ left.old) }
{
    if left.b > 0 {
        left.b -= 1;
        return Some((Actor::B, left.b));
    }
    if left.a > 0 {
        left.a -= 1;
        return Some((Actor::A, left.a));
    }
    left.p = left.p.checked_sub(1)?;
    Some((Actor::P, left.p))
}
