//! Numbers that are drawn from a generator.
ghost use Rattle.std.specs.Prelude.{◌≡◌, ◌<◌};
ghost use Rattle.mc_generate.specs.Outputs as outputs;

use rand_core::utils::NextWord;
use rand_pcg::Lcg64Xsh32;

/// A number below `choices`, by the generator's next output.
#[tactic(auto, unfolding(crate::specs::Outputs::rest, crate::specs::Outputs::outputs_of))]
pub fn draw(generator: &mut Lcg64Xsh32, choices: u32) -> u32
    requires { 0 < choices }
    ensures number { result ≡ outputs.draw choices (outputs.outputs_of generator.old) }
    ensures rest { outputs.outputs_of generator.new ≡ outputs.rest (outputs.outputs_of generator.old) }
    ensures below { result < choices }
{
    generator.next_word() % choices
}
