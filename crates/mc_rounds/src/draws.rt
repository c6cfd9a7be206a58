//! Numbers that are drawn from a generator.
ghost use Rattle.std.specs.Prelude.{◌≡◌, ◌<◌};
ghost use Rattle.mc_rounds.specs.Draws as draws;

use rand_core::utils::NextWord;
use rand_pcg::Lcg64Xsh32;

/// A number below `choices`, by the generator's next output.
#[tactic(auto, unfolding(crate::specs::Draws::draw, crate::specs::Draws::rest))]
pub(crate) fn draw(generator: &mut Lcg64Xsh32, choices: usize) -> usize
    requires { 0 < choices }
    ensures number { result ≡ draws.draw choices generator.old }
    ensures rest { generator.new ≡ draws.rest generator.old }
    ensures below { result < choices }
{
    generator.next_word() as usize % choices
}

/// The client whose generator draws what begins a round. No round has it.
pub(crate) const OPENINGS: u8 = 64;

// How many streams of the generator a round takes: one for each client, and more.
const SEQUENCES: u64 = 128;

/// The generator of a client's requests in a round.
#[tactic(auto, unfolding(crate::specs::Draws::generator_of))]
pub(crate) fn generator_of(seed: u64, round: u64, client: u8) -> Lcg64Xsh32
    ensures { result ≡ draws.generator_of seed round client }
{
    let sequence = round
        .wrapping_mul(SEQUENCES)
        .wrapping_add(u64::from(client));
    Lcg64Xsh32::new(seed, sequence)
}
