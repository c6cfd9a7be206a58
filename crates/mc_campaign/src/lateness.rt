//! By how much a branch is late that has met the other one.

ghost use Rattle.std.specs.Prelude.{◌≡◌, ◌≤◌, ◌<◌, ◌*◌, ◌^◌, IfSome};
ghost use Rattle.mc_campaign.specs.Meetings as spec;
ghost use Rattle.mc_campaign.specs.Meetings.{IsWithin};
ghost use Rattle.mc_generate.specs.Outputs.{outputs_of};

use mc_generate::draw;
use mc_run::{Branch, Late};
use rand_pcg::Pcg32;

/// The least by which a late branch is late.
const LEAST_NANOSECONDS: u32 = 1_000;

/// The late branch of a run that meets, by the generator's next words: none in half of the runs, and none with the spread 0. It is late
/// by a microsecond at least and by `spread` microseconds at most.
pub(crate) fn draw_late(generator: &mut Pcg32, spread: u16) -> Option<Late>
    ensures late { result ≡ spec.late_in spread (outputs_of generator.old) }
    ensures within { IfSome result (IsWithin spread) }
{
    if spread == 0 {
        return None;
    }
    let branch = late_branch(draw(generator, 4))?;
    Some(Late {
        branch,
        nanoseconds: draw_lateness(generator, spread),
    })
}

fn late_branch(lot: u32) -> Option<Branch>
    ensures { result ≡ spec.late_branch lot }
{
    match lot {
        0 | 1 => None,
        2 => Some(Branch::A),
        _ => Some(Branch::B),
    }
}

/// By how many nanoseconds the branch is late: evenly on a logarithmic scale from 1 microsecond to `spread`, so that a race which opens
/// soon in a request is met about as often as one that opens late.
fn draw_lateness(generator: &mut Pcg32, spread: u16) -> u32
    requires { 0 < spread }
    ensures drawn { result ≡ spec.lateness_in spread (outputs_of generator.old) }
    ensures least { 1000 ≤ result }
    ensures most { result ≤ 1000 * spread }
{
    let halved = draw(generator, halvings(spread).max(1));
    let longest = (1_000 * u32::from(spread)) >> halved;
    let drawn = longest - draw(generator, longest / 2 + 1);
    drawn.max(LEAST_NANOSECONDS)
}

/// How often a time of this many microseconds can be halved until less than 2 are left.
fn halvings(microseconds: u16) -> u32
    ensures count { result ≡ spec.halvings microseconds }
    ensures most { result ≤ 15 }
    ensures halved { 0 < microseconds → (2 ^ result ≤ microseconds) × (microseconds < 2 ^ result * 2) }
{
    15u32.saturating_sub(microseconds.leading_zeros())
}
