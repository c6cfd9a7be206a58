//! How the branches of a run meet, by what its line and the lot say.
ghost use Rattle.std.specs.Prelude.{◌≡◌, ◌<◌, ◌^◌, ℕ};
ghost use Rattle.mc_command.specs.Drawing.{meet_by};

use mc_run::Meet;
use mc_settings::Meeting;
use rand_pcg::Pcg32;
use std::rt::Clock;

// The seed where the clock gives none.
const FIXED_SEED: u64 = 42;

// Which of its sequences the generator goes along.
const SEQUENCE: u64 = 54;

/// How a run meets that is asked to meet so, where a branch is late by `spread` microseconds at most. What is drawn of it, as
/// [`draw_meet`](mc_campaign::draw_meet) does, is by a generator whose seed is the time.
pub fn draw_meet<R: Clock>(rt: &R, meeting: Meeting, spread: u16) -> Meet
    ensures { (seed : ℕ) × (seed < 2 ^ 64) × (result ≡ meet_by meeting spread seed) }
{
    let mut generator = Pcg32::new(seed_by(rt), SEQUENCE);
    mc_campaign::draw_meet(&mut generator, meeting, spread)
}

/// A seed: the nanoseconds since 1970, by one call of the clock; or a fixed one, if it gives none.
pub fn seed_by<R: Clock>(rt: &R) -> u64 {
    match rt.since_1970() {
        Ok(time) => u64::try_from(time.as_nanos()).unwrap_or(FIXED_SEED),
        Err(_) => FIXED_SEED,
    }
}
