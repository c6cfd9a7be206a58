//! Evidence of a race: a smaller script, how often it was seen, and a run that nothing explains.

use crate::player::{Player, Tries};
use crate::prepared::Prepared;
use crate::seen::{Seen, Shown};
use mc_connect::Network;
use mc_generate::Shrinker;
use mc_script::Script;
use mc_script_text::print;
use std::alloc::{AllocError, Global};
use std::io::Eprint;
use std::rt::Clock;
use std::sync::Wait;
use std::thread::Threads;
use std::time::Duration;

// The most smaller scripts that are tried.
const ROUNDS: u32 = 200;

// The runs of a smaller script for each run that it took to see the race, and the fewest of all.
const FACTOR: u64 = 10;

const LEAST_TRIES: u64 = 20;

// How often the race is to be seen.
const TIMES: u64 = 3;

/// What is told about a race.
#[derive(Drop)]
pub(crate) struct Found {
    /// The text of the smallest script.
    pub(crate) script: Vec<u8>,
    /// A run that nothing explains, of it or, if it wasn't seen again, of a larger one; with what was found out of that.
    pub(crate) shown: Shown,
    /// How many of the runs showed it.
    pub(crate) times: u64,
    pub(crate) runs: u64,
}

// A run that nothing explains, and how often there was one.
#[derive(Drop)]
struct Sight {
    seen: Seen,
    times: u64,
    runs: u64,
}

/// Makes the script smaller whose last run of `runs` nothing explains, as long as the race is seen again; and plays what is left until it
/// was seen three times. It ends at this time: then what it has so far is the evidence.
pub(crate) fn evidence_of<R: Threads + Wait + Clock + Sync + Eprint, N: Network>(
    player: &mut Player<'_, R, N>,
    script: Script,
    seen: Seen,
    runs: u64,
    until: Duration,
) -> Result<Found, AllocError> {
    let sight = Sight {
        seen,
        times: 1,
        runs,
    };
    let mut shrinker = Shrinker::new(script, ROUNDS);
    let sight = shrink(player, &mut shrinker, sight, until)?;
    let script = text_of(player.alloc, &shrinker.into_script())?;
    let sight = see_again(player, script.as_slice(), sight, until)?;
    Ok(Found {
        script,
        shown: Shown::of(player.alloc, sight.seen, player.target.how.limit)?,
        times: sight.times,
        runs: sight.runs,
    })
}

fn text_of(alloc: Global, script: &Script) -> Result<Vec<u8>, AllocError> {
    let mut text = Vec::new(alloc);
    print(alloc, script, &mut text)?;
    Ok(text)
}

// Tries smaller scripts, and answers the last sight of the race.
fn shrink<R: Threads + Wait + Clock + Sync + Eprint, N: Network>(
    player: &mut Player<'_, R, N>,
    shrinker: &mut Shrinker,
    first: Sight,
    until: Duration,
) -> Result<Sight, AllocError> {
    let most = first.runs.saturating_mul(FACTOR).max(LEAST_TRIES);
    let mut sight = first;
    'rounds: for _round in 0..ROUNDS {
        let Some(checked) = shrinker.next(player.alloc)? else {
            break;
        };
        let mut prepared = Prepared::new(checked);
        let Tries {
            seen,
            runs,
            wrong: _wrong,
        } = player.play_until_seen(&mut prepared, most, until)?;
        shrinker.answer(seen.is_some());
        if let Some(seen) = seen {
            sight = Sight {
                seen,
                times: 1,
                runs,
            };
        }
    }
    Ok(sight)
}

// Plays the script until the race was seen often enough. Answers the run with the fewest overlaps.
fn see_again<R: Threads + Wait + Clock + Sync + Eprint, N: Network>(
    player: &mut Player<'_, R, N>,
    script: &[u8],
    first: Sight,
    until: Duration,
) -> Result<Sight, AllocError> {
    let mut sight = first;
    let Some(mut prepared) = Prepared::of_script(player.alloc, script)? else {
        return Ok(sight);
    };
    'times: for _ in 1..TIMES {
        let Tries {
            seen,
            runs,
            wrong: _wrong,
        } = player.play_until_seen(&mut prepared, u64::MAX, until)?;
        sight.runs = sight.runs.saturating_add(runs);
        let Some(seen) = seen else {
            break;
        };
        sight.times = sight.times.saturating_add(1);
        if seen.overlaps() < sight.seen.overlaps() {
            sight.seen = seen;
        }
    }
    Ok(sight)
}
