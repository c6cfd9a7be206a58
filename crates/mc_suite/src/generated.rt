//! What is drawn from the seed, and played between the turns of the races or beside them: generated scripts, and rounds.

use crate::finding::{Finding, keep_new, tell_found};
use crate::folder::Folder;
use crate::player::{Player, Tries};
use crate::prepared::Prepared;
use crate::report::Report;
use crate::rounds::Rounds;
use crate::told::Kind;
use crate::turns::{Turn, tell_plain};
use crate::verbs::Unsupported;
use crate::wide::wide_script;
use mc_answers::{InputFault, Sink, verify_code};
use mc_assembler::assemble;
use mc_connect::Network;
use mc_generate::generate_script;
use mc_script::Script;
use std::alloc::{AllocError, Global};
use std::io::Eprint;
use std::rt::Clock;
use std::sync::Wait;
use std::thread::Threads;
use std::time::Duration;

// How often a generated script is played.
const RUNS: u64 = 10;

/// The generated scripts, and the rounds.
#[derive(Clone, Copy, Drop)]
pub(crate) struct Generated {
    pub(crate) seed: u64,
    /// Whether they are played. If not, the test ends once all races that are wanted were found.
    pub(crate) is_wanted: bool,
    /// The number of the next one.
    pub(crate) job: u64,
    /// How many were played.
    pub(crate) count: u64,
    /// How many of them had a run that nothing explains.
    pub(crate) unexplained: u64,
    pub(crate) rounds: Rounds,
}

/// A generated script that was played.
#[derive(Drop)]
pub(crate) struct Tried {
    script: Script,
    job: u64,
    tries: Tries,
}

impl Tried {
    /// Whether there is something to tell of it.
    pub(crate) fn is_news(&self) -> bool {
        self.tries.seen.is_some() || self.tries.wrong.is_some()
    }

    /// Whether nothing explains a run of it.
    pub(crate) fn is_unexplained(&self) -> bool {
        self.tries.seen.is_some()
    }
}

impl Generated {
    /// None was played.
    pub(crate) fn new(seed: u64, is_wanted: bool) -> Generated {
        Generated {
            seed,
            is_wanted,
            job: 0,
            count: 0,
            unexplained: 0,
            rounds: Rounds::new(seed),
        }
    }
}

/// Plays generated scripts for this long.
pub(crate) fn play_generated<
    R: Threads + Wait + Clock + Sync + Eprint,
    N: Network,
    O: Sink,
    F: Folder,
>(
    player: &mut Player<'_, R, N>,
    report: &mut Report<'_, O, F>,
    generated: &mut Generated,
    turns: &mut Vec<Turn>,
    time: Duration,
) -> Result<(), InputFault> {
    let until = player.passed().saturating_add(time);
    'scripts: for _script in 0..u64::MAX {
        if player.is_over() || player.passed() >= until {
            break;
        }
        let told = report.book.told.len();
        player.target.reconnect = false;
        if let Some(tried) = try_next(player, &report.book.unsupported, generated)? {
            tell_tried(player, report, generated, turns, tried)?;
        }
        keep_new(player, report, turns.as_slice(), generated, told)?;
    }
    Ok(())
}

/// Plays the next generated script, if it is sound and the server knows its verbs.
pub(crate) fn try_next<R: Threads + Wait + Clock + Sync + Eprint, N: Network>(
    player: &mut Player<'_, R, N>,
    unsupported: &Unsupported,
    generated: &mut Generated,
) -> Result<Option<Tried>, AllocError> {
    let job = generated.job;
    generated.job = generated.job.saturating_add(1);
    let Some(script) = script_of(player.alloc, generated.seed, job)? else {
        return Ok(None);
    };
    let Some(tries) = try_script(player, unsupported, &script)? else {
        return Ok(None);
    };
    generated.count = generated.count.saturating_add(1);
    Ok(Some(Tried { script, job, tries }))
}

/// Tells what a generated script showed.
pub(crate) fn tell_tried<R: Threads + Wait + Clock + Sync + Eprint, N: Network, O: Sink, F: Folder>(
    player: &mut Player<'_, R, N>,
    report: &mut Report<'_, O, F>,
    generated: &mut Generated,
    turns: &mut Vec<Turn>,
    tried: Tried,
) -> Result<(), InputFault> {
    let Tried { script, job, tries } = tried;
    let Tries { seen, runs, wrong } = tries;
    let name = format!(in player.alloc; "generated-{job}")?;
    let name = name.as_str();
    if let Some(wrong) = &wrong {
        player.give_way();
        report.tell_wrong(name, wrong.as_str())?;
    }
    let Some(seen) = seen else {
        return Ok(());
    };
    let finding = Finding {
        kind: Kind::Generated,
        name,
        sentence: "a generated script shows a race",
        script,
        seen,
        runs,
    };
    tell_first(player, report, generated, turns, finding)
}

// Plays a script a few times, if it is sound and the server knows its verbs.
fn try_script<R: Threads + Wait + Clock + Sync + Eprint, N: Network>(
    player: &mut Player<'_, R, N>,
    unsupported: &Unsupported,
    script: &Script,
) -> Result<Option<Tries>, AllocError> {
    let Some(mut prepared) = prepare(player.alloc, script, unsupported)? else {
        return Ok(None);
    };
    let until = player.time;
    Ok(Some(player.play_until_seen(&mut prepared, RUNS, until)?))
}

// Counts a race that a generated script shows, and tells the first.
fn tell_first<R: Threads + Wait + Clock + Sync + Eprint, N: Network, O: Sink, F: Folder>(
    player: &mut Player<'_, R, N>,
    report: &mut Report<'_, O, F>,
    generated: &mut Generated,
    turns: &mut Vec<Turn>,
    finding: Finding<'_>,
) -> Result<(), InputFault> {
    generated.unexplained = generated.unexplained.saturating_add(1);
    if generated.unexplained > 1 {
        return Ok(());
    }
    let time = report.time_for_evidence();
    tell_plain(player, report, turns, None, time)?;
    player.target.reconnect = false;
    tell_found(player, report, finding)
}

// The script of a job. Two generators take turns.
fn script_of(alloc: Global, seed: u64, job: u64) -> Result<Option<Script>, AllocError> {
    if job % 2 == 0 {
        Ok(Some(generate_script(alloc, seed, job)?))
    } else {
        wide_script(alloc, seed, job)
    }
}

// The code of a script, if it is sound, and the server knows all its verbs.
fn prepare(
    alloc: Global,
    script: &Script,
    unsupported: &Unsupported,
) -> Result<Option<Prepared>, AllocError> {
    let Ok(code) = assemble(alloc, script) else {
        return Ok(None);
    };
    if !unsupported.allows_code(&code) {
        return Ok(None);
    }
    Ok(verify_code(alloc, code)?.ok().map(Prepared::new))
}
