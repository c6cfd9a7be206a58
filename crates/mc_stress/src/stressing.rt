//! Rounds of many clients, one after another, each judged while later ones are played.

use crate::desk::{Desk, Numbered, Summary};
use crate::evidence::Report;
use crate::outcome::Standing;
use crate::page::{Network, Page};
use crate::player::Player;
use crate::settings::Stress;
use itoa::Buffer;
use mc_connect::Socket;
use mc_lane::{Stream, Wire};
use mc_protocol::{OutOfMemory, append_all};
use std::alloc::Global;
use std::io;
use std::rt::Clock;
use std::sync::Wait;
use std::thread::{self, Builder, Scope, Threads};
use std::time::{Duration, Instant};

/// How many threads judge.
const JUDGES: u32 = 2;

/// Plays rounds until one is unexplained or a client fails, or there are as many as are wanted, or their time is over. An undecided round
/// doesn't end them, and with `keep_going` none does. A round that has begun isn't cut off. Writes the first of the rounds that stand
/// worst, unless all are good, and what all came to; with `keep_going` the first one that nothing explains as soon as it is known. Answers
/// how the rounds stand.
///
/// # Errors
///
/// That memory ran out: then nothing was written of what all rounds came to.
pub fn play_rounds<R, N: Network, P: Page>(
    rt: &R,
    alloc: Global,
    stress: &Stress<'_>,
    network: &mut N,
    page: &mut P,
) -> Result<Standing, OutOfMemory>
where
    R: Threads + Wait + Clock + Sync,
{
    let desk = Desk::new(alloc, stress.judging, stress.keep_going);
    let mut player = Player::new(alloc, stress)?;
    let is_written = play_beside(rt, stress, &desk, &mut player, network, page)?;
    desk.judge_waiting(rt);
    let summary = desk.summary(rt)?;
    page.count(summary.totals.rounds, summary.totals.unexplained);
    let is_written = is_written && write_last(rt, alloc, stress, &desk, &summary, page)?;
    if !is_written {
        return Ok(Standing::NoAnswer);
    }
    Ok(summary.standing)
}

// Plays round after round while threads judge, and answers whether all was written that there was to write meanwhile.
fn play_beside<R, N: Network, P: Page>(
    rt: &R,
    stress: &Stress<'_>,
    desk: &Desk<Wire<Socket<N::Connection>>>,
    player: &mut Player<'_, '_, N::Connection>,
    network: &mut N,
    page: &mut P,
) -> Result<bool, OutOfMemory>
where
    R: Threads + Wait + Clock + Sync,
{
    thread::scope(
        thread::scope_env(),
        rt,
        |scope| -> Result<bool, OutOfMemory> {
            let is_judged = start_judges(rt, desk, scope);
            let played = play_each(rt, stress, is_judged, desk, player, network, page);
            desk.close(rt);
            played
        },
    )
}

// Starts threads that judge, and answers whether there is one.
fn start_judges<'s, E, S: Stream + Send + 's, R: Wait + Sync>(
    rt: &'s R,
    desk: &'s Desk<S>,
    scope: &Scope<'s, E>,
) -> bool {
    let mut is_judged = false;
    'judges: for _ in 0..JUDGES {
        if Builder::new()
            .spawn_scoped(scope, move || desk.judge_all(rt))
            .is_ok()
        {
            is_judged = true;
        }
    }
    is_judged
}

// Plays round after round, and answers whether all was written that there was to write meanwhile.
fn play_each<R, N: Network, P: Page>(
    rt: &R,
    stress: &Stress<'_>,
    is_judged: bool,
    desk: &Desk<Wire<Socket<N::Connection>>>,
    player: &mut Player<'_, '_, N::Connection>,
    network: &mut N,
    page: &mut P,
) -> Result<bool, OutOfMemory>
where
    R: Threads + Wait + Clock + Sync,
{
    let begun = Instant::now(rt);
    let mut waited = Duration::ZERO;
    let most = stress.rounds.unwrap_or(u64::MAX);
    'rounds: for done in 0..most {
        if desk.is_enough(rt) || (done > 0 && is_late(rt, &begun, stress.time)) {
            break;
        }
        if !player.make_ready()? {
            page.tell_stop(done);
            break;
        }
        let outcome = player.play(rt, done + 1, network, page)?;
        let is_last = !outcome.is_done() && !stress.keep_going;
        let from = Instant::now(rt);
        desk.put(rt, done + 1, outcome)?;
        waited = waited.saturating_add(time_since(rt, &from));
        if !is_judged {
            desk.judge_waiting(rt);
        }
        if !write_news(rt, stress, desk, page)? {
            return Ok(false);
        }
        if is_last {
            break;
        }
    }
    page.tell_wait(waited);
    Ok(true)
}

// Writes the first round that nothing explains, if others follow it and it was found. Answers whether that could be done.
fn write_news<S: Stream, R: Wait, P: Page>(
    rt: &R,
    stress: &Stress<'_>,
    desk: &Desk<S>,
    page: &mut P,
) -> Result<bool, OutOfMemory> {
    let summary = desk.summary(rt)?;
    page.count(summary.totals.rounds, summary.totals.unexplained);
    if !stress.keep_going {
        return Ok(true);
    }
    match desk.take_unexplained(rt) {
        Some(found) => {
            let mut lines = round_line(*found.report.text.allocator(), stress, found.number)?;
            lines.extend_from_slice(found.report.text.as_slice())?;
            hand_out(found, page);
            Ok(page.put(lines.as_slice()))
        }
        None => Ok(true),
    }
}

// Hands out the evidence of a round, if there is any.
fn hand_out<P: Page>(found: Numbered, page: &mut P) {
    let Numbered { number, report } = found;
    let Report { evidence, .. } = report;
    if let Some(evidence) = evidence {
        page.tell_unexplained(number, evidence);
    }
}

// Writes what all rounds came to, and the round that is shown unless it was written. Answers whether that could be done.
fn write_last<S: Stream, R: Wait, P: Page>(
    rt: &R,
    alloc: Global,
    stress: &Stress<'_>,
    desk: &Desk<S>,
    summary: &Summary,
    page: &mut P,
) -> Result<bool, OutOfMemory> {
    let mut lines = Vec::new(alloc);
    match desk.take_found(rt) {
        Some(found) => {
            lines = round_line(alloc, stress, found.number)?;
            if stress.keep_going {
                lines.extend_from_slice(found.report.text.as_slice())?;
                summary.totals.print(&mut lines)?;
            } else {
                summary.totals.print(&mut lines)?;
                lines.extend_from_slice(found.report.text.as_slice())?;
            }
            hand_out(found, page);
        }
        None if summary.standing == Standing::Good => {
            lines = round_line(alloc, stress, summary.totals.rounds)?;
            summary.totals.print(&mut lines)?;
            lines.extend_from_slice(b"explained\n")?;
        }
        // it was written as soon as it was found
        None => summary.totals.print(&mut lines)?,
    }
    Ok(page.put(lines.as_slice()))
}

// The line that says which round follows, of how many if that is known.
fn round_line(alloc: Global, stress: &Stress<'_>, number: u64) -> Result<Vec<u8>, OutOfMemory> {
    let mut number_text = Buffer::new();
    let mut line = Vec::new(alloc);
    append_all(
        &mut line,
        &[b"round ", number_text.format(number).as_bytes()],
    )?;
    if let Some(rounds) = stress.rounds {
        let mut rounds_text = Buffer::new();
        append_all(&mut line, &[b" of ", rounds_text.format(rounds).as_bytes()])?;
    }
    line.extend_from_slice(b"\n")?;
    Ok(line)
}

// Whether the time is over, if there is one, or the clock can't say that it isn't.
fn is_late<R: Clock>(rt: &R, begun: &io::Result<Instant>, time: Option<Duration>) -> bool {
    match time {
        Some(time) => match begun {
            Ok(begun) => begun.elapsed(rt).map_or(true, |passed| passed >= time),
            Err(_) => true,
        },
        None => false,
    }
}

// How much time has passed since then, or none if the clock can't say it.
fn time_since<R: Clock>(rt: &R, from: &io::Result<Instant>) -> Duration {
    match from {
        Ok(from) => from.elapsed(rt).unwrap_or(Duration::ZERO),
        Err(_) => Duration::ZERO,
    }
}
