//! Rounds of many clients at once, played before the first turns and after generated scripts. One bug may need more requests at once than
//! a script has, and most bugs show in rounds soonest.

use crate::clash::Clash;
use crate::crowd::Gathered;
use crate::finding::keep_new;
use crate::folder::Folder;
use crate::generated::Generated;
use crate::player::Player;
use crate::report::Report;
use crate::turns::{Turn, tell_plain};
use crate::verbs::Unsupported;
use mc_answers::{InputFault, Sink};
use mc_connect::Network;
use mc_generate::draw;
use mc_rounds::Plan;
use mc_settings::Mix;
use mc_stress::Network as Clients;
use rand_pcg::Pcg32;
use std::alloc::AllocError;
use std::io::Eprint;
use std::rt::Clock;
use std::sync::Wait;
use std::thread::Threads;
use std::time::Duration;

/// What findings of rounds, and what came that is no reply, are told under.
pub(crate) const STRESS: &str = "stress";

/// The clients of a round, and the requests of each.
pub(crate) const CLIENTS: u8 = 8;

const REQUESTS: u16 = 50;

// The keys of a round. Where all replies are alike, an order has so much choice that on 2 keys one search of some 300 is left undecided.
const KEYS: u8 = 2;

const KEYS_OF_BODIES: u8 = 4;

// The milliseconds for which rounds of one seed are played.
const SLICE: u64 = 250;

// The part of the time that rounds have before the first turns, and the most milliseconds: a slice for each mix.
const FIRST: u32 = 10;

const FIRST_MOST: u64 = 2_000;

// The mixes in turn. Numbers and counters tell most: each reply of theirs differs from the others, so an order has little choice.
const MIX_COUNT: usize = 8;

static MIXES: [Mix; MIX_COUNT] = [
    Mix::Counters,
    Mix::All,
    Mix::Cas,
    Mix::Counters,
    Mix::Bodies,
    Mix::Cas,
    Mix::Counters,
    Mix::Presence,
];

// The most milliseconds for which plain races are tried before a race is told. In a long test they are tried for longer after it.
const NAMING: u64 = 3_000;

// The generator's sequence of the first seed.
const SEQUENCE: u64 = 118;

// How often a finding is to be seen.
const TIMES: u64 = 3;

/// The rounds of many clients.
#[derive(Clone, Copy, Drop)]
pub(crate) struct Rounds {
    seed: u64,
    // The number of the next plan.
    number: u64,
    /// How many were played.
    pub(crate) count: u64,
    /// Whether nothing explains one of them. Then no other is played.
    pub(crate) is_found: bool,
    // How long rounds were played before the first turns. They have less time after generated scripts until this is made up for.
    ahead: Duration,
}

/// What was found of rounds: how often, and the smallest.
#[derive(Drop)]
pub(crate) struct FoundRounds {
    pub(crate) plan: Plan,
    pub(crate) clash: Clash,
    /// How many of the rounds nothing explains.
    pub(crate) times: u64,
    pub(crate) rounds: u64,
}

// How rounds of a plan ended.
#[derive(Clone, Copy)]
enum End {
    Whole,
    // A client failed or got no connection, or there was no thread.
    Failed,
    // There was no time, no plan, or nothing left to find.
    NotPlayed,
}

impl Rounds {
    /// None was played.
    pub(crate) fn new(seed: u64) -> Rounds {
        Rounds {
            seed,
            number: 0,
            count: 0,
            is_found: false,
            ahead: Duration::ZERO,
        }
    }

    /// What is left of a share of the time, without what was played before the first turns.
    pub(crate) fn take_time(&mut self, share: Duration) -> Duration {
        let left = share.saturating_sub(self.ahead);
        self.ahead = self.ahead.saturating_sub(share);
        left
    }

    // The next plan whose verbs the server knows.
    fn next(&mut self, unsupported: &Unsupported) -> Option<Plan> {
        'mixes: for _ in 0..MIX_COUNT {
            let number = self.number;
            self.number = self.number.saturating_add(1);
            let mix = mix_of(number);
            if allows_mix(unsupported, mix) {
                return Some(Plan {
                    seed: seed_of(self.seed, number),
                    clients: CLIENTS,
                    requests: REQUESTS,
                    keys: keys_of(mix),
                    mix,
                });
            }
        }
        None
    }
}

// The mix of the plan with this number.
fn mix_of(number: u64) -> Mix {
    MIXES[(number % 8) as usize]
}

fn keys_of(mix: Mix) -> u8 {
    match mix {
        Mix::Bodies => KEYS_OF_BODIES,
        Mix::All | Mix::Counters | Mix::Cas | Mix::Presence => KEYS,
    }
}

/// The word for a mix.
pub(crate) fn mix_word(mix: Mix) -> &'static str {
    match mix {
        Mix::All => "all",
        Mix::Counters => "counters",
        Mix::Cas => "cas",
        Mix::Bodies => "bodies",
        Mix::Presence => "presence",
    }
}

// The seed of the plan with this number.
fn seed_of(seed: u64, number: u64) -> u64 {
    let mut generator = Pcg32::new(seed, SEQUENCE.wrapping_add(number));
    u64::from(draw(&mut generator, u32::MAX))
}

// Whether the server knows all verbs of the mix, and those that begin a round.
fn allows_mix(unsupported: &Unsupported, mix: Mix) -> bool {
    let verbs = match mix {
        Mix::All => "set add replace append prepend cas get gets incr decr delete touch",
        Mix::Counters => "delete set incr decr gets cas",
        Mix::Cas => "delete set gets cas",
        Mix::Bodies => "delete set append prepend get",
        Mix::Presence => "delete set add replace get touch",
    };
    verbs.split(' ').all(|verb| unsupported.knows(verb))
}

/// Plays rounds of each mix for a short while, before any script had its turn. Rounds that fail end this, so that scripts have their turns
/// at a server that only fails with many clients.
pub(crate) fn play_first_rounds<
    R: Threads + Wait + Clock + Sync + Eprint,
    N: Network + Clients,
    O: Sink,
    F: Folder,
>(
    player: &mut Player<'_, R, N>,
    report: &mut Report<'_, O, F>,
    generated: &mut Generated,
    turns: &mut Vec<Turn>,
) -> Result<(), InputFault> {
    let begun = player.passed();
    let time = (player.time / FIRST).min(Duration::from_millis(FIRST_MOST));
    let end = begun.saturating_add(time);
    'plans: for _plan in 0..MIX_COUNT {
        // A round may take longer than its share.
        let until = player.passed().saturating_add(time / 8).min(end);
        match play_next(player, report, generated, turns, until)? {
            End::Whole => {}
            End::Failed | End::NotPlayed => break,
        }
    }
    generated.rounds.ahead = player.passed().saturating_sub(begun);
    Ok(())
}

/// Plays rounds for this long, and tells the first that nothing explains.
pub(crate) fn play_rounds<
    R: Threads + Wait + Clock + Sync + Eprint,
    N: Network + Clients,
    O: Sink,
    F: Folder,
>(
    player: &mut Player<'_, R, N>,
    report: &mut Report<'_, O, F>,
    generated: &mut Generated,
    turns: &mut Vec<Turn>,
    time: Duration,
) -> Result<(), InputFault> {
    let until = player.passed().saturating_add(time);
    'plans: for _plan in 0..u64::MAX {
        match play_next(player, report, generated, turns, until)? {
            End::Whole | End::Failed => {}
            End::NotPlayed => break,
        }
    }
    Ok(())
}

// Plays rounds of the next plan until this time, if it hasn't come and nothing was found, and keeps the reports of what was told.
fn play_next<R: Threads + Wait + Clock + Sync + Eprint, N: Network + Clients, O: Sink, F: Folder>(
    player: &mut Player<'_, R, N>,
    report: &mut Report<'_, O, F>,
    generated: &mut Generated,
    turns: &mut Vec<Turn>,
    until: Duration,
) -> Result<End, InputFault> {
    if generated.rounds.is_found || player.is_over() || player.passed() >= until {
        return Ok(End::NotPlayed);
    }
    let Some(plan) = generated.rounds.next(&report.book.unsupported) else {
        return Ok(End::NotPlayed);
    };
    let told = report.book.told.len();
    let end = play_plan(player, report, generated, turns, &plan, until)?;
    keep_new(player, report, turns.as_slice(), generated, told)?;
    Ok(end)
}

// Plays rounds of this plan until this time, but not for long, and tells what they showed.
fn play_plan<R: Threads + Wait + Clock + Sync + Eprint, N: Network + Clients, O: Sink, F: Folder>(
    player: &mut Player<'_, R, N>,
    report: &mut Report<'_, O, F>,
    generated: &mut Generated,
    turns: &mut Vec<Turn>,
    plan: &Plan,
    until: Duration,
) -> Result<End, InputFault> {
    let left = until.saturating_sub(player.passed());
    let time = left.min(Duration::from_millis(SLICE));
    let Gathered {
        rounds,
        clash,
        wrong,
        has_failed,
    } = player.play_rounds(plan, time)?;
    generated.rounds.count = generated.rounds.count.saturating_add(rounds);
    if let Some(wrong) = &wrong {
        player.give_way();
        report.tell_wrong(STRESS, wrong.as_str())?;
    }
    if let Some(clash) = clash {
        tell_clash(player, report, generated, turns, plan, clash, rounds)?;
    }
    Ok(if has_failed { End::Failed } else { End::Whole })
}

// Tells the race that nothing explains. Before it, a plain race is told if its script shows it.
fn tell_clash<R: Threads + Wait + Clock + Sync + Eprint, N: Network + Clients, O: Sink, F: Folder>(
    player: &mut Player<'_, R, N>,
    report: &mut Report<'_, O, F>,
    generated: &mut Generated,
    turns: &mut Vec<Turn>,
    plan: &Plan,
    clash: Clash,
    rounds: u64,
) -> Result<(), InputFault> {
    generated.rounds.is_found = true;
    let time = report
        .time_for_evidence()
        .min(Duration::from_millis(NAMING));
    tell_plain(player, report, turns, None, time)?;
    let first = FoundRounds {
        plan: *plan,
        clash,
        times: 1,
        rounds,
    };
    let again = tell_found(player, report, first)?;
    generated.rounds.count = generated.rounds.count.saturating_add(again);
    Ok(())
}

// Finds evidence, tells it, and answers how many rounds were played for it.
fn tell_found<R: Threads + Wait + Clock + Sync + Eprint, N: Network + Clients, O: Sink, F: Folder>(
    player: &mut Player<'_, R, N>,
    report: &mut Report<'_, O, F>,
    first: FoundRounds,
) -> Result<u64, InputFault> {
    player.count_found();
    let before = first.rounds;
    let begun = player.passed();
    let until = begun.saturating_add(report.time_for_evidence());
    let found = see_again(player, first, until)?;
    report.spend(player.passed().saturating_sub(begun));
    player.give_way();
    let again = found.rounds.saturating_sub(before);
    report.tell_rounds(&player.target, found)?;
    Ok(again)
}

// Plays rounds of the same plan until it was seen often enough. Answers the one that is unexplained soonest.
fn see_again<R: Threads + Wait + Clock + Sync + Eprint, N: Network + Clients>(
    player: &mut Player<'_, R, N>,
    first: FoundRounds,
    until: Duration,
) -> Result<FoundRounds, AllocError> {
    let mut found = first;
    'times: for _ in 1..TIMES {
        let left = until.saturating_sub(player.passed());
        if player.health.is_gone() || left.is_zero() {
            break;
        }
        let plan = found.plan;
        let Gathered {
            rounds,
            clash,
            wrong: _wrong,
            has_failed: _has_failed,
        } = player.play_rounds(&plan, left)?;
        found.rounds = found.rounds.saturating_add(rounds);
        let Some(clash) = clash else {
            break;
        };
        found.times = found.times.saturating_add(1);
        if clash.place < found.clash.place {
            found.clash = clash;
        }
    }
    Ok(found)
}
