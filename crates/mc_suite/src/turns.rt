//! Scripts of races and generated ones, played in turns until the time is over.

use crate::beside::{Beside, tell_news};
use crate::finding::{Finding, keep_new, tell_found};
use crate::folder::Folder;
use crate::generated::{Generated, play_generated};
use crate::outcome::Outcome;
use crate::player::Player;
use crate::prepared::Prepared;
use crate::race::{Race, races};
use crate::report::Report;
use crate::rounds::play_rounds;
use crate::seen::Seen;
use crate::selection::Selection;
use crate::told::Kind;
use crate::verbs::Unsupported;
use mc_answers::{InputFault, Sink};
use mc_connect::Network;
use mc_script_text::parse;
use mc_stress::Network as Clients;
use std::alloc::{AllocError, Global};
use std::io::Eprint;
use std::rt::Clock;
use std::sync::Wait;
use std::thread::{Threads, sleep};
use std::time::Duration;

// The longest slice, in milliseconds, and the shortest.
const SLICE: u64 = 50;

const LEAST_SLICE: u64 = 2;

// The milliseconds between two looks at what a second thread found, if nothing else is to be played.
const PAUSE: u64 = 5;

// The slices in a turn of a script that asks for numbers. Another script has one.
const SLICES_WITH_NUMBERS: u32 = 4;

// Several races show one bug: a cas sees that an increment was lost. These show their own, by their second script or their only one, and in
// this order: none of these scripts is known to show the bug of a race below it.
static PLAIN: &[&str] = &[
    "lost-increment",
    "lost-decrement",
    "lost-append",
    "delete-twice",
    "add-twice",
    "replace-after-delete",
    "touch-undoes",
    "number-again",
    "stale-get",
    "torn-gets",
    "lost-prepend",
    "cas-two-winners",
    "torn-body",
    "torn-flags",
    "lost-flags",
    "add-over-set",
];

/// A script of a race, whose turn comes again and again.
pub(crate) struct Turn {
    pub(crate) race: &'static Race,
    script: &'static str,
    prepared: Prepared,
    slices: u32,
    // Whether its script tells its race apart, if the race is a plain one.
    is_plain: bool,
    pub(crate) runs: u64,
    pub(crate) is_found: bool,
}

// One call drops its parts. A derived `Drop` would write them out at each end of each function that holds one.
impl Drop for Turn {
    fn drop(self) {
        let Turn {
            race: _,
            script: _,
            prepared: _,
            slices: _,
            is_plain: _,
            runs: _,
            is_found: _,
        } = self;
    }
}

/// Adds the turns of the races that are wanted, and whose verbs the server knows.
pub(crate) fn add_turns(
    alloc: Global,
    selection: Selection<'_>,
    unsupported: &Unsupported,
    turns: &mut Vec<Turn>,
) -> Result<(), AllocError> {
    'races: for race in races() {
        if selection.has(race) && unsupported.allows(race) {
            add_scripts(alloc, race, turns)?;
        }
    }
    Ok(())
}

fn add_scripts(
    alloc: Global,
    race: &'static Race,
    turns: &mut Vec<Turn>,
) -> Result<(), AllocError> {
    let plain = race.scripts.len().min(2).saturating_sub(1);
    'scripts: for (index, script) in race.scripts.iter().enumerate() {
        if let Some(prepared) = Prepared::of_script(alloc, script.as_bytes())? {
            turns.push(Turn {
                race,
                script,
                prepared,
                slices: slices_of(script),
                is_plain: index == plain,
                runs: 0,
                is_found: false,
            })?;
        }
    }
    Ok(())
}

fn slices_of(script: &str) -> u32 {
    if has_numbers(script) {
        SLICES_WITH_NUMBERS
    } else {
        1
    }
}

// Whether the script asks for cas numbers. Each of its runs has new connections: memcached's own race in these numbers is seldom seen over
// others.
fn has_numbers(script: &str) -> bool {
    script.contains("\ngets ") || script.contains("\ncas ")
}

/// Plays the turns, and after them for as long what is drawn from the seed, if that is wanted, until the time is over. If a second
/// thread plays generated scripts, what it found is told between the turns.
pub(crate) fn take_turns<
    R: Threads + Wait + Clock + Sync + Eprint,
    N: Network + Clients,
    O: Sink,
    F: Folder,
>(
    player: &mut Player<'_, R, N>,
    report: &mut Report<'_, O, F>,
    turns: &mut Vec<Turn>,
    generated: &mut Generated,
    beside: Option<&Beside>,
) -> Result<(), InputFault> {
    let slice = slice_for(player.time, turns.as_slice());
    'rounds: for _round in 0..u64::MAX {
        if player.is_over() {
            break;
        }
        take_each(player, report, turns, generated, beside, slice)?;
        let left = slices_left(turns.as_slice());
        if generated.is_wanted {
            // A slice more, so that it is played once all races were found.
            let time = slice.saturating_mul(left.saturating_add(1));
            play_drawn(player, report, turns, generated, beside, time)?;
        } else if left == 0 {
            break;
        }
    }
    Ok(())
}

// Plays generated scripts, and for a third of this time rounds of many clients. If a second thread plays the scripts, only rounds.
fn play_drawn<R: Threads + Wait + Clock + Sync + Eprint, N: Network + Clients, O: Sink, F: Folder>(
    player: &mut Player<'_, R, N>,
    report: &mut Report<'_, O, F>,
    turns: &mut Vec<Turn>,
    generated: &mut Generated,
    beside: Option<&Beside>,
    time: Duration,
) -> Result<(), InputFault> {
    let share = if generated.rounds.is_found {
        Duration::ZERO
    } else {
        time / 3
    };
    if beside.is_none() {
        let of_scripts = time.saturating_sub(share);
        play_generated(player, report, generated, turns, of_scripts)?;
    }
    let of_rounds = generated.rounds.take_time(share);
    let count = generated.rounds.count;
    play_rounds(player, report, generated, turns, of_rounds)?;
    if beside.is_some() && generated.rounds.count == count {
        // There may be nothing left to play here.
        sleep(player.rt, Duration::from_millis(PAUSE));
    }
    Ok(())
}

// How long a slice is, so that each turn comes twice at least.
fn slice_for(time: Duration, turns: &[Turn]) -> Duration {
    let milliseconds = u64::try_from(time.as_millis()).unwrap_or(u64::MAX);
    let share = milliseconds / u64::from(slices_left(turns)).saturating_mul(4).max(1);
    Duration::from_millis(share.clamp(LEAST_SLICE, SLICE))
}

// The slices of the turns whose races weren't found.
fn slices_left(turns: &[Turn]) -> u32 {
    let mut slices = 0u32;
    'turns: for turn in turns {
        if !turn.is_found {
            slices = slices.saturating_add(turn.slices);
        }
    }
    slices
}

// Plays the script of each turn once.
fn take_each<R: Threads + Wait + Clock + Sync + Eprint, N: Network, O: Sink, F: Folder>(
    player: &mut Player<'_, R, N>,
    report: &mut Report<'_, O, F>,
    turns: &mut Vec<Turn>,
    generated: &mut Generated,
    beside: Option<&Beside>,
    slice: Duration,
) -> Result<(), InputFault> {
    'turns: for index in 0..turns.len() {
        let told = report.book.told.len();
        take_turn(player, report, turns, index, slice)?;
        keep_new(player, report, turns.as_slice(), generated, told)?;
        if let Some(beside) = beside {
            tell_news(player, report, generated, turns, beside)?;
        }
    }
    Ok(())
}

// Plays the script of a turn for its slices, unless its race was found, and tells the race if it is seen.
fn take_turn<R: Threads + Wait + Clock + Sync + Eprint, N: Network, O: Sink, F: Folder>(
    player: &mut Player<'_, R, N>,
    report: &mut Report<'_, O, F>,
    turns: &mut Vec<Turn>,
    index: usize,
    slice: Duration,
) -> Result<(), InputFault> {
    match see(player, report, turns, index, slice)? {
        Some(seen) => {
            let time = report.time_for_evidence();
            tell_plain(player, report, turns, Some(index), time)?;
            tell_race(player, report, turns, index, seen)
        }
        None => Ok(()),
    }
}

/// Before the first race of a script is told, or one of rounds, plays the scripts that tell the plain races apart for this long, and tells
/// the first that is seen. What was seen is of the turn with this index, if it is of a turn. A race of rounds has no name, so after it a
/// plain race is still to be told first.
pub(crate) fn tell_plain<R: Threads + Wait + Clock + Sync + Eprint, N: Network, O: Sink, F: Folder>(
    player: &mut Player<'_, R, N>,
    report: &mut Report<'_, O, F>,
    turns: &mut Vec<Turn>,
    of: Option<usize>,
    time: Duration,
) -> Result<(), InputFault> {
    let slice = time / plain_slices(turns.as_slice()).max(1);
    'races: for name in plain_races() {
        let plain = plain_turn(turns.as_slice(), name);
        if report.book.has_script() || of.is_some() && plain == of {
            break;
        }
        tell_if_seen(player, report, turns, plain, slice)?;
    }
    Ok(())
}

// The slices of the scripts that tell races apart which weren't found.
fn plain_slices(turns: &[Turn]) -> u32 {
    let mut slices = 0u32;
    'turns: for turn in turns {
        if turn.is_plain && !turn.is_found {
            slices = slices.saturating_add(turn.slices);
        }
    }
    slices
}

// Only this function names the table.
fn plain_races() -> &'static [&'static str] {
    PLAIN
}

// The turn of the script that tells this race apart, unless it was found.
fn plain_turn(turns: &[Turn], name: &str) -> Option<usize> {
    turns.iter().position(|turn| turn.is_plain && !turn.is_found && turn.race.name == name)
}

fn tell_if_seen<R: Threads + Wait + Clock + Sync + Eprint, N: Network, O: Sink, F: Folder>(
    player: &mut Player<'_, R, N>,
    report: &mut Report<'_, O, F>,
    turns: &mut Vec<Turn>,
    index: Option<usize>,
    slice: Duration,
) -> Result<(), InputFault> {
    let Some(index) = index else {
        return Ok(());
    };
    let begun = player.passed();
    let seen = see(player, report, turns, index, slice)?;
    report.spend(player.passed().saturating_sub(begun));
    match seen {
        Some(seen) => tell_race(player, report, turns, index, seen),
        None => Ok(()),
    }
}

// Plays the script of a turn for its slices, unless its race was found. Answers the run that nothing explains, after which there was none.
fn see<R: Threads + Wait + Clock + Sync + Eprint, N: Network, O: Sink, F: Folder>(
    player: &mut Player<'_, R, N>,
    report: &mut Report<'_, O, F>,
    turns: &mut Vec<Turn>,
    index: usize,
    slice: Duration,
) -> Result<Option<Seen>, InputFault> {
    let Some(turn) = turns.get_mut(index) else {
        return Ok(None);
    };
    if turn.is_found || player.is_over() {
        return Ok(None);
    }
    let slices = slice.saturating_mul(turn.slices);
    let until = player.passed().saturating_add(slices);
    play_slice(player, report, turn, until)
}

// The race was found: its scripts have no more turns.
fn end_turns(turns: &mut Vec<Turn>, race: &Race) {
    'turns: for turn in turns.iter_mut() {
        if turn.race.name == race.name {
            turn.is_found = true;
        }
    }
}

// Tells the race, unless it was told. Nothing explains the last run of its script.
fn tell_race<R: Threads + Wait + Clock + Sync + Eprint, N: Network, O: Sink, F: Folder>(
    player: &mut Player<'_, R, N>,
    report: &mut Report<'_, O, F>,
    turns: &mut Vec<Turn>,
    index: usize,
    seen: Seen,
) -> Result<(), InputFault> {
    let (race, script, runs) = match turns.get(index) {
        Some(turn) if !turn.is_found => (turn.race, turn.script, turn.runs),
        _ => return Ok(()),
    };
    end_turns(turns, race);
    player.target.reconnect = has_numbers(script);
    let Ok(script) = parse(player.alloc, script.as_bytes()) else {
        return Ok(());
    };
    let finding = Finding {
        kind: Kind::Race,
        name: race.name,
        sentence: race.sentence,
        script,
        seen,
        runs,
    };
    tell_found(player, report, finding)
}

// Plays the script until this time, or until nothing explains a run, which it answers.
fn play_slice<R: Threads + Wait + Clock + Sync + Eprint, N: Network, O: Sink, F: Folder>(
    player: &mut Player<'_, R, N>,
    report: &mut Report<'_, O, F>,
    turn: &mut Turn,
    until: Duration,
) -> Result<Option<Seen>, InputFault> {
    player.target.reconnect = has_numbers(turn.script);
    'runs: for _run in 0..u64::MAX {
        turn.runs = turn.runs.saturating_add(1);
        match player.play(&mut turn.prepared)? {
            Outcome::Unexplained(seen) => return Ok(Some(seen)),
            Outcome::Wrong(text) => {
                player.give_way();
                report.tell_wrong(turn.race.name, text.as_str())?;
            }
            _ => {}
        }
        if player.is_over() || player.passed() >= until {
            break;
        }
    }
    Ok(None)
}
