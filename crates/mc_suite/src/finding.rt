//! A race that was found, and what is told of it.

use crate::book::State;
use crate::evidence::evidence_of;
use crate::folder::Folder;
use crate::generated::Generated;
use crate::player::Player;
use crate::report::Report;
use crate::seen::Seen;
use crate::told::Kind;
use crate::turns::Turn;
use mc_answers::{InputFault, Sink};
use mc_connect::Network;
use mc_script::Script;
use std::io::Eprint;
use std::rt::Clock;
use std::sync::Wait;
use std::thread::Threads;

/// A race that was found: nothing explains the last of these runs of its script.
#[derive(Drop)]
pub(crate) struct Finding<'a> {
    pub(crate) kind: Kind,
    pub(crate) name: &'a str,
    pub(crate) sentence: &'a str,
    pub(crate) script: Script,
    pub(crate) seen: Seen,
    pub(crate) runs: u64,
}

/// Finds evidence of a race, and tells it.
pub(crate) fn tell_found<R: Threads + Wait + Clock + Sync + Eprint, N: Network, O: Sink, F: Folder>(
    player: &mut Player<'_, R, N>,
    report: &mut Report<'_, O, F>,
    finding: Finding<'_>,
) -> Result<(), InputFault> {
    let Finding {
        kind,
        name,
        sentence,
        script,
        seen,
        runs,
    } = finding;
    player.count_found();
    let begun = player.passed();
    let until = begun.saturating_add(report.time_for_evidence());
    let found = evidence_of(player, script, seen, runs, until)?;
    report.spend(player.passed().saturating_sub(begun));
    player.give_way();
    report.tell_found(&player.target, kind, name, sentence, found)
}

/// Keeps the reports of what is known before the end, if anything was told since there were this many findings.
pub(crate) fn keep_new<R: Threads + Wait + Clock + Sync + Eprint, N: Network, O: Sink, F: Folder>(
    player: &Player<'_, R, N>,
    report: &mut Report<'_, O, F>,
    turns: &[Turn],
    generated: &Generated,
    told: usize,
) -> Result<(), InputFault> {
    if report.book.told.len() == told {
        return Ok(());
    }
    keep_reports(player, report, turns, generated)
}

/// Keeps the reports of what is known before the end.
pub(crate) fn keep_reports<
    R: Threads + Wait + Clock + Sync + Eprint,
    N: Network,
    O: Sink,
    F: Folder,
>(
    player: &Player<'_, R, N>,
    report: &mut Report<'_, O, F>,
    turns: &[Turn],
    generated: &Generated,
) -> Result<(), InputFault> {
    let state = State {
        tally: player.tally(),
        turns,
        generated: *generated,
        has_ended: false,
    };
    Ok(report.keep_reports(&state)?)
}
