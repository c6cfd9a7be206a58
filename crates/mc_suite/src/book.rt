//! What is known of a test so far, from which its reports are made.

use crate::generated::Generated;
use crate::race::Race;
use crate::selection::Selection;
use crate::tally::Tally;
use crate::told::{Kind, Told};
use crate::turns::Turn;
use crate::verbs::Unsupported;
use std::time::Duration;

/// What is tested, and what was told of it.
#[derive(Drop)]
pub(crate) struct Book<'a> {
    /// The version of this program.
    pub(crate) program: &'a str,
    pub(crate) server: &'a str,
    /// What the server answers to `version`.
    pub(crate) version: Option<String>,
    /// Why the server couldn't be reached.
    pub(crate) fault: Option<String>,
    pub(crate) seed: u64,
    /// How long the test may take.
    pub(crate) time: Duration,
    pub(crate) selection: Selection<'a>,
    pub(crate) told: Vec<Told>,
    /// How many verbs were asked alone.
    pub(crate) asked: usize,
    pub(crate) unsupported: Unsupported,
    /// Whether a file or standard output couldn't be written, or memory ran out.
    pub(crate) has_failed: bool,
}

impl Book<'_> {
    /// How many races were found.
    pub(crate) fn races(&self) -> u64 {
        let mut races = 0u64;
        'told: for told in &self.told {
            if matches!(told.kind, Kind::Race | Kind::Generated | Kind::Rounds) {
                races = races.saturating_add(1);
            }
        }
        races
    }

    /// Whether a race was found that a script shows.
    pub(crate) fn has_script(&self) -> bool {
        self.told
            .iter()
            .any(|told| matches!(told.kind, Kind::Race | Kind::Generated))
    }

    /// What was told under this name.
    pub(crate) fn told_of(&self, kind: Kind, name: &str) -> Option<&Told> {
        'told: for told in &self.told {
            if told.kind == kind && told.name.as_str() == name {
                return Some(told);
            }
        }
        None
    }

    /// The exit status, if the test ends in this state.
    pub(crate) fn status(&self, state: &State<'_>) -> u8 {
        let is_tested = !self.has_failed && !state.turns.is_empty();
        let generated = &state.generated;
        let has_unexplained = generated.unexplained > 0 || generated.rounds.is_found;
        let has_found = !self.told.is_empty() || has_unexplained;
        state.tally.status(has_found, is_tested)
    }
}

/// How far the test is.
#[derive(Clone, Copy)]
pub(crate) struct State<'a> {
    pub(crate) tally: Tally,
    pub(crate) turns: &'a [Turn],
    pub(crate) generated: Generated,
    pub(crate) has_ended: bool,
}

impl State<'_> {
    /// How many runs the scripts of the race had. If none, it wasn't tried.
    pub(crate) fn runs_of(&self, race: &Race) -> u64 {
        let mut runs = 0u64;
        'turns: for turn in self.turns {
            if turn.race.name == race.name {
                runs = runs.saturating_add(turn.runs);
            }
        }
        runs
    }

    /// The fewest runs of a script whose race wasn't found, if there is such a script.
    pub(crate) fn least_runs(&self) -> Option<u64> {
        let mut least = None;
        'turns: for turn in self.turns {
            if !turn.is_found {
                least = Some(least.unwrap_or(u64::MAX).min(turn.runs));
            }
        }
        least
    }
}
