//! What was told of a finding.

use crate::blame::Blame;
use crate::evidence::Found;
use crate::rounds::FoundRounds;
use mc_history::print_history;
use mc_rounds::Plan;
use mc_timeline::print_timeline;
use std::alloc::{AllocError, Global};

/// What was found.
#[derive(Clone, Copy, PartialEq, Eq)]
pub(crate) enum Kind {
    /// A race that a script of the table shows.
    Race,
    /// A race that a generated script shows.
    Generated,
    /// A race that a round of many clients shows.
    Rounds,
    /// A verb that is answered wrongly without a race.
    Alone,
    /// What is no reply.
    Reply,
}

/// What was told of a finding.
pub(crate) struct Told {
    pub(crate) kind: Kind,
    /// The name of the race or of the verb, `generated-JOB` or `stress`.
    pub(crate) name: String,
    /// What was printed.
    pub(crate) text: Vec<u8>,
    pub(crate) evidence: Option<Evidence>,
}

// One call drops its parts. A derived `Drop` would write them out at each end of each function that holds one.
impl Drop for Told {
    fn drop(self) {
        let Told {
            kind: _,
            name: _,
            text: _,
            evidence: _,
        } = self;
    }
}

/// What is played to see a finding again.
pub(crate) enum Again {
    /// The text of a script.
    Script(Vec<u8>),
    /// Rounds.
    Rounds(Plan),
}

// One call drops its parts.
impl Drop for Again {
    fn drop(self) {
        match self {
            Again::Script(_) | Again::Rounds(_) => {}
        }
    }
}

/// What shows a finding.
pub(crate) struct Evidence {
    pub(crate) again: Again,
    /// The text of a run's history, or of the timeline of a key.
    pub(crate) history: Vec<u8>,
    /// How many of the runs, or of the rounds, showed it.
    pub(crate) times: u64,
    pub(crate) runs: u64,
    pub(crate) blame: Option<Blame>,
}

// One call drops its parts.
impl Drop for Evidence {
    fn drop(self) {
        let Evidence {
            again: _,
            history: _,
            times: _,
            runs: _,
            blame: _,
        } = self;
    }
}

impl Evidence {
    /// The evidence as it is told.
    pub(crate) fn of(alloc: Global, found: Found) -> Result<Evidence, AllocError> {
        let Found {
            script,
            shown,
            times,
            runs,
        } = found;
        let blame = Blame::of(alloc, &shown)?;
        let mut history = Vec::new(alloc);
        print_history(&shown.history, &mut history)?;
        Ok(Evidence {
            again: Again::Script(script),
            history,
            times,
            runs,
            blame,
        })
    }

    /// The evidence of rounds.
    pub(crate) fn of_rounds(alloc: Global, found: &FoundRounds) -> Result<Evidence, AllocError> {
        let mut history = Vec::new(alloc);
        print_timeline(&found.clash.timeline, &mut history)?;
        Ok(Evidence {
            again: Again::Rounds(found.plan),
            history,
            times: found.times,
            runs: found.rounds,
            blame: None,
        })
    }
}

/// The name of such a finding's files, without their extensions.
pub(crate) fn file_name(alloc: Global, kind: Kind, name: &str) -> Result<String, AllocError> {
    let (before, after) = match kind {
        Kind::Race | Kind::Rounds => ("", "-1"),
        Kind::Generated | Kind::Reply => ("", ""),
        Kind::Alone => ("alone-", ""),
    };
    format!(in alloc; "{before}{name}{after}")
}
