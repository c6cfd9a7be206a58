//! Plays scripts against the server, one run after another.

use crate::beside::Latest;
use crate::clash::Clash;
use crate::clocked::Slowest;
use crate::crowd::{Crowd, Gathered};
use crate::desk::DeskOf;
use crate::health::Health;
use crate::names::Names;
use crate::numbers::Grouped;
use crate::outcome::{Outcome, outcome_of};
use crate::prepared::Prepared;
use crate::progress::Progress;
use crate::seen::Seen;
use crate::tally::Tally;
use crate::text::{COLUMNS, push_lines};
use mc_cli::RunArgs;
use mc_command::{leaves_request, play_kept};
use mc_connect::{Kept, Network};
use mc_rounds::Plan;
use mc_settings::Namespace;
use mc_stress::{Judging, Network as Clients, Stress, play_rounds};
use std::alloc::{AllocError, Global};
use std::fmt::Write;
use std::io;
use std::io::Eprint;
use std::rt::Clock;
use std::sync::Wait;
use std::thread::Threads;
use std::time::{Duration, Instant};

/// The connections to the server, the name of the keys, and what its runs came to.
#[derive(Drop)]
pub(crate) struct Player<'a, R, N: Network> {
    pub(crate) rt: &'a R,
    pub(crate) alloc: Global,
    // Its `reconnect` says whether each run has new connections.
    pub(crate) target: RunArgs<'a>,
    network: &'a mut N,
    kept: Kept<N::Connection>,
    // At its other end a thread runs one branch of each run. If there is none, a run makes a thread.
    desk: Option<DeskOf<N>>,
    slowest: &'a Slowest,
    names: Names,
    /// When the test began.
    pub(crate) begun: Instant,
    /// How long the test may take.
    pub(crate) time: Duration,
    // How long one reply may take.
    limit: Duration,
    pub(crate) health: Health,
    tally: Tally,
    // What the runs of the second thread came to.
    beside: Tally,
    // How many races were found.
    found: u64,
    // How the first failed run did.
    first_failure: Option<String>,
    // Why the first connect failed.
    first_unconnected: Option<io::Error>,
    progress: Option<Progress>,
}

/// What came of several runs of one code.
#[derive(Drop)]
pub(crate) struct Tries {
    /// The run that nothing explains, after which there was none.
    pub(crate) seen: Option<Seen>,
    pub(crate) runs: u64,
    /// What first came that is no reply, or more than replies.
    pub(crate) wrong: Option<String>,
}

impl<'a, R: Threads + Wait + Clock + Sync + Eprint, N: Network> Player<'a, R, N> {
    /// Nothing was played so far.
    pub(crate) fn new(
        rt: &'a R,
        alloc: Global,
        target: RunArgs<'a>,
        network: &'a mut N,
        desk: Option<DeskOf<N>>,
        slowest: &'a Slowest,
        begun: Instant,
        time: Duration,
        columns: Option<usize>,
    ) -> Self {
        let limit = limit_of(&target);
        Player {
            rt,
            alloc,
            target,
            network,
            kept: Kept::new(alloc),
            desk,
            slowest,
            names: Names::new(rt),
            begun,
            time,
            limit,
            health: Health::new(),
            tally: Tally::new(),
            beside: Tally::new(),
            found: 0,
            first_failure: None,
            first_unconnected: None,
            progress: columns.map(Progress::new),
        }
    }

    /// How long the test has taken.
    pub(crate) fn passed(&self) -> Duration {
        self.begun.elapsed(self.rt).unwrap_or(Duration::MAX)
    }

    /// Whether its time is over, or the server gone.
    pub(crate) fn is_over(&self) -> bool {
        self.health.is_gone() || self.passed() >= self.time
    }

    /// Whether what is there answers no requests as a cache does.
    pub(crate) fn is_strange(&self) -> bool {
        self.tally.is_strange()
    }

    /// Plays the code once. After a request without a reply the keys get another name, since the server may still act on it.
    pub(crate) fn play(&mut self, prepared: &mut Prepared) -> Result<Outcome, AllocError> {
        let before = self.passed();
        let Some(code) = prepared.code(self.alloc, self.target.name.as_ref(), &self.names)? else {
            return Ok(Outcome::NotRun);
        };
        let (played, remarks) = play_kept(
            self.rt,
            self.alloc,
            &self.target,
            code,
            &mut *self.network,
            &mut self.kept,
            self.desk.as_ref(),
        )?;
        if leaves_request(&played) {
            self.names.renew();
        }
        let outcome = outcome_of(self.alloc, played, remarks, self.target.how.limit)?;
        let passed = self.passed();
        let took = passed.saturating_sub(before);
        self.health.note(self.rt, &outcome, took, self.limit);
        self.tally.add(&outcome);
        self.keep_first(&outcome)?;
        self.tell_progress(passed);
        Ok(outcome)
    }

    // Keeps how the first failed run did, and why the first connect failed.
    fn keep_first(&mut self, outcome: &Outcome) -> Result<(), AllocError> {
        match outcome {
            Outcome::Failed(failure) if self.first_failure.is_none() => {
                self.first_failure = Some(failure.text.clone()?);
            }
            Outcome::Unconnected(error) if self.first_unconnected.is_none() => {
                self.first_unconnected = Some(*error);
            }
            _ => {}
        }
        Ok(())
    }

    fn tell_progress(&mut self, passed: Duration) {
        let runs = self.tally.runs.saturating_add(self.beside.runs);
        let found = self.found;
        if let Some(progress) = &mut self.progress {
            progress.tell(self.rt, self.alloc, passed, self.time, runs, found);
        }
    }

    /// What its runs came to.
    pub(crate) fn tally(&self) -> Tally {
        Tally {
            passed: self.passed(),
            is_gone: self.health.is_gone(),
            slowest: self.slowest.time(),
            ..self.tally.with(&self.beside)
        }
    }

    /// Takes out how the first failed run did, and why the first connect failed.
    pub(crate) fn take_first(&mut self) -> (Option<String>, Option<io::Error>) {
        (self.first_failure.take(), self.first_unconnected.take())
    }

    /// Counts what the second thread played by now. If the server is gone for it, it is gone.
    pub(crate) fn take_over(&mut self, latest: Latest) {
        let Latest {
            tally,
            first_failure,
            first_unconnected,
            ..
        } = latest;
        self.beside = tally;
        if tally.is_gone {
            self.health.give_up();
        }
        if self.first_failure.is_none() {
            self.first_failure = first_failure;
        }
        if self.first_unconnected.is_none() {
            self.first_unconnected = first_unconnected;
        }
    }

    /// A line for the first failed run, and one for the first failed connect.
    pub(crate) fn failures(&self) -> Result<String, AllocError> {
        let mut text = String::new(self.alloc);
        if let Some(first) = &self.first_failure {
            let failed = Grouped(self.tally().failed);
            write!(text, "failed runs: {failed}; the first:")?;
            push_lines(&mut text, COLUMNS, first.as_str())?;
        }
        if let Some(first) = &self.first_unconnected {
            let failed = Grouped(self.tally().unconnected);
            write!(text, "failed connects: {failed}; the first: {first}\n")?;
        }
        Ok(text)
    }

    /// Takes a failed run out of the count: the server doesn't know what it asked.
    pub(crate) fn take_back_failure(&mut self) {
        self.tally.failed = self.tally.failed.saturating_sub(1);
        if self.tally.failed == 0 {
            self.first_failure = None;
        }
    }

    /// A race was found.
    pub(crate) fn count_found(&mut self) {
        self.found = self.found.saturating_add(1);
    }

    /// Clears the line of progress before something is written.
    pub(crate) fn give_way(&self) {
        if let Some(progress) = &self.progress {
            progress.clear(self.rt);
        }
    }

    /// Plays the code until nothing explains a run: at most `most` times, and not after this time.
    pub(crate) fn play_until_seen(
        &mut self,
        prepared: &mut Prepared,
        most: u64,
        until: Duration,
    ) -> Result<Tries, AllocError> {
        let mut tries = Tries {
            seen: None,
            runs: 0,
            wrong: None,
        };
        'runs: for _ in 0..most {
            if self.health.is_gone() || self.passed() >= until {
                break;
            }
            let outcome = self.play(prepared)?;
            tries.runs = tries.runs.saturating_add(1);
            match outcome {
                Outcome::Unexplained(seen) => {
                    tries.seen = Some(seen);
                    break;
                }
                Outcome::Wrong(text) if tries.wrong.is_none() => tries.wrong = Some(text),
                _ => {}
            }
        }
        Ok(tries)
    }

    /// Gives the connections back, and has the thread at the desk's other end stop.
    pub(crate) fn quit(self) {
        let Player { kept, network, .. } = self;
        kept.quit(network);
    }
}

impl<R: Threads + Wait + Clock + Sync + Eprint, N: Network + Clients> Player<'_, R, N> {
    /// Plays rounds of many clients for this long, or until nothing explains one, or one fails. After a request without a reply the keys
    /// get another name.
    pub(crate) fn play_rounds(
        &mut self,
        plan: &Plan,
        time: Duration,
    ) -> Result<Gathered, AllocError> {
        let name = self.names.with(self.alloc, self.target.name.as_ref())?;
        let limit = self.target.how.limit;
        let stress = Stress {
            plan: *plan,
            name: Namespace::new(name.as_slice()),
            rounds: None,
            time: Some(time),
            keep_going: false,
            judging: Judging {
                limit: Some(limit),
                why: false,
                whole: false,
                smallest: false,
            },
        };
        let mut crowd = Crowd::new(self.alloc, self.target.timeout);
        let standing = play_rounds(self.rt, self.alloc, &stress, &mut *self.network, &mut crowd)?;
        let outcome = crowd.take_outcome(standing);
        self.note_rounds(&crowd, &outcome)?;
        let clash = match crowd.evidence.take() {
            Some(evidence) => Clash::of(self.alloc, evidence, limit)?,
            None => None,
        };
        let has_failed = !matches!(outcome, Outcome::Explained | Outcome::Undecided);
        Ok(Gathered {
            rounds: crowd.rounds,
            clash,
            wrong: outcome.into_wrong(),
            has_failed,
        })
    }

    // Notes what rounds came to.
    fn note_rounds(&mut self, crowd: &Crowd<'_>, outcome: &Outcome) -> Result<(), AllocError> {
        if crowd.leaves_request || matches!(outcome, Outcome::NotRun) {
            self.names.renew();
        }
        let took = if crowd.is_late {
            self.limit
        } else {
            Duration::ZERO
        };
        self.health.note(self.rt, outcome, took, self.limit);
        self.tally.note(outcome);
        self.keep_first(outcome)?;
        let passed = self.passed();
        self.tell_progress(passed);
        Ok(())
    }
}

// How long one reply may take.
fn limit_of(target: &RunArgs<'_>) -> Duration {
    match &target.timeout {
        Some(time) => time.duration(),
        None => Duration::MAX,
    }
}
