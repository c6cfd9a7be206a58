//! What many clients at once came to.

use crate::clash::Clash;
use crate::outcome::{Failure, Outcome};
use mc_cli::Seconds;
use mc_command::failure_text;
use mc_lane::{Lane, Stream};
use mc_model::{Note, Sent};
use mc_protocol::Fault;
use mc_stress::{Evidence, Page, Standing};
use std::alloc::Global;
use std::io;
use std::io::ErrorKind;
use std::time::Duration;

/// What is gathered while rounds are played.
pub(crate) struct Crowd<'a> {
    alloc: Global,
    timeout: Option<Seconds<'a>>,
    /// How many rounds were judged.
    pub(crate) rounds: u64,
    /// Whether a client has a request without a reply.
    pub(crate) leaves_request: bool,
    /// Whether the first client that failed waited too long for a reply.
    pub(crate) is_late: bool,
    /// What shows that nothing explains a round.
    pub(crate) evidence: Option<Evidence>,
    // How the first client that failed did.
    failure: Option<Failure>,
    // What first came that is no reply, or more than replies.
    wrong: Option<String>,
    // Why the first client that got no connection did not.
    unreached: Option<io::Error>,
}

// One call drops its parts. A derived `Drop` would write them out at each end of each function that holds one.
impl Drop for Crowd<'_> {
    fn drop(self) {
        let Crowd {
            alloc: _,
            timeout: _,
            rounds: _,
            leaves_request: _,
            is_late: _,
            evidence: _,
            failure: _,
            wrong: _,
            unreached: _,
        } = self;
    }
}

/// What came of rounds that were played.
#[derive(Drop)]
pub(crate) struct Gathered {
    /// How many were judged.
    pub(crate) rounds: u64,
    /// The requests that nothing explains, after which there was no round.
    pub(crate) clash: Option<Clash>,
    /// What first came that is no reply, or more than replies.
    pub(crate) wrong: Option<String>,
    /// Whether a client failed or got no connection, or there was no thread.
    pub(crate) has_failed: bool,
}

impl<'a> Crowd<'a> {
    /// Nothing was told.
    pub(crate) fn new(alloc: Global, timeout: Option<Seconds<'a>>) -> Crowd<'a> {
        Crowd {
            alloc,
            timeout,
            rounds: 0,
            leaves_request: false,
            is_late: false,
            evidence: None,
            failure: None,
            wrong: None,
            unreached: None,
        }
    }

    /// What rounds that stand so came to, beside what nothing explains.
    pub(crate) fn take_outcome(&mut self, standing: Standing) -> Outcome {
        if let Some(wrong) = self.wrong.take() {
            return Outcome::Wrong(wrong);
        }
        if let Some(failure) = self.failure.take() {
            return Outcome::Failed(failure);
        }
        if let Some(error) = self.unreached {
            return Outcome::Unconnected(error);
        }
        match standing {
            Standing::Good | Standing::Unexplained => Outcome::Explained,
            Standing::Undecided => Outcome::Undecided,
            Standing::NoAnswer | Standing::BadReply => Outcome::NotRun,
        }
    }

    fn keep_wrong(&mut self, text: String) {
        if self.wrong.is_none() {
            self.wrong = Some(text);
        }
    }

    fn keep_failure(&mut self, fault: Fault, error: Option<io::Error>, text: String) {
        if self.failure.is_none() {
            self.is_late = is_late(error);
            self.failure = Some(Failure {
                fault,
                verb: None,
                text,
            });
        }
    }
}

impl Page for Crowd<'_> {
    fn put(&mut self, _text: &[u8]) -> bool {
        true
    }

    fn count(&mut self, rounds: u64, _unexplained: u64) {
        self.rounds = rounds;
    }

    fn tell_played(&mut self, _round: u64, _notes: &[(u8, Note)]) {}

    fn tell_unexplained(&mut self, _round: u64, evidence: Evidence) {
        self.evidence = Some(evidence);
    }

    fn tell_unreached(&mut self, error: &io::Error) {
        self.unreached = Some(*error);
    }

    fn tell_client<S: Stream>(
        &mut self,
        _round: u64,
        client: u8,
        sent: &[Sent],
        lane: &Lane<S>,
        error: Option<io::Error>,
    ) {
        let fault = lane.fault();
        self.leaves_request = self.leaves_request || fault.is_some();
        // Without memory for it, it isn't told.
        let Ok(Some(said)) = failure_text(self.alloc, sent, lane, error, self.timeout) else {
            return;
        };
        match fault {
            None | Some(Fault::BadReply | Fault::TooMuch) => {
                if let Ok(text) = format!(in self.alloc; "client {client}: {said}") {
                    self.keep_wrong(text);
                }
            }
            Some(fault) => {
                // It is told among failed runs.
                if let Ok(text) = format!(in self.alloc; "stress: client {client}: {said}") {
                    self.keep_failure(fault, error, text);
                }
            }
        }
    }

    fn tell_stop(&mut self, _round: u64) {}

    fn tell_wait(&mut self, _time: Duration) {}
}

// Whether a call failed since it took longer than it may.
fn is_late(error: Option<io::Error>) -> bool {
    error.is_some_and(|error| error.kind() == ErrorKind::WouldBlock)
}
