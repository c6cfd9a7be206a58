//! What rounds came to.
ghost use Rattle.std.specs.Prelude.{◌≡◌, ℕ, true, IfOk};
ghost use Rattle.mc_linearize.specs.Verdicts.{IsTrueOfAll};
ghost use Rattle.mc_stress.specs.declared.outcome.Outcome.TheVariants.{NoConnection, NotPlayed};

use crate::Round;
use mc_lane::Stream;
use mc_linearize::{TimelineVerdict, judge_timeline};
use mc_model::Note;
use mc_protocol::{Fault, OutOfMemory};
use mc_timeline::Timeline;
use std::alloc::Global;

/// The most turns for a key if no limit is set, and the round has few requests.
const LEAST_LIMIT: u64 = 1_000_000;

/// How many turns each request adds to a greater limit.
const TURNS_OF_REQUEST: u64 = 100;

/// A round before it is judged.
#[derive(Drop)]
pub(crate) enum Outcome<S: Stream> {
    /// It was played.
    Played(Round<S>),
    /// This client got no connection.
    NoConnection(u8),
    /// No thread could be made for a client.
    NotPlayed,
}

impl<S: Stream> Outcome<S> {
    /// Whether all clients got all replies.
    pub(crate) fn is_done(&self) -> bool
        ensures connected { result ≡ true → (client : ℕ) → self.now ≡ NoConnection client → ⊥ }
        ensures played { result ≡ true → self.now ≡ NotPlayed → ⊥ }
    {
        match self {
            Outcome::Played(round) => round.played.iter().all(|one| one.ended.is_none()),
            Outcome::NoConnection(_) | Outcome::NotPlayed => false,
        }
    }
}

/// A round with the verdict on it.
#[derive(Drop)]
pub(crate) struct JudgedRound {
    pub(crate) timeline: Timeline,
    /// The clients that failed.
    pub(crate) failed: Vec<(u8, Fault)>,
    pub(crate) verdict: TimelineVerdict,
}

/// What a round counts as. Each is of one class.
#[derive(Clone, Copy, Debug, PartialEq, Eq)]
pub enum RoundClass {
    /// An order explains it, and no client failed.
    Explained,
    /// No order explains it.
    Unexplained,
    /// It is undecided and no client failed, or it has no verdict.
    Other,
    /// A client failed, and the round isn't unexplained.
    Failed,
}

/// How rounds stand, from the best to the worst. Several stand as the worst of them.
#[derive(Clone, Copy, Debug, PartialEq, Eq)]
pub enum Standing {
    /// All are explained, and all clients got all replies.
    Good,
    /// One is undecided, and all clients got all replies.
    Undecided,
    /// A client failed, a round was not played or has no verdict, or not all could be written.
    NoAnswer,
    /// A client got what is no reply to its request.
    BadReply,
    /// Nothing explains one.
    Unexplained,
}

impl Standing {
    // Its place among them, from the best.
    fn rank(self) -> u8 {
        match self {
            Standing::Good => 0,
            Standing::Undecided => 1,
            Standing::NoAnswer => 2,
            Standing::BadReply => 3,
            Standing::Unexplained => 4,
        }
    }

    /// Whether it is worse than the other.
    pub(crate) fn is_worse_than(self, other: Standing) -> bool {
        self.rank() > other.rank()
    }

    /// Whether it ends the rounds, unless they are to go on.
    pub(crate) fn is_end(self) -> bool {
        self.is_worse_than(Standing::Undecided)
    }
}

impl JudgedRound {
    /// Judges a round. The search takes at most `limit` turns for each key, if there is a limit.
    pub(crate) fn new(
        alloc: Global,
        timeline: Timeline,
        failed: Vec<(u8, Fault)>,
        limit: Option<u64>,
    ) -> Result<Self, OutOfMemory>
        ensures is_true { IfOk result (λ round. IsTrueOfAll timeline round.verdict) }
        ensures timeline { IfOk result (λ round. round.timeline ≡ timeline) }
        ensures failed { IfOk result (λ round. round.failed ≡ failed) }
    {
        let limit = limit.unwrap_or(limit_for(timeline.notes()));
        let (verdict, _turns) = judge_timeline(alloc, &timeline, limit)?;
        Ok(JudgedRound {
            timeline,
            failed,
            verdict,
        })
    }

    /// What it counts as.
    pub(crate) fn class(&self) -> RoundClass {
        match &self.verdict {
            TimelineVerdict::Unexplained(_) => RoundClass::Unexplained,
            _ if !self.failed.is_empty() => RoundClass::Failed,
            TimelineVerdict::Explained(_) => RoundClass::Explained,
            TimelineVerdict::Undecided(_) => RoundClass::Other,
        }
    }

    /// How it stands.
    pub(crate) fn standing(&self) -> Standing {
        match &self.verdict {
            TimelineVerdict::Unexplained(_) => Standing::Unexplained,
            _ if has_bad_reply(self.failed.as_slice()) => Standing::BadReply,
            _ if !self.failed.is_empty() => Standing::NoAnswer,
            TimelineVerdict::Undecided(_) => Standing::Undecided,
            TimelineVerdict::Explained(_) => Standing::Good,
        }
    }
}

// Whether a client failed as it got what is no reply.
fn has_bad_reply(failed: &[(u8, Fault)]) -> bool {
    failed.iter().any(|(_, fault)| *fault == Fault::BadReply)
}

/// The most turns for each key of a round, if no other limit is set.
pub(crate) fn limit_for(notes: &[(u8, Note)]) -> u64 {
    let mut requests = 0u64;
    'notes: for (_client, note) in notes {
        if let Note::Begin(_) = note {
            requests = requests.saturating_add(1);
        }
    }
    TURNS_OF_REQUEST.saturating_mul(requests).max(LEAST_LIMIT)
}
