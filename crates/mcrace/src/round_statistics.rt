//! The flag `--stats` of `stress`.

use mc_command::Replies;
use mc_model::Note;
use mc_stress::sent_by;
use std::alloc::{AllocError, Global};
use std::fmt::{Display, Error, Formatter, Write};
use std::time::Duration;

/// How many rounds were played, in which time, and how their requests were answered.
#[derive(Clone, Copy, Drop)]
pub struct RoundStatistics {
    rounds: u64,
    requests: u64,
    time: Duration,
    replies: Replies,
}

impl RoundStatistics {
    /// Of no rounds.
    pub fn new() -> Self {
        RoundStatistics {
            rounds: 0,
            requests: 0,
            time: Duration::ZERO,
            replies: Replies::new(),
        }
    }

    /// A round more of as many clients, in which this was noted.
    ///
    /// # Errors
    ///
    /// That memory ran out: then not all its requests are counted.
    pub fn add(
        &mut self,
        alloc: Global,
        clients: u8,
        notes: &[(u8, Note)],
    ) -> Result<(), AllocError> {
        self.rounds = self.rounds.saturating_add(1);
        'clients: for client in 0..clients {
            let sent = sent_by(alloc, client, notes)?;
            self.requests = self.requests.saturating_add(sent.len() as u64);
            self.replies.add_all(sent.as_slice());
        }
        Ok(())
    }

    /// Keeps how long the rounds took.
    pub fn end(&mut self, time: Duration) {
        self.time = time;
    }
}

/// A line of the rounds, and one of each verb that was asked; or none if no round was played.
impl Display for RoundStatistics {
    fn fmt<W: Write>(&self, f: &mut Formatter<W>) -> Result<(), Error> {
        let RoundStatistics {
            rounds,
            requests,
            time,
            replies,
        } = self;
        if *rounds == 0 {
            return Ok(());
        }
        let noun = if *rounds == 1 { "round" } else { "rounds" };
        let milliseconds = time.as_millis();
        let rate = rate(*requests, milliseconds);
        write!(
            f,
            "mcrace: {rounds} {noun}, {requests} requests in {milliseconds} ms, {rate} a second\n{replies}"
        )
    }
}

// How many of them that is a second. In less than a millisecond it is as if they took one.
fn rate(count: u64, milliseconds: u128) -> u128 {
    let thousands = u128::from(count) * 1_000;
    match milliseconds {
        0 => thousands,
        milliseconds => thousands / milliseconds,
    }
}
