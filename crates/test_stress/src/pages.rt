//! What takes the answer, and keeps what it is told.
use mc_lane::{Lane, Stream};
use mc_model::{Note, Sent};
use mc_stress::{Evidence, Page};
use std::alloc::Global;
use std::io;
use std::time::Duration;

/// A page in memory.
#[derive(Drop)]
pub(crate) struct Sheet {
    pub(crate) text: Vec<u8>,
    /// Whether nothing can be written.
    pub(crate) is_broken: bool,
    pub(crate) counted: (u64, u64),
    /// The rounds and clients that were told, with the number of the client's requests.
    pub(crate) told: Vec<(u64, u8, usize)>,
    pub(crate) unreached: u64,
    pub(crate) stopped: u64,
    /// How many rounds were told, and how many requests they had.
    pub(crate) played: (u64, usize),
    /// The first round that nothing explains, with its evidence.
    pub(crate) evidence: Option<(u64, Evidence)>,
}

impl Sheet {
    pub(crate) fn new(alloc: Global) -> Self {
        Sheet {
            text: Vec::new(alloc),
            is_broken: false,
            counted: (0, 0),
            told: Vec::new(alloc),
            unreached: 0,
            stopped: 0,
            played: (0, 0),
            evidence: None,
        }
    }
}

impl Page for Sheet {
    fn put(&mut self, text: &[u8]) -> bool {
        !self.is_broken && self.text.extend_from_slice(text).is_ok()
    }

    fn count(&mut self, rounds: u64, unexplained: u64) {
        self.counted = (rounds, unexplained);
    }

    fn tell_played(&mut self, _round: u64, notes: &[(u8, Note)]) {
        let begun = notes
            .iter()
            .filter(|(_client, note)| matches!(note, Note::Begin(_)));
        self.played.0 = self.played.0.saturating_add(1);
        self.played.1 = self.played.1.saturating_add(begun.count());
    }

    fn tell_unexplained(&mut self, round: u64, evidence: Evidence) {
        self.evidence = Some((round, evidence));
    }

    fn tell_unreached(&mut self, _error: &io::Error) {
        self.unreached = self.unreached.saturating_add(1);
    }

    fn tell_client<S: Stream>(
        &mut self,
        round: u64,
        client: u8,
        sent: &[Sent],
        _lane: &Lane<S>,
        _error: Option<io::Error>,
    ) {
        let _ = self.told.push((round, client, sent.len()));
    }

    fn tell_stop(&mut self, round: u64) {
        self.stopped = round;
    }

    fn tell_wait(&mut self, _time: Duration) {}
}
