//! Rounds that wait to be judged, and what the judged ones came to.

use crate::evidence::{Report, judge_round};
use crate::outcome::{Outcome, RoundClass, Standing};
use crate::settings::Judging;
use crate::totals::Totals;
use itoa::Buffer;
use mc_lane::Stream;
use mc_protocol::{OutOfMemory, append_all};
use std::alloc::{AllocError, Global};
use std::sync::{Condvar, Mutex, Wait};

/// At most this many rounds wait to be judged; then the clients wait.
const MOST_WAITING: usize = 2;

/// What the round with this number came to.
#[derive(Drop)]
pub(crate) struct Numbered {
    pub(crate) number: u64,
    pub(crate) report: Report,
}

/// What the desk has.
#[derive(Drop)]
struct Papers<S: Stream> {
    waiting: Vec<(u64, Outcome<S>)>,
    /// Whether no other round comes.
    is_closed: bool,
    /// Reports that wait for one of an earlier round.
    early: Vec<Numbered>,
    totals: Totals,
    /// How the rounds stand that were counted.
    standing: Standing,
    /// The first of those that stand so, unless all are good, until it is taken.
    found: Option<Numbered>,
    /// Whether memory ran out.
    is_short: bool,
}

/// What all rounds came to.
#[derive(Clone, Copy, Debug, PartialEq, Eq)]
pub(crate) struct Summary {
    pub(crate) totals: Totals,
    pub(crate) standing: Standing,
}

/// A desk at which rounds are judged while others are played.
#[derive(Drop)]
pub(crate) struct Desk<S: Stream> {
    alloc: Global,
    judging: Judging,
    keep_going: bool,
    papers: Mutex<Papers<S>>,
    news: Condvar,
}

impl<S: Stream> Desk<S> {
    /// A desk without rounds.
    pub(crate) fn new(alloc: Global, judging: Judging, keep_going: bool) -> Self {
        Desk {
            alloc,
            judging,
            keep_going,
            papers: Mutex::new(Papers {
                waiting: Vec::new(alloc),
                is_closed: false,
                early: Vec::new(alloc),
                totals: Totals::new(),
                standing: Standing::Good,
                found: None,
                is_short: false,
            }),
            news: Condvar::new(),
        }
    }

    /// Lays a round on the desk, once fewer than two wait. They are counted from 1.
    pub(crate) fn put<R: Wait>(
        &self,
        rt: &R,
        number: u64,
        outcome: Outcome<S>,
    ) -> Result<(), OutOfMemory> {
        let keep_going = self.keep_going;
        let papers = self.papers.lock(rt);
        let mut papers = self.news.wait_while(rt, papers, |papers| {
            papers.waiting.len() >= MOST_WAITING && !papers.are_over(keep_going)
        });
        papers.waiting.push((number, outcome))?;
        drop(papers);
        self.news.notify_all();
        Ok(())
    }

    /// Says that no other round comes.
    pub(crate) fn close<R: Wait>(&self, rt: &R) {
        self.papers.lock(rt).is_closed = true;
        self.news.notify_all();
    }

    /// Whether no other round is to be played.
    pub(crate) fn is_enough<R: Wait>(&self, rt: &R) -> bool {
        self.papers.lock(rt).are_over(self.keep_going)
    }

    /// Judges rounds until no other comes.
    pub(crate) fn judge_all<R: Wait>(&self, rt: &R) {
        for _ in rt.forever() {
            let Some((number, outcome)) = self.take(rt) else {
                return;
            };
            self.judge(rt, number, outcome);
        }
    }

    /// Judges the rounds that wait.
    pub(crate) fn judge_waiting<R: Wait>(&self, rt: &R) {
        for _ in 0..MOST_WAITING {
            if self.is_enough(rt) {
                return;
            }
            let first = take_first(&mut self.papers.lock(rt).waiting);
            if let Some((number, outcome)) = first {
                self.judge(rt, number, outcome);
            }
        }
    }

    // The round that waits longest, or nothing if none is to be judged and no other comes.
    fn take<R: Wait>(&self, rt: &R) -> Option<(u64, Outcome<S>)> {
        let keep_going = self.keep_going;
        let papers = self.papers.lock(rt);
        let mut papers = self.news.wait_while(rt, papers, |papers| {
            papers.waiting.is_empty() && !papers.is_closed && !papers.are_over(keep_going)
        });
        let first = if papers.are_over(keep_going) {
            None
        } else {
            take_first(&mut papers.waiting)
        };
        drop(papers);
        self.news.notify_all();
        first
    }

    // Judges a round, and counts it once the earlier ones are.
    fn judge<R: Wait>(&self, rt: &R, number: u64, outcome: Outcome<S>) {
        let report = report_of(self.alloc, outcome, self.judging);
        let mut papers = self.papers.lock(rt);
        match report {
            Ok(report) => papers.file(Numbered { number, report }, self.keep_going),
            Err(_) => papers.is_short = true,
        }
    }

    /// Takes the round that is shown: the first of those that stand worst, unless all are good. A round that nothing explains is taken
    /// once, and no other follows it.
    pub(crate) fn take_found<R: Wait>(&self, rt: &R) -> Option<Numbered> {
        self.papers.lock(rt).found.take()
    }

    /// Takes the first round that nothing explains, if it was found and not taken before.
    pub(crate) fn take_unexplained<R: Wait>(&self, rt: &R) -> Option<Numbered> {
        let mut papers = self.papers.lock(rt);
        if papers.standing == Standing::Unexplained {
            papers.found.take()
        } else {
            None
        }
    }

    /// What all rounds came to so far.
    ///
    /// # Errors
    ///
    /// That memory ran out.
    pub(crate) fn summary<R: Wait>(&self, rt: &R) -> Result<Summary, OutOfMemory> {
        let papers = self.papers.lock(rt);
        if papers.is_short {
            return Err(AllocError);
        }
        Ok(Summary {
            totals: papers.totals,
            standing: papers.standing,
        })
    }
}

impl<S: Stream> Papers<S> {
    // Whether no other round is judged or played.
    fn are_over(&self, keep_going: bool) -> bool {
        self.is_short || self.is_last(keep_going)
    }

    // Whether the last round that was counted ends them.
    fn is_last(&self, keep_going: bool) -> bool {
        self.standing.is_end() && !keep_going
    }

    // Counts a report, and those that waited for it.
    fn file(&mut self, report: Numbered, keep_going: bool) {
        if self.early.push(report).is_err() {
            self.is_short = true;
            return;
        }
        'reports: for _ in 0..self.early.len() {
            match self.take_next() {
                Some(next) => self.count(next, keep_going),
                None => return,
            }
        }
    }

    // The report on the round after those that were counted, if it is there.
    fn take_next(&mut self) -> Option<Numbered> {
        let next = self.totals.rounds.saturating_add(1);
        let place = self.early.iter().position(|report| report.number == next)?;
        Some(self.early.remove(place))
    }

    // Counts the report on the next round, unless an earlier one was the last.
    fn count(&mut self, next: Numbered, keep_going: bool) {
        if self.is_last(keep_going) {
            return;
        }
        self.totals.add(next.report.class);
        let standing = next.report.standing;
        if standing.is_worse_than(self.standing) {
            self.standing = standing;
            self.found = Some(next);
        }
    }
}

// The first of them, which is taken out.
fn take_first<S: Stream>(waiting: &mut Vec<(u64, Outcome<S>)>) -> Option<(u64, Outcome<S>)> {
    if waiting.is_empty() {
        return None;
    }
    Some(waiting.remove(0))
}

// What a round came to.
fn report_of<S: Stream>(
    alloc: Global,
    outcome: Outcome<S>,
    judging: Judging,
) -> Result<Report, OutOfMemory> {
    match outcome {
        Outcome::Played(round) => match judge_round(alloc, round, judging)? {
            Some(report) => Ok(report),
            None => without_verdict(alloc, &[b"not run\n"]),
        },
        Outcome::NoConnection(client) => {
            let mut client_text = Buffer::new();
            let client = client_text.format(client).as_bytes();
            without_verdict(alloc, &[b"no connection ", client, b"\n"])
        }
        Outcome::NotPlayed => without_verdict(alloc, &[b"not run\n"]),
    }
}

// The report on a round without a verdict, of which this is written.
fn without_verdict(alloc: Global, pieces: &[&[u8]]) -> Result<Report, OutOfMemory> {
    let mut text = Vec::new(alloc);
    append_all(&mut text, pieces)?;
    Ok(Report {
        class: RoundClass::Other,
        standing: Standing::NoAnswer,
        evidence: None,
        text,
    })
}
