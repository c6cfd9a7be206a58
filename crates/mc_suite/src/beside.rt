//! Generated scripts that a second thread plays while the first one plays the scripts of races.

use crate::finding::keep_new;
use crate::folder::Folder;
use crate::generated::{Generated, Tried, tell_tried, try_next};
use crate::player::Player;
use crate::report::Report;
use crate::tally::Tally;
use crate::turns::Turn;
use crate::verbs::Unsupported;
use mc_answers::{InputFault, Sink};
use mc_connect::Network;
use std::alloc::{AllocError, Global};
use std::io;
use std::io::Eprint;
use std::rt::Clock;
use std::sync::{Mutex, Wait};
use std::thread::{Threads, available_parallelism};

// Two scripts are played at once on this many processors: each has two branches.
const LEAST_PROCESSORS: usize = 4;

// The most scripts that wait to be told. Others are counted.
const MOST_NEWS: usize = 4;

/// What the second thread has for the first one.
#[derive(Drop)]
struct Papers {
    news: Vec<Tried>,
    // How many scripts that nothing explains found no room in the news.
    untold: u64,
    // The number of the next script, and how many were played.
    job: u64,
    count: u64,
    tally: Tally,
    first_failure: Option<String>,
    first_unconnected: Option<io::Error>,
    // Whether the first thread is done.
    is_closed: bool,
    is_short: bool,
}

/// Where the second thread leaves what it found.
#[derive(Drop)]
pub(crate) struct Beside {
    papers: Mutex<Papers>,
}

/// What came of the second thread's scripts since the last look.
#[derive(Drop)]
pub(crate) struct Latest {
    job: u64,
    count: u64,
    pub(crate) tally: Tally,
    pub(crate) first_failure: Option<String>,
    pub(crate) first_unconnected: Option<io::Error>,
    // How many scripts that nothing explains aren't told.
    untold: u64,
}

impl Beside {
    /// Nothing was played so far.
    pub(crate) fn new(alloc: Global) -> Beside {
        Beside {
            papers: Mutex::new(Papers {
                news: Vec::new(alloc),
                untold: 0,
                job: 0,
                count: 0,
                tally: Tally::new(),
                first_failure: None,
                first_unconnected: None,
                is_closed: false,
                is_short: false,
            }),
        }
    }

    /// Has the second thread end after the script that it plays.
    pub(crate) fn close<R: Wait>(&self, rt: &R) {
        self.papers.lock(rt).is_closed = true;
    }

    fn is_closed<R: Wait>(&self, rt: &R) -> bool {
        self.papers.lock(rt).is_closed
    }

    // What the second thread has played by now.
    fn put<R: Threads + Wait + Clock + Sync + Eprint, N: Network>(
        &self,
        player: &mut Player<'_, R, N>,
        generated: &Generated,
        tried: Option<Tried>,
    ) -> Result<(), AllocError> {
        let (failure, unconnected) = player.take_first();
        let mut papers = self.papers.lock(player.rt);
        papers.job = generated.job;
        papers.count = generated.count;
        papers.tally = player.tally();
        if failure.is_some() {
            papers.first_failure = failure;
        }
        if unconnected.is_some() {
            papers.first_unconnected = unconnected;
        }
        match tried {
            Some(tried) if tried.is_news() => papers.add(tried),
            _ => Ok(()),
        }
    }

    /// Memory ran out for the second thread.
    pub(crate) fn fail<R: Wait>(&self, rt: &R) {
        self.papers.lock(rt).is_short = true;
    }

    // The next script to tell.
    fn take<R: Wait>(&self, rt: &R) -> Option<Tried> {
        let mut papers = self.papers.lock(rt);
        if papers.news.is_empty() {
            return None;
        }
        Some(papers.news.remove(0))
    }

    fn latest<R: Wait>(&self, rt: &R) -> Result<Latest, AllocError> {
        let mut papers = self.papers.lock(rt);
        if papers.is_short {
            return Err(AllocError);
        }
        let untold = papers.untold;
        papers.untold = 0;
        Ok(Latest {
            job: papers.job,
            count: papers.count,
            tally: papers.tally,
            first_failure: papers.first_failure.take(),
            first_unconnected: papers.first_unconnected.take(),
            untold,
        })
    }
}

impl Papers {
    fn add(&mut self, tried: Tried) -> Result<(), AllocError> {
        if self.news.len() < MOST_NEWS {
            self.news.push(tried)?;
        } else if tried.is_unexplained() {
            self.untold = self.untold.saturating_add(1);
        }
        Ok(())
    }
}

/// Whether two scripts are to be played at once.
pub(crate) fn has_processors<R: Threads>(rt: &R) -> bool {
    match available_parallelism(rt) {
        Ok(count) => count.get() >= LEAST_PROCESSORS,
        Err(_) => false,
    }
}

/// Plays generated scripts until the first thread is done, or the time is over.
pub(crate) fn play_beside<R: Threads + Wait + Clock + Sync + Eprint, N: Network>(
    player: &mut Player<'_, R, N>,
    unsupported: &Unsupported,
    generated: Generated,
    beside: &Beside,
) {
    if play_until_closed(player, unsupported, generated, beside).is_err() {
        beside.fail(player.rt);
    }
}

fn play_until_closed<R: Threads + Wait + Clock + Sync + Eprint, N: Network>(
    player: &mut Player<'_, R, N>,
    unsupported: &Unsupported,
    generated: Generated,
    beside: &Beside,
) -> Result<(), AllocError> {
    let mut generated = generated;
    player.target.reconnect = false;
    'scripts: for _script in 0..u64::MAX {
        if player.is_over() || beside.is_closed(player.rt) {
            break;
        }
        let tried = try_next(player, unsupported, &mut generated)?;
        beside.put(player, &generated, tried)?;
    }
    Ok(())
}

/// Tells what the second thread found since the last look, and counts what it played.
pub(crate) fn tell_news<R: Threads + Wait + Clock + Sync + Eprint, N: Network, O: Sink, F: Folder>(
    player: &mut Player<'_, R, N>,
    report: &mut Report<'_, O, F>,
    generated: &mut Generated,
    turns: &mut Vec<Turn>,
    beside: &Beside,
) -> Result<(), InputFault> {
    let latest = beside.latest(player.rt)?;
    generated.job = latest.job;
    generated.count = latest.count;
    generated.unexplained = generated.unexplained.saturating_add(latest.untold);
    player.take_over(latest);
    'news: for _ in 0..MOST_NEWS {
        let Some(tried) = beside.take(player.rt) else {
            break;
        };
        let told = report.book.told.len();
        tell_tried(player, report, generated, turns, tried)?;
        keep_new(player, report, turns.as_slice(), generated, told)?;
    }
    Ok(())
}
