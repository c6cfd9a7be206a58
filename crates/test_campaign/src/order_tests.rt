//! In which order a campaign's results are kept, and how many are held meanwhile.

ghost use Rattle.std.specs.Prelude.{◌≤◌};

use crate::connectors::Stores;
use crate::store_stream::StoreStream;
use mc_campaign::{
    Bounds, Campaign, CampaignError, Connector, JobOutcome, JobResult, Keeper, Watcher, run_jobs,
};
use mc_lane::{Stream, Wire};
use mc_protocol::{Actor, OutOfMemory, Sections};
use mc_run::FreeGate;
use mc_server::Shared;
use mc_settings::Meeting;
use std::alloc::Global;
use std::sync::Wait;
use std::sync::atomic::{AtomicU64, Ordering};
use std::test::Fail;
use std::thread::Threads;
use test_support::Signal;

/// What the threads of a test tell each other.
#[derive(Drop)]
struct Signs {
    /// The job that ended first.
    first: AtomicU64,
    /// How many ended.
    ended: AtomicU64,
    /// A job after the first ended.
    later: Signal,
    /// The connector said that it is over.
    over: Signal,
    /// A thread waited for too long.
    missed: Signal,
}

impl Signs {
    fn new() -> Signs {
        Signs {
            first: AtomicU64::new(u64::MAX),
            ended: AtomicU64::new(0),
            later: Signal::new(),
            over: Signal::new(),
            missed: Signal::new(),
        }
    }
}

/// How a campaign is held up.
#[derive(Clone, Copy, Drop, PartialEq, Eq)]
enum Manner {
    /// It isn't.
    Free,
    /// Job 0 connects only once another job has ended.
    FirstIsLate,
    /// After job 0 the connector says to the first that asks, which is a worker, that it is over.
    WorkerStops,
    /// It says so to each.
    Over,
}

/// Connects to a store, in one of these manners.
#[derive(Drop)]
struct Held<'s, R: Wait> {
    stores: Stores<'s, R>,
    signs: &'s Signs,
    manner: Manner,
}

impl<'s, R: Wait + Sync> Connector<Wire<StoreStream<'s, R>>> for Held<'s, R> {
    fn connect(&self, job: u64, actor: Actor) -> Option<Wire<StoreStream<'s, R>>> {
        if self.manner == Manner::FirstIsLate && job == 0 {
            self.signs.later.wait(&self.signs.missed);
        }
        self.stores.connect(job, actor)
    }

    fn release(&self, streams: Sections<Option<Wire<StoreStream<'s, R>>>>) {
        self.stores.release(streams);
    }

    fn is_over(&self) -> bool {
        if self.stores.released() == 0 {
            return false;
        }
        match self.manner {
            Manner::Free | Manner::FirstIsLate => false,
            Manner::WorkerStops => {
                let was_asked = self.signs.over.is_raised();
                self.signs.over.raise();
                !was_asked
            }
            Manner::Over => true,
        }
    }
}

/// Hears which jobs end.
#[derive(Drop)]
struct Ear<'s> {
    signs: &'s Signs,
}

impl<'s, S: Stream> Watcher<S> for Ear<'s> {
    fn ended(&mut self, job: u64, _outcome: &JobOutcome<S>) {
        let Signs {
            first,
            ended,
            later,
            ..
        } = self.signs;
        if ended.fetch_add(1, Ordering::SeqCst) == 0 {
            first.store(job, Ordering::SeqCst);
        }
        if job > 0 {
            later.raise();
        }
    }
}

/// Keeps the numbers of the jobs, and how many results were held at most.
#[derive(Drop)]
struct Order<'s> {
    signs: &'s Signs,
    waits: bool,
    jobs: Vec<u64>,
    most_held: u64,
}

impl<'s, S: Stream> Keeper<JobResult<S>> for Order<'s> {
    ghost accepts = { λ _. Unit {0} };

    ghost becomes = { λ _ _ _. Unit {0} };

    fn keep(&mut self, came_to: JobResult<S>) -> Result<(), OutOfMemory> {
        if self.waits {
            self.signs.over.wait(&self.signs.missed);
        }
        let ended = self.signs.ended.load(Ordering::SeqCst);
        let held = ended.saturating_sub(self.jobs.len() as u64);
        self.most_held = self.most_held.max(held);
        self.jobs.push(came_to.job)?;
        Ok(())
    }
}

/// The order of the jobs of a campaign of seed 1 in this manner, with the job that ended first before it, and how many were held.
fn order_of<R: Threads + Wait + Sync>(
    rt: &R,
    alloc: Global,
    manner: Manner,
    jobs: u64,
    workers: u32,
) -> Result<(u64, Vec<u64>, u64), CampaignError>
    requires { workers ≤ 16 }
{
    let store = Shared::new(alloc)?;
    let signs = Signs::new();
    let connector = Held {
        stores: Stores::honest(rt, alloc, &store),
        signs: &signs,
        manner,
    };
    run_order(rt, alloc, &connector, jobs, workers)
}

fn run_order<'s, R: Threads + Wait + Sync>(
    rt: &R,
    alloc: Global,
    connector: &Held<'s, R>,
    jobs: u64,
    workers: u32,
) -> Result<(u64, Vec<u64>, u64), CampaignError>
    requires { workers ≤ 16 }
{
    let signs = connector.signs;
    let campaign = Campaign {
        seed: 1,
        first: 0,
        jobs,
        limit: 1_000_000,
        meeting: Meeting::Each,
        spread: 0,
        name: None,
    };
    let bounds = Bounds {
        unexplained: None,
        has_time: true,
    };
    let keeper = Order {
        signs,
        waits: connector.manner == Manner::WorkerStops,
        jobs: Vec::new(alloc),
        most_held: 0,
    };
    let mut ear = Ear { signs };
    let order = run_jobs(
        rt, alloc, campaign, bounds, workers, connector, &FreeGate, &mut ear, keeper,
    )?;
    let Order {
        jobs,
        most_held,
        ..
    } = order;
    Ok((signs.first.load(Ordering::SeqCst), jobs, most_held))
}

// A job that ends late is kept in its place, and the watcher hears of the others before.
#[test]
fn late_job_is_kept_first(rt: HostRuntime) -> Result<(), Fail> {
    let (first, jobs, _) = order_of(&rt, rt.alloc(), Manner::FirstIsLate, 3, 2)?;
    assert_eq!(rt; first, 1);
    assert_eq!(rt; jobs.as_slice(), [0, 1, 2].as_slice());
    Ok(())
}

// The only worker stops after job 0.
#[test]
fn jobs_of_a_worker_that_stops_are_run(rt: HostRuntime) -> Result<(), Fail> {
    let (_, jobs, _) = order_of(&rt, rt.alloc(), Manner::WorkerStops, 3, 1)?;
    assert_eq!(rt; jobs.as_slice(), [0, 1, 2].as_slice());
    Ok(())
}

#[test]
fn no_job_begins_once_it_is_over(rt: HostRuntime) -> Result<(), Fail> {
    let (_, jobs, _) = order_of(&rt, rt.alloc(), Manner::Over, 3, 1)?;
    assert_eq!(rt; jobs.as_slice(), [0].as_slice());
    let (first, alone, _) = order_of(&rt, rt.alloc(), Manner::Over, 3, 0)?;
    assert_eq!(rt; first, 0);
    assert_eq!(rt; alone.as_slice(), [0].as_slice());
    Ok(())
}

// However many jobs there are, a result is held only until those before it are there.
#[test]
fn few_results_are_held(rt: HostRuntime) -> Result<(), Fail> {
    let (_, jobs, most_held) = order_of(&rt, rt.alloc(), Manner::Free, 40, 2)?;
    assert_eq!(rt; jobs.len(), 40);
    assert!(rt; most_held <= 8);
    Ok(())
}
