//! That each call of each job of a campaign passes the campaign's gate.

ghost use Rattle.std.specs.Prelude.{◌≤◌};

use crate::connectors::Stores;
use crate::memory::has_memory;
use mc_campaign::{JobOutcome, Report, run_campaign};
use mc_core::{Event, World};
use mc_lane::Stream;
use mc_protocol::Actor;
use mc_run::Gate;
use mc_server::Shared;
use std::alloc::{AllocError, Global};
use std::sync::Wait;
use std::sync::atomic::{AtomicU64, Ordering};
use std::test::Fail;
use std::thread::Threads;

/// A gate that counts the calls that come to it, and those that are behind it.
#[derive(Drop)]
struct Counts {
    before: AtomicU64,
    after: AtomicU64,
}

impl Gate for Counts {
    fn before(&self, _actor: Actor, _call: u32) {
        self.before.fetch_add(1, Ordering::SeqCst);
    }

    fn after(&self, _actor: Actor, _call: u32) {
        self.after.fetch_add(1, Ordering::SeqCst);
    }
}

#[test]
fn the_calls_of_all_jobs_pass_the_gate(rt: HostRuntime) -> Result<(), Fail> {
    assert!(rt; pass(&rt, rt.alloc(), 0)?);
    assert!(rt; pass(&rt, rt.alloc(), 2)?);
    Ok(())
}

/// Whether each call that three jobs make passes the gate once.
fn pass<R: Threads + Wait + Sync>(rt: &R, alloc: Global, workers: u32) -> Result<bool, Fail>
    requires { workers ≤ 16 }
{
    let store = Shared::new(alloc)?;
    let connector = Stores::honest(rt, alloc, &store);
    let gate = Counts {
        before: AtomicU64::new(0),
        after: AtomicU64::new(0),
    };
    let report = run_campaign(rt, alloc, 1, 3, workers, 1_000_000, &connector, &gate)?;
    Ok(are_calls(&report, &gate)?)
}

/// Whether the gate counted the calls of the report's jobs, of which there are some. More of them are an error: where memory runs out for
/// what a worker sends, its job is run once more.
fn are_calls<S: Stream>(report: &Report<S>, gate: &Counts) -> Result<bool, AllocError> {
    has_memory(report)?;
    let calls = calls_of(report);
    let before = gate.before.load(Ordering::SeqCst);
    if before > calls {
        return Err(AllocError);
    }
    Ok(calls > 0 && before == calls && gate.after.load(Ordering::SeqCst) == calls)
}

/// How many calls were noted to begin in the jobs.
fn calls_of<S: Stream>(report: &Report<S>) -> u64 {
    let mut calls: u64 = 0;
    for result in report.results.as_slice() {
        if let JobOutcome::Ran { run, .. } = &result.outcome {
            calls = calls.wrapping_add(begun_in(&run.world));
        }
    }
    calls
}

fn begun_in(world: &World) -> u64 {
    let begun = world.notes().iter().filter(|noted| noted.1 == Event::Begin);
    begun.count() as u64
}
