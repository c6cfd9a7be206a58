//! What connects the jobs of these tests.

use crate::store_stream::StoreStream;
use mc_campaign::Connector;
use mc_lane::Wire;
use mc_protocol::{Actor, Sections};
use mc_server::Shared;
use std::alloc::Global;
use std::sync::Wait;
use std::sync::atomic::{AtomicU64, Ordering};
use test_support::{Signal, WaitingStream};

/// Connects to one store, and counts the connections.
#[derive(Drop)]
pub(crate) struct Stores<'s, R: Wait> {
    pub(crate) rt: &'s R,
    pub(crate) alloc: Global,
    pub(crate) store: &'s Shared,
    /// This section of this job gets no connection.
    pub(crate) closed: Option<(u64, Actor)>,
    /// This one gets a connection on which each request is answered with an error.
    pub(crate) refusing: Option<(u64, Actor)>,
    pub(crate) made: AtomicU64,
    pub(crate) released: AtomicU64,
}

impl<'s, R: Wait> Stores<'s, R> {
    /// Connects every section to the store.
    pub(crate) fn honest(rt: &'s R, alloc: Global, store: &'s Shared) -> Self {
        Stores {
            rt,
            alloc,
            store,
            closed: None,
            refusing: None,
            made: AtomicU64::new(0),
            released: AtomicU64::new(0),
        }
    }

    /// How many connections were made.
    pub(crate) fn count(&self) -> u64 {
        self.made.load(Ordering::SeqCst)
    }

    /// How many of them were given back.
    pub(crate) fn released(&self) -> u64 {
        self.released.load(Ordering::SeqCst)
    }
}

impl<'s, R: Wait + Sync> Connector<Wire<StoreStream<'s, R>>> for Stores<'s, R> {
    fn connect(&self, job: u64, actor: Actor) -> Option<Wire<StoreStream<'s, R>>> {
        if self.closed == Some((job, actor)) {
            return None;
        }
        self.made.fetch_add(1, Ordering::SeqCst);
        let refuses = self.refusing == Some((job, actor));
        Some(Wire::new(StoreStream::new(self.rt, self.alloc, self.store, refuses)))
    }

    fn release(&self, streams: Sections<Option<Wire<StoreStream<'s, R>>>>) {
        let Sections { p, a, b } = streams;
        let count = u64::from(p.is_some()) + u64::from(a.is_some()) + u64::from(b.is_some());
        self.released.fetch_add(count, Ordering::SeqCst);
    }
}

/// The signals of a test with two jobs.
#[derive(Drop)]
pub(crate) struct Signals {
    first: Sections<Signal>,
    second: Sections<Signal>,
    /// A connection waited for too long.
    pub(crate) missed: Signal,
}

impl Signals {
    pub(crate) fn new() -> Signals {
        Signals {
            first: three_signals(),
            second: three_signals(),
            missed: Signal::new(),
        }
    }

    /// That a connection of this job and section was written to.
    fn written(&self, job: u64, actor: Actor) -> &Signal {
        if job == 0 {
            self.first.get(actor)
        } else {
            self.second.get(actor)
        }
    }
}

fn three_signals() -> Sections<Signal> {
    Sections {
        p: Signal::new(),
        a: Signal::new(),
        b: Signal::new(),
    }
}

/// Connects two jobs to one store. P of each is read only once P of the other was written to, and a branch only once the other branch
/// was.
#[derive(Drop)]
pub(crate) struct Meeting<'s, R: Wait> {
    pub(crate) rt: &'s R,
    pub(crate) alloc: Global,
    pub(crate) store: &'s Shared,
    pub(crate) signals: &'s Signals,
}

impl<'s, R: Wait + Sync> Connector<Wire<WaitingStream<'s, StoreStream<'s, R>>>> for Meeting<'s, R> {
    fn connect(
        &self,
        job: u64,
        actor: Actor,
    ) -> Option<Wire<WaitingStream<'s, StoreStream<'s, R>>>> {
        let until = match actor {
            Actor::P => self.signals.written(1 - job.min(1), Actor::P),
            Actor::A => self.signals.written(job, Actor::B),
            Actor::B => self.signals.written(job, Actor::A),
        };
        Some(Wire::new(WaitingStream {
            inner: StoreStream::new(self.rt, self.alloc, self.store, false),
            written: self.signals.written(job, actor),
            until,
            missed: &self.signals.missed,
        }))
    }
}
