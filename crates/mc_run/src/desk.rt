//! The desk over which a thread that is kept is given one branch of a run after the other, so that no run makes a thread of its own.
//!
//! No proof rests on what comes over it: a run whose lanes don't agree with its book isn't judged.

use crate::meeting::{Meeting, touch_stack};
use crate::notebook::Notebook;
use crate::section::{Part, run_section};
use crate::{Branch, Gate, RunError};
use crossbeam_channel::{Receiver, Sender, bounded};
use mc_lane::{Lane, Stream};
use mc_protocol::Actor;
use std::alloc::{AllocError, Global};
use std::sync::{Arc, Mutex, Wait};

/// What both threads of a run share: the book in which they note, and where they meet.
#[derive(Drop)]
pub(crate) struct Table {
    pub(crate) book: Mutex<Notebook<'static>>,
    pub(crate) meeting: Meeting,
}

/// A branch that is to run at a table.
#[derive(Drop)]
pub(crate) struct Task<S: Stream> {
    pub(crate) table: Arc<Table, Global>,
    pub(crate) branch: Branch,
    pub(crate) lane: Lane<S>,
}

impl<S: Stream> Task<S> {
    /// Runs the branch to its end, beside the other one, and answers its lane.
    pub(crate) fn run<G: Gate, R: Wait>(self, rt: &R, alloc: Global, gate: &G) -> Lane<S> {
        let Task {
            table,
            branch,
            lane,
        } = self;
        let actor = match branch {
            Branch::A => Actor::A,
            Branch::B => Actor::B,
        };
        let part = Part::new(actor, lane).with_seat(table.meeting.seat(branch));
        run_section(rt, alloc, &table.book, gate, part)
    }
}

/// The caller's end of a desk. When it is dropped, the other end's thread stops.
#[derive(Drop)]
pub struct Desk<S: Stream> {
    tasks: Sender<Task<S>>,
    lanes: Receiver<Lane<S>>,
}

/// The end of the thread that is kept.
#[derive(Drop)]
pub struct Second<S: Stream> {
    tasks: Receiver<Task<S>>,
    lanes: Sender<Lane<S>>,
}

impl<S: Stream> Desk<S> {
    /// Both ends of a desk. Who waits at one sleeps at once: a thread that looked would keep its processor from the server.
    ///
    /// # Errors
    ///
    /// That memory ran out.
    pub fn new(alloc: Global) -> Result<(Desk<S>, Second<S>), AllocError> {
        let (to_second, tasks) = bounded(alloc, 1)?;
        let (to_desk, lanes) = bounded(alloc, 1)?;
        let desk = Desk {
            tasks: to_second,
            lanes,
        };
        let second = Second {
            tasks,
            lanes: to_desk,
        };
        Ok((desk, second))
    }

    /// Runs `apart` on the thread that is kept and `here` on this one, and answers their lanes in this order.
    ///
    /// # Errors
    ///
    /// That the thread has stopped.
    pub(crate) fn run_both<G: Gate, R: Wait>(
        &self,
        rt: &R,
        alloc: Global,
        gate: &G,
        apart: Task<S>,
        here: Task<S>,
    ) -> Result<(Lane<S>, Lane<S>), RunError> {
        if self.tasks.send(rt, apart).is_err() {
            return Err(RunError::NoThread);
        }
        let here = here.run(rt, alloc, gate);
        match self.lanes.recv(rt) {
            Ok(apart) => Ok((apart, here)),
            Err(_) => Err(RunError::NoThread),
        }
    }
}

impl<S: Stream> Second<S> {
    /// Runs the branches that are given over the desk, on this thread, until the desk is dropped.
    pub fn serve<G: Gate, R: Wait>(self, rt: &R, alloc: Global, gate: &G) {
        let Second { tasks, lanes } = self;
        touch_stack(tasks.len());
        'tasks: for _ in rt.forever() {
            let Ok(task) = tasks.recv(rt) else {
                break;
            };
            drop(lanes.send(rt, task.run(rt, alloc, gate)));
        }
    }
}
