//! Connections of a campaign that were not made, and what standard error says of them.
use crate::servers::Servers;
use mc_protocol::Actor;
use std::alloc::Global;
use std::fmt::{Display, Error, Formatter, Write};
use std::io::{Eprint, ErrorKind};
use std::sync::{Mutex, Wait};
use std::{io, mem};

// After this many failed connects in a row none is tried.
const MOST_IN_A_ROW: u32 = 64;

/// The connections that jobs of a report didn't get. Standard error tells the first of each server and reason as soon as it fails, and
/// says when `MOST_IN_A_ROW` connects in a row have failed, after which none is tried.
#[derive(Drop)]
pub(crate) struct Failures<'a, R> {
    rt: &'a R,
    alloc: Global,
    servers: Servers<'a>,
    lead: &'static str,
    list: Mutex<Vec<Failure>>,
    row: Mutex<Row>,
}

// The connects that have failed since the last one that didn't.
#[derive(Clone, Copy, Drop)]
struct Row {
    length: u32,
    // The last of those after which no other is tried.
    end: Option<Failure>,
}

/// Jobs in a row, of which each had no connection, and why the first of them had none.
#[derive(Clone, Copy, Drop)]
struct Failure {
    first: u64,
    last: u64,
    // The section that had none.
    section: Actor,
    error: io::Error,
}

impl<'a, R: Wait + Eprint> Failures<'a, R> {
    /// None so far. Each line written while the campaign runs begins with `lead`.
    pub(crate) fn new(rt: &'a R, alloc: Global, servers: Servers<'a>, lead: &'static str) -> Self {
        Failures {
            rt,
            alloc,
            servers,
            lead,
            list: Mutex::new(Vec::new(alloc)),
            row: Mutex::new(Row {
                length: 0,
                end: None,
            }),
        }
    }

    /// Whether no connect is tried any more.
    pub(crate) fn are_too_many(&self) -> bool {
        self.row.lock(self.rt).end.is_some()
    }

    /// Whether no connect is tried for this job. Then it is noted to have no connection, for the reason of the last that was.
    pub(crate) fn end_with(&self, job: u64) -> bool {
        let Some(end) = self.row.lock(self.rt).end else {
            return false;
        };
        let failure = Failure {
            first: job,
            last: job,
            ..end
        };
        let _ = self.list.lock(self.rt).push(failure);
        true
    }

    /// A connect didn't fail.
    pub(crate) fn end_row(&self) {
        self.row.lock(self.rt).length = 0;
    }

    /// A job had no connection. Where there is no memory to note it, the ranges that are written at the end leave it out.
    pub(crate) fn add(&self, job: u64, section: Actor, error: io::Error) {
        let failure = Failure {
            first: job,
            last: job,
            section,
            error,
        };
        if self.note(failure) {
            let unreached = self.unreached(&failure);
            // There is nowhere else to say that this could not be said.
            let _ = eprintln!(self.rt; "{}mcrace: {unreached}", self.lead);
        }
        if self.is_end(failure) {
            let _ = eprintln!(self.rt;
                "{}mcrace: gave up after {MOST_IN_A_ROW} connects in a row failed",
                self.lead
            );
        }
    }

    // Counts a connect that failed, and answers whether it is the one after which no other is tried.
    fn is_end(&self, failure: Failure) -> bool {
        let mut row = self.row.lock(self.rt);
        row.length = row.length.saturating_add(1);
        if row.length < MOST_IN_A_ROW || row.end.is_some() {
            return false;
        }
        row.end = Some(failure);
        true
    }

    // Notes the failure, and answers whether it is the first of its server and reason.
    fn note(&self, failure: Failure) -> bool {
        let mut list = self.list.lock(self.rt);
        let is_first = !list.iter().any(|other| self.are_alike(other, &failure));
        let _ = list.push(failure);
        is_first
    }

    fn unreached(&self, failure: &Failure) -> Unreached<'a> {
        Unreached {
            server: self.servers.of(failure.section),
            error: failure.error,
        }
    }

    // Both are of one server, and for reasons of one kind.
    fn are_alike(&self, one: &Failure, other: &Failure) -> bool {
        one.error.kind() == other.error.kind()
            && self.servers.of(one.section) == self.servers.of(other.section)
    }

    /// Writes to standard error, for each range of jobs in a row that had no connection, which they are, and why; and forgets them.
    pub(crate) fn tell_ranges(&self) {
        let mut list = self.take();
        if list.sort_by_key(|failure| failure.first).is_err() {
            return;
        }
        let mut range: Option<Failure> = None;
        'failures: for failure in list.as_slice() {
            range = match range {
                Some(before) if self.go_on(&before, failure) => Some(Failure {
                    last: failure.last,
                    ..before
                }),
                Some(before) => {
                    self.tell_range(&before);
                    Some(*failure)
                }
                None => Some(*failure),
            };
        }
        if let Some(last) = range {
            self.tell_range(&last);
        }
    }

    // Those that were noted, which are forgotten with it.
    fn take(&self) -> Vec<Failure> {
        let mut list = self.list.lock(self.rt);
        mem::replace(&mut *list, Vec::new(self.alloc))
    }

    // The other one is of the next job, or of the same, at the same server and for the same reason.
    fn go_on(&self, before: &Failure, other: &Failure) -> bool {
        other.first <= before.last.saturating_add(1) && self.are_alike(before, other)
    }

    // Says on standard error which jobs in a row had no connection, and why.
    fn tell_range(&self, range: &Failure) {
        let Failure { first, last, .. } = *range;
        let unreached = self.unreached(range);
        // There is nowhere else to say that this could not be said.
        let _ = if first == last {
            eprintln!(self.rt; "mcrace: {unreached} (job {first})")
        } else {
            eprintln!(self.rt; "mcrace: {unreached} (jobs {first} to {last})")
        };
    }
}

/// A server to which there is no connection, and why.
#[derive(Clone, Copy, Drop)]
pub struct Unreached<'a> {
    /// What was to be HOST:PORT.
    pub server: &'a str,
    pub error: io::Error,
}

impl<'a> Display for Unreached<'a> {
    fn fmt<W: Write>(&self, f: &mut Formatter<W>) -> Result<(), Error> {
        match self.error.kind() {
            ErrorKind::InvalidInput => write!(f, "{}: write HOST:PORT", self.server),
            _ => write!(f, "{}: {}", self.server, self.error),
        }
    }
}
