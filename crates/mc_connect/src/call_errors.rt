//! The errors by which reads and writes of connections failed, where they are known beside the connections themselves.
use mc_protocol::{Actor, Sections};
use std::alloc::{AllocError, Global};
use std::io;
use std::io::ErrorKind;
use std::sync::atomic::{AtomicI32, Ordering};
use std::sync::{Arc, Mutex, Wait};

// No error of the system has this number.
const NO_ERROR: i32 = 0;

// The number of the system's error EAGAIN: a call took longer than it may.
const TIMED_OUT: i32 = 11;

/// The error by which the last call of a connection failed that did. It is noted and asked for from any thread.
#[derive(Debug, Drop)]
pub(crate) struct CallError {
    // The system's number of the error.
    number: AtomicI32,
}

impl CallError {
    /// No call has failed.
    pub(crate) fn new() -> Self {
        CallError {
            number: AtomicI32::new(NO_ERROR),
        }
    }

    /// A call failed by this error. One that the system doesn't number isn't noted, unless it is that the call took too long.
    pub(crate) fn note(&self, error: &io::Error) {
        let number = match error.kind() {
            ErrorKind::WouldBlock => TIMED_OUT,
            _ => error.raw_os_error().unwrap_or(NO_ERROR),
        };
        self.number.store(number, Ordering::SeqCst);
    }

    /// The error that was noted, if one was. Its kind is `WouldBlock` if the call took longer than it may.
    pub(crate) fn get(&self) -> Option<io::Error> {
        match self.number.load(Ordering::SeqCst) {
            NO_ERROR => None,
            number => Some(io::Error::from_raw_os_error(number)),
        }
    }
}

/// The connections of jobs that have not ended, from any thread, each with the error by which a call of it failed. They are known here
/// because a lane drops its connection at such an error.
#[derive(Drop)]
pub(crate) struct CallErrors<'a, R> {
    rt: &'a R,
    alloc: Global,
    list: Mutex<Vec<Connected>>,
}

// A connection of a job's section.
#[derive(Drop)]
struct Connected {
    job: u64,
    section: Actor,
    error: Arc<CallError, Global>,
}

impl<'a, R: Wait> CallErrors<'a, R> {
    /// No connection is known.
    pub(crate) fn new(rt: &'a R, alloc: Global) -> Self {
        CallErrors {
            rt,
            alloc,
            list: Mutex::new(Vec::new(alloc)),
        }
    }

    /// A new connection of the job's section is known in place of an earlier one. It is to note in the answer why a call failed.
    pub(crate) fn add(
        &self,
        job: u64,
        section: Actor,
    ) -> Result<Arc<CallError, Global>, AllocError> {
        let error = Arc::new(self.alloc, CallError::new())?;
        let noted = Arc::try_clone(&error)?;
        let mut list = self.list.lock(self.rt);
        list.retain(|one| one.job != job || one.section != section);
        list.push(Connected {
            job,
            section,
            error,
        })?;
        Ok(noted)
    }

    /// Why a call of each section failed, if one did, of a job that has ended. Its connections aren't known any more.
    pub(crate) fn take(&self, job: u64) -> Sections<Option<io::Error>> {
        let mut list = self.list.lock(self.rt);
        let errors = Sections {
            p: error_of(list.as_slice(), job, Actor::P),
            a: error_of(list.as_slice(), job, Actor::A),
            b: error_of(list.as_slice(), job, Actor::B),
        };
        list.retain(|one| one.job != job);
        errors
    }
}

// Why a call of the section's connection failed, if it is known and one did.
fn error_of(list: &[Connected], job: u64, section: Actor) -> Option<io::Error> {
    let found = list
        .iter()
        .find(|one| one.job == job && one.section == section)?;
    found.error.get()
}
