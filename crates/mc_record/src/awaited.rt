//! What a connection waits for.
use crate::frames::Frame;
use mc_protocol::{Bytes, OutOfMemory, Verb};
use std::alloc::Global;
use std::collections::VecDeque;

/// Where a request was noted.
#[derive(Clone, Copy, Drop)]
pub(crate) struct Noted {
    /// The number of its client.
    pub(crate) client: u8,
    /// The number of the name that its key had.
    pub(crate) name: u64,
}

/// What the server has to answer, or executes without an answer.
#[derive(Drop)]
pub(crate) struct Awaited {
    pub(crate) frame: Frame,
    /// The keys on which it may act until the reply comes.
    pub(crate) keys: Vec<Bytes>,
    /// Its verb, if it is a request of one key that is answered.
    pub(crate) verb: Option<Verb>,
    pub(crate) noted: Option<Noted>,
    /// Whether it removes all items.
    pub(crate) flushes: bool,
}

impl Awaited {
    /// What acts on no key.
    pub(crate) fn aside(alloc: Global, frame: Frame) -> Self {
        Awaited {
            frame,
            keys: Vec::new(alloc),
            verb: None,
            noted: None,
            flushes: false,
        }
    }

    /// What removes all items.
    pub(crate) fn flush(alloc: Global, frame: Frame) -> Self {
        Awaited {
            flushes: true,
            ..Awaited::aside(alloc, frame)
        }
    }
}

/// What a connection waits for, in the order of its requests.
#[derive(Drop)]
pub(crate) struct Waiting {
    queue: VecDeque<Awaited>,
    // How many of them have a reply.
    replies: u64,
}

impl Waiting {
    /// It waits for nothing.
    pub(crate) fn new(alloc: Global) -> Self {
        Waiting {
            queue: VecDeque::new(alloc),
            replies: 0,
        }
    }

    /// It waits for one more. Answers whether this one was pipelined: it has a reply, and another one was waited for already.
    pub(crate) fn push(&mut self, awaited: Awaited) -> Result<bool, OutOfMemory> {
        let is_answered = awaited.frame != Frame::Silent;
        self.queue.push_back(awaited)?;
        if !is_answered {
            return Ok(false);
        }
        self.replies = self.replies.saturating_add(1);
        Ok(self.replies > 1)
    }

    /// What it waited for first.
    pub(crate) fn pop(&mut self) -> Option<Awaited> {
        let awaited = self.queue.pop_front()?;
        if awaited.frame != Frame::Silent {
            self.replies = self.replies.saturating_sub(1);
        }
        Some(awaited)
    }
}
