//! The text that is written, as long as a `history 3` may be.
use mc_protocol::OutOfMemory;
use mc_timeline::{OPERATIONS_LIMIT, TIMELINE_KEYS_LIMIT};
use std::alloc::Global;
use std::mem;

/// How many bytes the text may have before its last two lines.
const BYTES_LIMIT: u64 = 67_108_000;

/// The line that says that it has as much as it may have.
const FULL: &[u8] = b"# the recording is full: what comes isn't written\n";

/// The text since it was last taken, and how much it has in all.
#[derive(Drop)]
pub(crate) struct Text {
    alloc: Global,
    bytes: Vec<u8>,
    len: u64,
    requests: usize,
    keys: usize,
    // Whether nothing is written any more.
    is_full: bool,
}

impl Text {
    /// The text of which the header alone is there.
    pub(crate) fn new(alloc: Global) -> Result<Self, OutOfMemory> {
        Ok(Text {
            alloc,
            bytes: Vec::from_slice(alloc, b"history 3\n")?,
            len: 10,
            requests: 0,
            keys: 0,
            is_full: false,
        })
    }

    /// What came since the last call.
    pub(crate) fn take(&mut self) -> Vec<u8> {
        mem::replace(&mut self.bytes, Vec::new(self.alloc))
    }

    /// Appends the line of a request of a key that is there.
    pub(crate) fn begin(&mut self, line: &[u8]) -> Result<(), OutOfMemory> {
        if self.requests >= OPERATIONS_LIMIT {
            return self.fill();
        }
        self.requests += 1;
        self.add(line)
    }

    /// Appends the line of a key's name, and that of its first request.
    pub(crate) fn start(&mut self, name: &[u8], line: &[u8]) -> Result<(), OutOfMemory> {
        if self.keys >= TIMELINE_KEYS_LIMIT {
            return self.fill();
        }
        self.keys += 1;
        self.add(name)?;
        self.begin(line)
    }

    /// Appends another line.
    pub(crate) fn add(&mut self, line: &[u8]) -> Result<(), OutOfMemory> {
        if self.is_full {
            return Ok(());
        }
        let len = self.len.saturating_add(line.len() as u64);
        if len > BYTES_LIMIT {
            return self.fill();
        }
        self.len = len;
        self.bytes.extend_from_slice(line)
    }

    /// Appends the last line.
    pub(crate) fn finish(&mut self) -> Result<(), OutOfMemory> {
        self.is_full = true;
        self.bytes.extend_from_slice(b"end\n")
    }

    // Nothing more is written, and the text says so.
    fn fill(&mut self) -> Result<(), OutOfMemory> {
        if self.is_full {
            return Ok(());
        }
        self.is_full = true;
        self.bytes.extend_from_slice(FULL)
    }
}
