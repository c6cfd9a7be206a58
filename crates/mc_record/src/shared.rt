//! What all threads of a recording share.
use crate::judging::Judged;
use crate::notebook::Notebook;
use crate::open_streams::OpenStreams;
use std::io;
use std::sync::Mutex;
use std::time::Duration;

/// What is recorded, and for how long.
#[derive(Clone, Copy)]
pub struct Recording<'a> {
    /// The server, HOST:PORT.
    pub server: &'a str,
    /// After how many connections no other is accepted, if there is such a number.
    pub connections: Option<u64>,
    /// After which time all connections are closed, if there is such a time.
    pub time: Option<Duration>,
    /// Whether timelines are judged while they are recorded.
    pub judges: bool,
}

/// What all threads of a recording share.
#[derive(Drop)]
pub(crate) struct Shared<'a> {
    pub(crate) recording: Recording<'a>,
    pub(crate) notebook: Mutex<Notebook>,
    pub(crate) streams: Mutex<OpenStreams>,
    pub(crate) news: Mutex<News>,
}

/// What was judged so far, and what is to be told.
#[derive(Drop)]
pub(crate) struct News {
    pub(crate) judged: Judged,
    pub(crate) found: Option<Vec<u8>>,
    pub(crate) has_found: bool,
    pub(crate) unreached: Option<io::Error>,
    pub(crate) has_unreached: bool,
    /// Whether all timelines have ended, so that no other comes.
    pub(crate) is_last: bool,
}
