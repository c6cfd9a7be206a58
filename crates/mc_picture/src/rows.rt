//! The rows of a picture.

use mc_protocol::{Reply, Request};

/// A request, as a picture shows it.
#[derive(Clone, Copy, Debug, Drop)]
pub struct Row<'a> {
    /// Its lane, counted from 0.
    pub lane: usize,
    /// Its place in its lane, counted from 0.
    pub index: usize,
    pub request: &'a Request,
    /// The place at which it begins: of all begins and replies that the picture shows, counted from 0; or of all requests, if their order
    /// isn't known.
    pub begin: usize,
    /// The line on which it begins.
    pub line: u32,
    pub answer: Option<Answered<'a>>,
}

/// The reply to a request.
#[derive(Clone, Copy, Debug, Drop)]
pub struct Answered<'a> {
    pub reply: &'a Reply,
    /// The place at which it comes, as that of a begin.
    pub place: usize,
    pub line: u32,
}
