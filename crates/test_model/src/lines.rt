//! Requests and replies that are written as the lines of a history have them.
use crate::memory::again;
use mc_protocol::{Bytes, OutOfMemory, Reply, Request, Separator, words_in};
use mc_words::{WordsFault, read_reply_words, read_request_words};
use std::alloc::Global;

pub(crate) fn bytes(alloc: Global, text: &str) -> Result<Bytes, OutOfMemory> {
    Ok(Bytes::new(Vec::from_slice(alloc, text.as_bytes())?))
}

pub(crate) fn request_in(alloc: Global, line: &str) -> Result<Request, WordsFault> {
    let words = words_in(alloc, Separator::Space, line.as_bytes())?;
    again(|| read_request_words(alloc, words.as_slice()))
}

pub(crate) fn reply_in(alloc: Global, line: &str) -> Result<Reply, WordsFault> {
    let words = words_in(alloc, Separator::Space, line.as_bytes())?;
    again(|| read_reply_words(alloc, words.as_slice()))
}
