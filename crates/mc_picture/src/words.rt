//! Requests and replies in the words of histories, with long bodies cut.

use crate::rows::Row;
use mc_protocol::{OutOfMemory, Reply, Request};
use mc_words::{print_reply_words, print_request_words};
use std::alloc::Global;

/// Stands in place of what is cut off a body.
const CUT: &[u8] = b"...";

/// The words of a request. Its body is cut to this many columns.
pub fn request_text(alloc: Global, request: &Request, most: usize) -> Result<Vec<u8>, OutOfMemory> {
    let mut words = Vec::new(alloc);
    print_request_words(request, &mut words)?;
    cut_bodies(alloc, words.as_slice(), most)
}

/// The words of a reply. Its body is cut to this many columns.
pub fn reply_text(alloc: Global, reply: &Reply, most: usize) -> Result<Vec<u8>, OutOfMemory> {
    let mut words = Vec::new(alloc);
    print_reply_words(reply, &mut words)?;
    cut_bodies(alloc, words.as_slice(), most)
}

/// The words of the reply to a row's request, if one came.
pub fn answer_text(alloc: Global, row: &Row<'_>, most: usize) -> Result<Vec<u8>, OutOfMemory> {
    match row.answer {
        Some(answered) => reply_text(alloc, answered.reply, most),
        None => Vec::from_slice(alloc, b"no reply"),
    }
}

// The words, each body cut.
fn cut_bodies(alloc: Global, words: &[u8], most: usize) -> Result<Vec<u8>, OutOfMemory> {
    let mut text = Vec::new(alloc);
    'words: for word in words.split(|byte| *byte == b' ') {
        if !text.is_empty() {
            text.push(b' ')?;
        }
        append_cut(&mut text, word, most)?;
    }
    Ok(text)
}

// Appends the word. A body, which alone begins with `=`, is cut to this many columns.
fn append_cut(text: &mut Vec<u8>, word: &[u8], most: usize) -> Result<(), OutOfMemory> {
    if word.len() <= most || !word.starts_with(b"=") {
        return text.extend_from_slice(word);
    }
    let (front, _) = word.split_at(most.saturating_sub(CUT.len()).min(word.len()));
    text.extend_from_slice(without_half_escape(front))?;
    text.extend_from_slice(CUT)
}

// The front of a body without the `%` or `%h` at its end that was cut off from the rest of `%hh`.
fn without_half_escape(front: &[u8]) -> &[u8] {
    match front {
        [whole @ .., b'%'] => whole,
        [whole @ .., b'%', _] => whole,
        _ => front,
    }
}
