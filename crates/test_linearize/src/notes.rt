//! Notes that are written as the lines of a timeline have them.
use mc_model::{HistoryKind, Note};
use mc_protocol::{Separator, words_in};
use mc_timeline::TimelineBuilder;
use mc_words::{WordsFault, read_reply_words, read_request_words};
use std::alloc::Global;

/// A note: the client, whether its request begins, and the words of the request or of the reply.
pub(crate) type Line = (u8, bool, &'static str);

/// The place of the first note that breaks a rule, counted from 0, and the rule.
pub(crate) type Broken = Option<(usize, HistoryKind)>;

fn note(alloc: Global, begins: bool, text: &str) -> Result<Note, WordsFault> {
    let words = words_in(alloc, Separator::Space, text.as_bytes())?;
    Ok(if begins {
        Note::Begin(read_request_words(alloc, words.as_slice())?)
    } else {
        Note::Reply(read_reply_words(alloc, words.as_slice())?)
    })
}

/// Adds the notes up to the first that breaks a rule.
pub(crate) fn push_all(
    alloc: Global,
    builder: &mut TimelineBuilder,
    lines: &[Line],
) -> Result<Broken, WordsFault> {
    for (place, (client, begins, text)) in lines.iter().enumerate() {
        let note = note(alloc, *begins, text)?;
        match builder.push(alloc, *client, note) {
            Ok(()) => {}
            Err(HistoryKind::OutOfMemory) => return Err(WordsFault::out_of_memory()),
            Err(kind) => return Ok(Some((place, kind))),
        }
    }
    Ok(None)
}
