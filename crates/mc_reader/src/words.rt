//! The words of a line.
ghost use Rattle.std.specs.Prelude.{◌≡◌, ◌≤◌, ◌∷◌, [], length, drop, MatchOption};
ghost use Rattle.std.specs.List.{position_or_len};
ghost use Rattle.mc_reader.specs.Words as spec;

use crate::ErrorKind;
use mc_protocol::Reply;
use memchr::memchr;

/// The reply that the text is, where one word is the whole reply.
#[tactic(auto, unfolding(crate::specs::Words::reply_of_word))]
pub(crate) fn reply_of_word(text: &[u8]) -> Option<Reply>
    ensures { result ≡ spec.reply_of_word text.now }
{
    if text == b"STORED".as_slice() {
        Some(Reply::Stored)
    } else if text == b"NOT_STORED".as_slice() {
        Some(Reply::NotStored)
    } else if text == b"EXISTS".as_slice() {
        Some(Reply::Exists)
    } else if text == b"NOT_FOUND".as_slice() {
        Some(Reply::NotFound)
    } else if text == b"END".as_slice() {
        Some(Reply::Miss)
    } else if text == b"DELETED".as_slice() {
        Some(Reply::Deleted)
    } else if text == b"TOUCHED".as_slice() {
        Some(Reply::Touched)
    } else {
        None
    }
}

/// The error that the text reports: its word stands alone, or a space and any text follow it.
#[tactic(auto, unfolding(crate::specs::Words::error_of))]
pub(crate) fn error_of(text: &[u8]) -> Option<ErrorKind>
    ensures { result ≡ spec.error_of text.now }
{
    let (word, _) = cut_word(text);
    if word == ErrorKind::Error.word().as_bytes() {
        Some(ErrorKind::Error)
    } else if word == ErrorKind::Client.word().as_bytes() {
        Some(ErrorKind::Client)
    } else if word == ErrorKind::Server.word().as_bytes() {
        Some(ErrorKind::Server)
    } else {
        None
    }
}

/// The first word of the text, up to its first space, and what comes after it, the space included.
pub(crate) fn cut_word(text: &[u8]) -> (&[u8], &[u8])
    ensures word { result.0.now ≡ spec.first_word text.now }
    ensures rest { result.1.now ≡ drop (length (spec.first_word text.now)) text.now }
    ensures words { spec.words_of text.now ≡ result.0.now ∷ spec.words_after result.1.now }
{
    text.split_at(first_word_len(text))
}

fn first_word_len(text: &[u8]) -> usize
    ensures len { result ≡ position_or_len spec.is_space text.now }
    ensures short { result ≤ length text.now }
{
    memchr(b' ', text).unwrap_or(text.len())
}

/// The next word after a word that was cut off, and what comes after it. What is left begins with a space.
pub(crate) fn next_word(rest: &[u8]) -> Option<(&[u8], &[u8])>
    ensures { MatchOption result (spec.words_after rest.now ≡ [])
        (λ next. spec.words_after rest.now ≡ next.0.now ∷ spec.words_after next.1.now) }
{
    match rest {
        [] => None,
        [_, text @ ..] => Some(cut_word(text)),
    }
}
