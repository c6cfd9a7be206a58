//! Why words are no request, or no reply.
ghost use Rattle.std.specs.Prelude.{◌≡◌, ◌≢◌, ◌+◌, ◌<◌, ◌^◌, Some, None, IfSome};
ghost use Rattle.std.specs.Option.{option_map};

use crate::{ExpectedWord, MisreadWord};
use std::alloc::{AllocError, AllocFailed};
use thiserror::Error;

/// The kind of a fault of words.
#[derive(Clone, Copy, Debug, Drop, PartialEq, Eq, Error)]
pub enum WordsKind {
    /// A word is missing, is one too many, or isn't what is expected in its place.
    #[error("a word is missing, or isn't what is expected there")]
    Form,
    /// A number has more than 20 digits, or is too large.
    #[error("a number is too large")]
    Number,
    /// No fault of the words: memory ran out.
    #[error("out of memory")]
    OutOfMemory,
}

/// Why words are no request, or no reply.
#[derive(Clone, Copy, Debug, Drop, PartialEq, Eq, Error)]
#[error("{kind}")]
pub struct WordsFault {
    pub kind: WordsKind,
    /// Which word it is about; `None` where memory ran out.
    pub misread: Option<MisreadWord>,
}

impl WordsFault {
    /// No fault of the words: memory ran out.
    pub fn out_of_memory() -> Self
        ensures kind { result.kind ≡ WordsKind.OutOfMemory }
        ensures misread { result.misread ≡ None }
    {
        WordsFault {
            kind: WordsKind::OutOfMemory,
            misread: None,
        }
    }

    /// The fault of a word; want of memory is about none.
    pub(crate) fn at(kind: WordsKind, word: usize, expected: ExpectedWord) -> Self
        ensures kind { result.kind ≡ kind }
        ensures misread { kind ≢ WordsKind.OutOfMemory → result.misread ≡ Some (record { word = word; expected = expected }) }
        ensures none { kind ≡ WordsKind.OutOfMemory → result.misread ≡ None }
    {
        match kind {
            WordsKind::OutOfMemory => WordsFault::out_of_memory(),
            _ => WordsFault {
                kind,
                misread: Some(MisreadWord { word, expected }),
            },
        }
    }

    /// The fault of a word that is missing, is one too many, or isn't what is expected in its place.
    pub(crate) fn form(word: usize, expected: ExpectedWord) -> Self
        ensures kind { result.kind ≡ WordsKind.Form }
        ensures misread { result.misread ≡ Some (record { word = word; expected = expected }) }
    {
        WordsFault::at(WordsKind::Form, word, expected)
    }

    /// The fault, where this many words stand before those that were read.
    pub(crate) fn after(self, before: usize) -> Self
        requires { IfSome self.misread (λ m. before + m.word < 2 ^ 64) }
        ensures kind { result.kind ≡ self.kind }
        ensures misread { result.misread ≡ option_map (λ m. record { word = before + m.word; expected = m.expected }) self.misread }
    {
        let misread = match self.misread {
            Some(MisreadWord { word, expected }) => Some(MisreadWord {
                word: before + word,
                expected,
            }),
            None => None,
        };
        WordsFault {
            kind: self.kind,
            misread,
        }
    }
}

impl From<AllocError> for WordsFault {
    ghost use Rattle.std.specs.Prelude.{◌≡◌, None};
    ghost use Rattle.mc_words.specs.declared.words_fault.WordsKind.TheVariants.{OutOfMemory};

    ghost from_gives = { λ _ e. (e.kind ≡ OutOfMemory) × (e.misread ≡ None) };

    fn from(_e: AllocError) -> WordsFault {
        WordsFault::out_of_memory()
    }
}

impl<T: Drop> From<AllocFailed<T>> for WordsFault {
    ghost use Rattle.std.specs.Prelude.{◌≡◌, None};
    ghost use Rattle.mc_words.specs.declared.words_fault.WordsKind.TheVariants.{OutOfMemory};

    ghost from_gives = { λ _ e. (e.kind ≡ OutOfMemory) × (e.misread ≡ None) };

    fn from(_e: AllocFailed<T>) -> WordsFault {
        WordsFault::out_of_memory()
    }
}
