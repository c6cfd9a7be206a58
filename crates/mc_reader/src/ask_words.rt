//! The words of a line, one after another.
ghost use Rattle.std.specs.Prelude.{◌≡◌, ◌∷◌, [], ◌≤◌, length, MatchOption};
ghost use Rattle.std.specs.List.{position_or_len};
ghost use Rattle.mc_protocol.specs.Lines as lines;
ghost use Rattle.mc_reader.specs.Words.{is_space};
ghost use Rattle.mc_reader.specs.AskWords as spec;
ghost use Rattle.mc_protocol.specs.declared.lines.Separator.TheVariants.{Space};

use memchr::memchr;
use std::marker::Model;

/// The words that are left of a line. Contracts see the list of them.
#[derive(Drop)]
pub(crate) struct LineWords<'a> {
    rest: &'a [u8],
}

impl<'a> Model for LineWords<'a> {
    ghost use Rattle.mc_protocol.specs.Lines.{Words, words_of};
    ghost use Rattle.mc_protocol.specs.declared.lines.Separator.TheVariants.{Space};

    ghost Value = { Words };

    ghost view = { λ w. words_of Space w.rest.now };
}

impl<'a> LineWords<'a> {
    pub(crate) fn new(text: &'a [u8]) -> Self
        ensures { result ≡ lines.words_of Space text.now }
    {
        LineWords { rest: text }
    }

    /// The next word.
    pub(crate) fn next_word(&mut self) -> Option<&'a [u8]>
        ensures { MatchOption result ((self.old ≡ []) × (self.new ≡ [])) (λ word. self.old ≡ word.now ∷ self.new) }
    {
        let rest = without_spaces(self.rest);
        if rest.is_empty() {
            self.rest = rest;
            return None;
        }
        let (word, after) = rest.split_at(word_len(rest));
        self.rest = after;
        Some(word)
    }
}

/// The text without the spaces at its front.
fn without_spaces(text: &[u8]) -> &[u8]
    ensures words { lines.words_of Space result.now ≡ lines.words_of Space text.entry.now }
    ensures front { spec.BeginsWord result.now }
{
    let mut rest = text;
    'spaces: while let [b' ', after @ ..] = rest {
        rest = after;
    }
    rest
}

/// How many bytes come before the first space.
fn word_len(text: &[u8]) -> usize
    ensures len { result ≡ position_or_len is_space text.now }
    ensures short { result ≤ length text.now }
{
    memchr(b' ', text).unwrap_or(text.len())
}
