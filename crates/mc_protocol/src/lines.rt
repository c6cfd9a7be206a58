//! Lines of a text, and the words of a line.

ghost use Rattle.std.specs.Prelude.{◌≡◌, ◌+◌, ℕ, List, [], ◌∷◌, length, map, IfOk, MatchOption};
ghost use Rattle.mc_protocol.specs.Lines as spec;

use crate::OutOfMemory;
use bstr::ByteSlice;
use std::alloc::Global;
use std::marker::Model;

/// What stands between the words of a line.
#[derive(Clone, Copy, Debug, PartialEq, Eq)]
pub enum Separator {
    /// The space alone: a tab is a byte of a word.
    Space,
    /// The space and the tab.
    SpaceOrTab,
}

impl Separator {
    /// Whether the byte ends a word.
    pub fn separates(self, byte: u8) -> bool
        ensures { result ≡ spec.separates self byte }
    {
        match self {
            Separator::Space => byte == b' ',
            Separator::SpaceOrTab => byte == b' ' || byte == b'\t',
        }
    }

    // A line with no word, or a comment: its first byte is `#`.
    fn skips(self, line: &[u8]) -> bool
        ensures { result ≡ spec.is_skipped self line.now }
    {
        is_comment(line) || self.is_blank(line)
    }

    fn is_blank(self, line: &[u8]) -> bool
        ensures { result ≡ spec.is_blank self line.now }
    {
        line.iter().all(|byte| self.separates(*byte))
    }
}

fn is_comment(line: &[u8]) -> bool
    ensures { result ≡ spec.is_comment line.now }
{
    match line {
        [first, ..] => *first == b'#',
        [] => false,
    }
}

/// A line that counts: it is no comment and has a word.
#[derive(Clone, Copy, Debug)]
pub struct Line<'a> {
    /// Its number in the text, from 1; [`u32::MAX`] from there on.
    pub number: u32,
    /// Its bytes, without its end.
    pub text: &'a [u8],
}

/// The lines of a text, one after another. A line ends with LF, a CR before it is dropped, and the last LF may be
/// missing. Blank lines and comments are skipped, and are counted.
#[derive(Drop)]
pub struct Lines<'a> {
    separator: Separator,
    number: u32,
    rest: bstr::Lines<'a>,
}

impl<'a> Model for Lines<'a> {
    ghost use Rattle.mc_protocol.specs.TextLines.{TextLines};

    ghost Value = { TextLines };

    ghost view = { λ l. record { separator = l.separator; number = l.number; rest = l.rest } };

    ghost use Rattle.std.specs.Prelude.{◌≤◌};
    ghost use Rattle.mc_protocol.specs.Lines.{LAST_NUMBER};

    ghost invariant = { λ l. l.number ≤ LAST_NUMBER };
}

impl<'a> Lines<'a> {
    /// The lines of a text, before the first.
    pub fn new(text: &'a [u8], separator: Separator) -> Self
        ensures { result ≡ spec.lines_of_text separator text.entry.now }
    {
        Lines {
            separator,
            number: 0,
            rest: text.lines(),
        }
    }

    /// What stands between the words of its lines.
    pub fn separator(&self) -> Separator
        ensures { result ≡ self.now.separator }
    {
        self.separator
    }

    /// The number of the last line that was taken, skipped lines counted; once `next` gave `None`, how many lines
    /// the text has. It is at most [`u32::MAX`].
    pub fn number(&self) -> u32
        ensures { result ≡ self.now.number }
    {
        self.number
    }

    /// Takes the next line that counts.
    pub fn next(&mut self) -> Option<Line<'a>>
        ensures line { MatchOption result (spec.counted self.old ≡ []) (λ line.
            spec.counted self.old ≡ record { number = line.number; text = line.text.now } ∷ spec.counted self.new) }
        ensures counts { spec.line_count self.new ≡ spec.line_count self.old }
        ensures none { MatchOption result (self.new.number ≡ spec.line_count self.old) (λ line. line.number ≡ self.new.number) }
        ensures separator { self.new.separator ≡ self.old.separator }
    {
        while let Some(text) = self.rest.next() {
            self.number = self.number.saturating_add(1);
            if !self.separator.skips(text) {
                return Some(Line {
                    number: self.number,
                    text,
                });
            }
        }
        None
    }
}

/// The words of a line: its bytes between separators.
pub fn words_in<'a>(
    alloc: Global,
    separator: Separator,
    line: &'a [u8],
) -> Result<Vec<&'a [u8]>, OutOfMemory>
    ensures { IfOk result (λ words. map (λ w. w.now) words.items ≡ spec.words_of separator line.entry.now) }
{
    line.split(|byte| separator.separates(*byte))
        .filter(|word| !word.is_empty())
        .collect(alloc)
}
