//! The place of a word in a text: where the caret is put, and which words stand around it.

use bstr::ByteSlice;
use mc_protocol::{Separator, Verb};
use std::alloc::{AllocError, Global};

/// The place of a word in a line.
#[derive(Drop)]
pub struct Spot<'a> {
    /// The number of the line.
    pub number: u32,
    /// The bytes of the line.
    pub line: &'a [u8],
    // Its words, each with how many bytes stand before it.
    words: Vec<(usize, &'a [u8])>,
    // The word's index among these. A word that is missing stands after the last.
    index: usize,
    // How many bytes of the word stand before the place.
    skipped: usize,
}

/// The bytes of the line with this number.
pub fn line_at<'a>(text: &'a [u8], number: u32) -> Option<&'a [u8]> {
    text.lines().nth(number.saturating_sub(1) as usize)
}

impl<'a> Spot<'a> {
    /// The place of the word with this index in the line with this number. If the text has no such line, it ends too early, and the place
    /// is after the end of its last one.
    pub fn of_word(
        alloc: Global,
        text: &'a [u8],
        separator: Separator,
        number: u32,
        index: usize,
    ) -> Result<Spot<'a>, AllocError> {
        let last = number.saturating_sub(1).max(1);
        let (number, line, index) = match line_at(text, number) {
            Some(line) => (number, line, index),
            None => (last, text.lines().last().unwrap_or(&[]), usize::MAX),
        };
        let mut words = Vec::new(alloc);
        let mut start: usize = 0;
        for word in line.split(|byte| separator.separates(*byte)) {
            if !word.is_empty() {
                words.push((start, word))?;
            }
            start = start.saturating_add(word.len()).saturating_add(1);
        }
        Ok(Spot {
            number,
            line,
            words,
            index,
            skipped: 0,
        })
    }

    /// The place of the only word of a script's line that begins with this byte; that of its first word if none or more than one does.
    pub fn of_mark(
        alloc: Global,
        text: &'a [u8],
        number: u32,
        mark: u8,
    ) -> Result<Spot<'a>, AllocError> {
        let spot = Spot::of_word(alloc, text, Separator::SpaceOrTab, number, 0)?;
        let mut found = 0;
        let mut count: usize = 0;
        for (index, (_, word)) in spot.words.iter().enumerate() {
            if word.starts_with(&[mark]) {
                found = index;
                count = count.saturating_add(1);
            }
        }
        let index = if count == 1 { found } else { 0 };
        Ok(Spot { index, ..spot })
    }

    /// The place after this many bytes of the word.
    pub fn after(self, skipped: usize) -> Spot<'a> {
        Spot { skipped, ..self }
    }

    /// How many bytes of the line stand before the place. A word that is missing stands one space after the last, which may be past the
    /// end of the line.
    pub fn start(&self) -> usize {
        match (self.words.get(self.index), self.words.last()) {
            (Some((start, _)), _) => start.saturating_add(self.skipped),
            (None, Some((start, word))) => start.saturating_add(word.len()).saturating_add(1),
            (None, None) => 0,
        }
    }

    /// What the word has from the place on. It is empty if the word is missing.
    pub fn rest(&self) -> &'a [u8] {
        let word = self.word();
        &word[self.skipped.min(word.len())..]
    }

    /// The word. It is empty if it is missing.
    pub fn word(&self) -> &'a [u8] {
        self.word_at(self.index)
    }

    /// The word before it. It is empty if there is none.
    pub fn previous(&self) -> &'a [u8] {
        self.index
            .checked_sub(1)
            .map_or(&[], |index| self.word_at(index))
    }

    /// The word after it. It is empty if there is none.
    pub fn next(&self) -> &'a [u8] {
        self.word_at(self.index.saturating_add(1))
    }

    /// The word with this index. It is empty if there is none.
    pub fn word_at(&self, index: usize) -> &'a [u8] {
        self.words.get(index).map_or(&[], |(_, word)| *word)
    }

    /// The verb with which the line begins.
    pub fn verb(&self) -> Option<Verb> {
        Verb::from_word(self.word_at(0))
    }
}
