//! A sentence about a word of an input, and the words of its line that stand in it.

use crate::caret::{Shown, WIDTH};
use crate::spot::Spot;
use mc_protocol::{Fields, is_name};
use std::fmt::{Display, Error, Formatter, Write};

/// After the last line of a text.
pub const END_OF_TEXT: &str = "nothing may follow the line `end`";
/// Of a number that the protocol has before a body.
pub const NO_LENGTH: &str =
    "expected `=` and the body: no expiry time and no length stand before it";
/// A byte in a key that no key has.
pub const KEY_BYTE: &str = "`{byte}` can't stand in a key, which is 1 to 40 of a-z, 0-9 and `-`";
/// A key.
pub const KEY: &str = "a key is 1 to 40 of a-z, 0-9 and `-`";

/// A sentence about the word at a place. In its text `{word}`, `{previous}` and `{next}` stand for that word and those beside it, `{name}`
/// for what the word has from the place on, `{byte}` for the first byte of that, and `{marked}` for what the word has after its mark;
/// `{first}` and `{second}` for the words that its line begins with, and `{form}` for how the request of the line is written.
#[derive(Drop)]
pub struct Sentence<'s, 'a> {
    pub text: &'static str,
    pub spot: &'s Spot<'a>,
}

impl Display for Sentence<'_, '_> {
    fn fmt<W: Write>(&self, f: &mut Formatter<W>) -> Result<(), Error> {
        // Each second part of the text stands between braces.
        let mut is_name = false;
        for part in self.text.split(['{', '}']) {
            if is_name {
                self.write_named(f, part)?;
            } else {
                f.write_str(part)?;
            }
            is_name = !is_name;
        }
        Ok(())
    }
}

impl Sentence<'_, '_> {
    fn write_named<W: Write>(&self, f: &mut Formatter<W>, name: &str) -> Result<(), Error> {
        let spot = self.spot;
        let bytes = match name {
            "word" => spot.word(),
            "previous" => spot.previous(),
            "next" => spot.next(),
            "second" => spot.word_at(1),
            "byte" => spot.rest().get(..1).unwrap_or(&[]),
            "name" => spot.rest(),
            "marked" => spot.word().get(1..).unwrap_or(&[]),
            _ => spot.word_at(0),
        };
        // Two words that were to be one fit in a line.
        let room = match name {
            "word" | "previous" | "next" => WIDTH / 3,
            _ => WIDTH / 2,
        };
        write!(f, "{}", Shown::start(bytes, room))?;
        match spot.verb().map(|verb| verb.fields()) {
            Some(fields) if name == "form" => f.write_str(words_after_verb(fields)),
            _ => Ok(()),
        }
    }
}

// How a script writes what follows the verb of a request.
fn words_after_verb(fields: Fields) -> &'static str {
    match fields {
        Fields::KeyAlone | Fields::Expiry => " KEY",
        Fields::Item => " KEY FLAGS =BODY",
        Fields::Swap => " KEY FLAGS =BODY $VAR",
        Fields::Amount => " KEY AMOUNT",
    }
}

/// How many bytes of the word stand before the first that no name has. It is 0 if each may stand in a name.
pub fn before_faulty_byte(word: &[u8]) -> usize {
    word.iter()
        .position(|byte| !is_name(1, &[*byte]))
        .unwrap_or(0)
}

/// Whether these bytes begin with one that no name has. The `:` that ends a label is none of its name.
pub fn begins_faultily(bytes: &[u8]) -> bool {
    match bytes {
        b":" | [] => false,
        [byte, ..] => !is_name(1, &[*byte]),
    }
}
