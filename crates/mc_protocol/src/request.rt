//! Requests.

ghost use Rattle.std.specs.Prelude.{◌≡◌, IfOk};
ghost use Rattle.mc_protocol.specs.{Fields.fields_of, Words.IsOfWord, Words.verb_word, Words.verb_of};

use crate::{Bytes, OutOfMemory};
use std::alloc::Global;

/// A command of the protocol.
#[derive(Clone, Copy, Debug, PartialEq, Eq)]
pub enum Verb {
    /// Stores an item whatever is there.
    Set,
    /// Stores an item where none is there.
    Add,
    /// Stores an item where one is there.
    Replace,
    /// Joins a body to the end of the one that is there.
    Append,
    /// Joins a body to the start of the one that is there.
    Prepend,
    /// Stores an item where the one that is there has this cas unique.
    Cas,
    /// Reads an item.
    Get,
    /// Reads an item with its cas unique.
    Gets,
    /// Adds to a decimal.
    Incr,
    /// Takes from a decimal.
    Decr,
    /// Removes an item.
    Delete,
    /// Would set an item's time of expiry; the tester sends 0, which changes nothing.
    Touch,
}

/// Which fields a verb has after its key, in this order.
#[derive(Clone, Copy, Debug, PartialEq, Eq)]
pub enum Fields {
    /// None.
    KeyAlone,
    /// A time of expiry, which is always 0.
    Expiry,
    /// Flags and a body.
    Item,
    /// Flags, a body and a cas unique.
    Swap,
    /// An amount.
    Amount,
}

impl Verb {
    /// The verbs in their order.
    pub const ALL: [Verb; 12] = [
        Verb::Set,
        Verb::Add,
        Verb::Replace,
        Verb::Append,
        Verb::Prepend,
        Verb::Cas,
        Verb::Get,
        Verb::Gets,
        Verb::Incr,
        Verb::Decr,
        Verb::Delete,
        Verb::Touch,
    ];

    /// The command's word, as `protocol.txt` has it.
    pub fn word(self) -> &'static str
        ensures { result.now ≡ verb_word self }
    {
        match self {
            Verb::Set => "set",
            Verb::Add => "add",
            Verb::Replace => "replace",
            Verb::Append => "append",
            Verb::Prepend => "prepend",
            Verb::Cas => "cas",
            Verb::Get => "get",
            Verb::Gets => "gets",
            Verb::Incr => "incr",
            Verb::Decr => "decr",
            Verb::Delete => "delete",
            Verb::Touch => "touch",
        }
    }

    /// The verb with this word.
    pub fn from_word(word: &[u8]) -> Option<Self>
        ensures word { IsOfWord verb_word word.now result }
        ensures exact { result ≡ verb_of word.now }
    {
        verb_of(word)
    }

    /// The fields after the key.
    pub fn fields(self) -> Fields
        ensures { result ≡ fields_of self }
    {
        match self {
            Verb::Set | Verb::Add | Verb::Replace | Verb::Append | Verb::Prepend => Fields::Item,
            Verb::Cas => Fields::Swap,
            Verb::Get | Verb::Gets | Verb::Delete => Fields::KeyAlone,
            Verb::Incr | Verb::Decr => Fields::Amount,
            Verb::Touch => Fields::Expiry,
        }
    }
}

#[tactic(auto, unfolding(crate::specs::Words::verb_of))]
fn verb_of(word: &[u8]) -> Option<Verb>
    ensures { result ≡ verb_of word.now }
{
    Verb::ALL
        .iter()
        .copied()
        .find(|verb| verb.word().as_bytes() == word)
}

/// One request of a section. A field that the verb doesn't have is 0 or empty.
#[derive(Debug, Drop)]
pub struct Request {
    pub verb: Verb,
    pub key: Bytes,
    /// The client's flags of an item.
    pub flags: u32,
    /// The body of an item.
    pub body: Bytes,
    /// The cas unique, or the amount of an increment.
    pub number: u64,
}

impl Request {
    /// A copy, in memory of its own.
    pub fn copy(&self, alloc: Global) -> Result<Self, OutOfMemory>
        ensures { IfOk result (λ copy. copy ≡ self.now) }
    {
        Ok(Request {
            verb: self.verb,
            key: self.key.copy(alloc)?,
            flags: self.flags,
            body: self.body.copy(alloc)?,
            number: self.number,
        })
    }
}
