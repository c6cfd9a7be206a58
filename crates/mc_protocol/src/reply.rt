//! Replies, and their classes.

ghost use Rattle.std.specs.Prelude.{◌≡◌};
ghost use Rattle.mc_protocol.specs.Legal.{class_of};
ghost use Rattle.mc_protocol.specs.Words as words;

use crate::Bytes;

/// What a server answered.
#[derive(Debug, Drop, PartialEq)]
pub enum Reply {
    /// `STORED`
    Stored,
    /// `NOT_STORED`
    NotStored,
    /// `EXISTS`
    Exists,
    /// `NOT_FOUND`
    NotFound,
    /// A `VALUE` block. Only `gets` shows the cas unique.
    Hit {
        flags: u32,
        body: Bytes,
        cas: Option<u64>,
    },
    /// `END` alone.
    Miss,
    /// `DELETED`
    Deleted,
    /// `TOUCHED`
    Touched,
    /// The new value of `incr` or `decr`.
    Number(u64),
    /// A `CLIENT_ERROR` to `incr` or `decr`: what is there is no number.
    NotNumber,
}

/// A reply without what it carries.
#[derive(Clone, Copy, Debug, PartialEq, Eq)]
pub enum Class {
    Stored,
    NotStored,
    Exists,
    NotFound,
    Hit,
    Miss,
    Deleted,
    Touched,
    Number,
    NotNumber,
}

impl Reply {
    /// What kind of reply it is.
    pub fn class(&self) -> Class
        ensures { result ≡ class_of self.now }
    {
        match self {
            Reply::Stored => Class::Stored,
            Reply::NotStored => Class::NotStored,
            Reply::Exists => Class::Exists,
            Reply::NotFound => Class::NotFound,
            Reply::Hit { .. } => Class::Hit,
            Reply::Miss => Class::Miss,
            Reply::Deleted => Class::Deleted,
            Reply::Touched => Class::Touched,
            Reply::Number(_) => Class::Number,
            Reply::NotNumber => Class::NotNumber,
        }
    }
}

impl Class {
    /// The classes in their order.
    pub const ALL: [Class; 10] = [
        Class::Stored,
        Class::NotStored,
        Class::Exists,
        Class::NotFound,
        Class::Hit,
        Class::Miss,
        Class::Deleted,
        Class::Touched,
        Class::Number,
        Class::NotNumber,
    ];

    /// Where it stands in [`Class::ALL`].
    pub fn index(self) -> u8
        ensures { result ≡ words.class_index self }
    {
        match self {
            Class::Stored => 0,
            Class::NotStored => 1,
            Class::Exists => 2,
            Class::NotFound => 3,
            Class::Hit => 4,
            Class::Miss => 5,
            Class::Deleted => 6,
            Class::Touched => 7,
            Class::Number => 8,
            Class::NotNumber => 9,
        }
    }

    /// Its word in scripts.
    pub fn word(self) -> &'static str
        ensures { result.now ≡ words.class_word self }
    {
        match self {
            Class::Stored => "stored",
            Class::NotStored => "notstored",
            Class::Exists => "exists",
            Class::NotFound => "notfound",
            Class::Hit => "hit",
            Class::Miss => "miss",
            Class::Deleted => "deleted",
            Class::Touched => "touched",
            Class::Number => "number",
            Class::NotNumber => "notnumber",
        }
    }

    /// The class with this word.
    pub fn from_word(word: &[u8]) -> Option<Self>
        ensures word { words.IsOfWord words.class_word word.now result }
        ensures exact { result ≡ words.class_of_word word.now }
    {
        class_of_word(word)
    }
}

#[tactic(auto, unfolding(crate::specs::Words::class_of_word))]
fn class_of_word(word: &[u8]) -> Option<Class>
    ensures { result ≡ words.class_of_word word.now }
{
    Class::ALL
        .iter()
        .copied()
        .find(|class| class.word().as_bytes() == word)
}
