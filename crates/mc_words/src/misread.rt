//! Which word can't be read, and what was expected in its place.

/// What was expected in the place of a word of a request or a reply. Each variant is one thing that can be said about
/// the word: a word that is missing, one that is something else, and one that is too many.
#[derive(Clone, Copy, Debug, Drop, PartialEq, Eq)]
pub enum ExpectedWord {
    /// The verb of a request.
    Verb,
    /// A key.
    Key,
    /// Flags, as decimal digits.
    Flags,
    /// A body, which begins with `=`.
    Body,
    /// In a body: a byte that stands for itself, or is escaped.
    VisibleByte,
    /// In a body: two hexadecimal digits after `%`.
    HexDigits,
    /// A body within the limit.
    ShortBody,
    /// The cas unique of a `cas`, as decimal digits.
    Unique,
    /// The amount of an `incr` or `decr`, as decimal digits.
    Amount,
    /// The first word of a reply.
    ReplyWord,
    /// The cas unique that a hit shows, as decimal digits.
    ShownUnique,
    /// The new value that a reply to `incr` or `decr` shows, as decimal digits.
    NewValue,
    /// Flags that 32 bits hold.
    FlagsOf32Bits,
    /// A number that 64 bits hold, in at most 20 digits.
    NumberOf64Bits,
    /// No word after the key, which is the last of the verb.
    EndAfterKey,
    /// No word after the body, which is the last of the verb.
    EndAfterBody,
    /// No word after the number, which is the last.
    EndAfterNumber,
    /// No word after the one that is the whole reply.
    EndAfterReply,
}

/// A word that isn't what was expected in its place.
#[derive(Clone, Copy, Debug, Drop, PartialEq, Eq)]
pub struct MisreadWord {
    /// How many of the words that were read stand before it. A missing word comes after the last.
    pub word: usize,
    pub expected: ExpectedWord,
}
