//! Which word of a line can't be read, and what was expected in its place.

use mc_protocol::{Actor, Verb};

/// Which word of a line is at fault, and what was expected there.
#[derive(Clone, Copy, Debug, PartialEq, Eq)]
pub struct Misread {
    /// The index of the word in its line, from 0. A word that is missing stands after the last.
    pub word: usize,
    pub expected: Expected,
}

/// What a name names.
#[derive(Clone, Copy, Debug, PartialEq, Eq)]
pub enum Sort {
    Key,
    Flag,
    Variable,
    Label,
}

/// What was expected in the place of a word: each has a sentence of its own.
#[derive(Clone, Copy, Debug, PartialEq, Eq)]
pub enum Expected {
    /// The first line, `script 1` or `script 2`.
    Header,
    /// The version after `script`, which is `1` or `2`.
    Version,
    /// The line that declares the keys.
    Keys,
    /// The budget of this section. Before that of P the flags and the variables may be declared, in this order.
    Budget(Actor),
    /// How many requests a section may send: a decimal, at most 24.
    BudgetRequests,
    /// How many bytes of requests a section may send: a decimal, at most 8192.
    BudgetBytes,
    /// A name of this sort in its form: lower case letters, digits and `-`, 1 to 40 bytes of a key, else 1 to 20.
    Name(Sort),
    /// A name of this sort that doesn't stand there already.
    NewName(Sort),
    /// No more names of this sort than the version allows.
    FewerNames(Sort),
    /// A name of this sort that is declared, or that the section has where it is a label's.
    KnownName(Sort),
    /// A label that stands further down.
    LabelBelow,
    /// The line of this section.
    Section(Actor),
    /// The line `end`.
    End,
    /// No line after `end`.
    NothingAfterEnd,
    /// A request, `bind`, `goto`, `halt`, a label or the next section's line.
    Step,
    /// No more steps in the section than the version allows.
    FewerSteps,
    /// A step: names and budgets are declared before the first section.
    NoDeclaration,
    /// Nothing after a label, which is a line of its own.
    LabelAlone,
    /// The client's flags of an item: a decimal below 2^32.
    Flags,
    /// `=` and the body of an item.
    Body,
    /// A body of at most 64 letters and digits.
    LettersAndDigits,
    /// No time of expiry and no length, as memcached's own lines have them.
    NoExpiry,
    /// `$` and the variable that has the cas unique.
    Unique,
    /// The amount of an increment: a decimal below 2^64, or `$` and a variable.
    Amount,
    /// A mark: `?FLAG`, `!FLAG`, `+FLAG`, `-FLAG`, `CLASS:LABEL` or `>VAR`.
    Mark,
    /// No second key: a request has one.
    OneKey,
    /// No `noreply`: each request has a reply.
    WithReply,
    /// The class of a reply before the `:`.
    ReplyClass,
    /// The class of a reply that this request may have.
    ReplyTo(Verb),
    /// `>VAR` only where a reply shows a number: after `gets`, `incr` and `decr`.
    ReplyWithNumber,
    /// No second `>VAR`.
    OneBind,
    /// No jump on a hit or a number beside `>VAR`, since the next step follows those.
    NoJumpBesideBind,
    /// One of `?` and `!` of a flag, and one of `+` and `-`.
    OneMarkOfFlag,
    /// One jump on a class.
    OneJumpOnClass,
    /// No further word.
    LineEnd,
    /// A comment on a line of its own, of which `#` is the first byte.
    CommentAlone,
}

impl Expected {
    /// This, but in the place of a word that begins a comment.
    pub(crate) fn unless_comment(self, word: &[u8]) -> Expected {
        match word {
            [b'#', ..] => Expected::CommentAlone,
            _ => self,
        }
    }
}
