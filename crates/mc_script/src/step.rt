//! The steps of a section, and the requests that they send.

ghost use Rattle.std.specs.Prelude.{◌≡◌};

use crate::Mask;
use mc_protocol::{Bytes, Class, Verb};
use std::marker::Model;

/// One step of a section.
#[derive(Debug, Drop)]
pub enum Step {
    /// Sends a request, and waits for its reply.
    Send {
        template: Template,
        /// Where to go after a reply of a class. After any other reply the next step follows.
        jumps: Jumps,
        /// The variable that takes the number that the reply shows, if it shows one.
        bind: Option<u8>,
    },
    /// The variable takes the number that the section's last reply showed.
    Bind(u8),
    /// Goes to the label with this index in the section's labels.
    Goto(usize),
    /// Ends the section.
    Halt,
}

/// A request before its variable has a number, and the flags that it needs and changes.
#[derive(Debug, Drop)]
pub struct Template {
    pub verb: Verb,
    /// The key's index, in the order of declaration.
    pub key: u8,
    /// The client's flags of an item; 0 where the verb has none.
    pub flags: u32,
    pub argument: Argument,
    /// The body of an item; empty where the verb has none.
    pub body: Bytes,
    /// The flags that must be set when the request is sent.
    pub require_set: Mask,
    /// The flags that must be clear when the request is sent.
    pub require_clear: Mask,
    /// The flags that the request sets, whatever its reply.
    pub sets: Mask,
    /// The flags that the request clears, whatever its reply.
    pub clears: Mask,
}

/// The cas unique of a `cas`, or the amount of an `incr` or `decr`.
#[derive(Clone, Copy, Debug, PartialEq, Eq)]
pub enum Argument {
    /// The verb has none.
    Nothing,
    /// This number.
    Number(u64),
    /// The number of the variable with this index, in the order of declaration.
    Variable(u8),
}

/// Where a request goes after which class of reply: each class with the index of a label of its section. Inside a `Script` they
/// stand in the order of the classes, none twice. Contracts see the list of them.
#[derive(Debug, Drop)]
pub struct Jumps {
    jumps: Vec<(Class, usize)>,
}

impl Model for Jumps {
    ghost use Rattle.std.specs.Prelude.{ℕ, List};
    ghost use Rattle.mc_protocol.specs.declared.reply.Class.{Class};

    ghost Value = { List (Class × ℕ) };

    ghost view = { λ j. j.jumps.items };
}

impl Jumps {
    /// The jumps of a vector, with no allocation.
    pub fn new(jumps: Vec<(Class, usize)>) -> Self
        ensures { result ≡ jumps.items }
    {
        Jumps { jumps }
    }

    /// The jumps.
    pub fn as_slice(&self) -> &[(Class, usize)]
        ensures { result.now ≡ self.now }
    {
        self.jumps.as_slice()
    }

    /// The vector that the jumps were made of, with no allocation.
    pub fn into_vec(self) -> Vec<(Class, usize)>
        ensures { result.items ≡ self }
    {
        let Self { jumps } = self;
        jumps
    }
}
