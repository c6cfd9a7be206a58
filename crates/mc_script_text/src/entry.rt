//! A line of a section as it is read, before its labels are resolved.

ghost use Rattle.std.specs.Prelude.{◌≡◌, ◌<◌};
ghost use Rattle.mc_script.specs.declared.limits.TheConstants.{FLAGS_LIMIT};
ghost use Rattle.mc_script_text.specs.Reading as reading;

use mc_protocol::{Bytes, Class};
use mc_script::Template;
use std::marker::Model;

/// A line of a section, as it is written: a label is still a name, and the marks of a request stand beside it.
#[derive(Drop)]
pub(crate) enum Entry {
    /// The place of the next step, or of the section's end.
    Label(Bytes),
    /// A request, whose template has no flags yet, and its marks in their order.
    Send(Template, Marks),
    Bind(u8),
    Goto(Bytes),
    Halt,
}

/// Whether the line is a label, and no step.
pub(crate) fn is_label(entry: &Entry) -> bool
    ensures { result ≡ reading.is_label entry.now }
{
    match entry {
        Entry::Label(_) => true,
        _ => false,
    }
}

/// A word after the fields of a request.
#[derive(Drop)]
pub(crate) enum Mark {
    /// How the request needs or changes a flag, which has this index.
    Flag(Sign, Flag),
    /// Where to go after a reply of the class.
    Jump(Class, Bytes),
    /// The variable that takes the number that the reply shows.
    Bind(u8),
}

/// A flag by its index. Contracts see the number, for which a mask has a bit.
#[derive(Drop)]
pub(crate) struct Flag {
    index: u8,
}

impl Model for Flag {
    ghost use Rattle.std.specs.Prelude.{ℕ, ◌<◌};
    ghost use Rattle.mc_script.specs.declared.limits.TheConstants.{FLAGS_LIMIT};

    ghost Value = { ℕ };

    ghost view = { λ f. f.index };

    ghost invariant = { λ f. f.index < FLAGS_LIMIT };
}

impl Flag {
    pub(crate) fn new(index: u8) -> Self
        requires { index < FLAGS_LIMIT }
        ensures { result ≡ index }
    {
        Flag { index }
    }

    pub(crate) fn index(&self) -> u8
        ensures index { result ≡ self.now }
        ensures below { result < FLAGS_LIMIT }
    {
        self.index
    }
}

/// How a request needs or changes a flag.
#[derive(Clone, Copy, PartialEq, Eq)]
pub(crate) enum Sign {
    /// `?`: it must be set.
    RequireSet,
    /// `!`: it must be clear.
    RequireClear,
    /// `+`: it is set.
    Sets,
    /// `-`: it is cleared.
    Clears,
}

/// The marks of a request, in their order, of which no two say the same thing. Contracts see the list of them.
#[derive(Drop)]
pub(crate) struct Marks {
    marks: Vec<Mark>,
}

impl Model for Marks {
    ghost use Rattle.std.specs.Prelude.{List};
    ghost use Rattle.mc_script_text.specs.declared.entry.Mark.{Mark};

    ghost Value = { List Mark };

    ghost view = { λ m. m.marks.items };

    ghost use Rattle.std.specs.Prelude.{◌≡◌, true};
    ghost use Rattle.mc_script_text.specs.Marks.{have_no_twins};

    ghost invariant = { λ m. have_no_twins m.marks.items ≡ true };
}

impl Marks {
    ghost use Rattle.std.specs.Prelude.{true};
    ghost use Rattle.mc_script_text.specs.Marks.{have_no_twins};

    pub(crate) fn new(marks: Vec<Mark>) -> Self
        requires { have_no_twins marks.items ≡ true }
        ensures { result ≡ marks.items }
    {
        Marks { marks }
    }

    pub(crate) fn as_slice(&self) -> &[Mark]
        ensures marks { result.now ≡ self.now }
        ensures apart { have_no_twins self.now ≡ true }
    {
        self.marks.as_slice()
    }
}
