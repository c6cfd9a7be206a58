//! The options of the program, a row for each.

/// What kind of value an option has.
#[derive(Clone, Copy)]
pub enum Kind {
    /// A decimal from the first of these numbers to the second.
    Number(u64, u64),
    /// 1 millisecond to 24 hours, as `500ms`, `2s`, `10m` or `2h`, or in seconds with at most three places, as `0.5`.
    Time,
    /// A word that says how the branches meet.
    Meeting,
    /// A word that says which verbs many clients send.
    Mix,
    /// A word that names a notation.
    Notation,
    /// A name that keys may be put under.
    Name,
    /// A server, as HOST:PORT.
    Address,
    /// Names with commas between.
    Names,
    /// The path of a folder or of a file.
    Path,
    /// Any word, which is sought among the keys of a history.
    Key,
    /// None: the option is there or not.
    Switch,
}

/// Where an option stands.
#[derive(Clone, Copy)]
pub enum Place {
    /// It is an argument, which every line of the subcommand has.
    Required,
    /// `-h` shows it.
    Daily,
    /// Only `--help` shows it.
    Rare,
}

/// An option.
#[derive(Clone, Copy)]
pub struct Row {
    pub name: &'static str,
    /// How help shows its value.
    pub value: &'static str,
    pub kind: Kind,
    /// The number that its value is if the line has none, if there is such a number.
    pub default: Option<u64>,
    pub place: Place,
    /// What help says of it.
    pub help: &'static str,
}
