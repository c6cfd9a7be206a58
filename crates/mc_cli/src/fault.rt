//! What is wrong with the values of a line's options, and what is said of it.

use crate::rows::{Kind, Place, Row};
use mc_protocol::KEY_BYTES_LIMIT;
use mc_settings::{NAMESPACE_BYTES_LIMIT, Namespace};
use std::alloc::{AllocError, Global};
use std::fmt::{Display, Error, Formatter, Write};

/// Why the values of a subcommand's options ask for nothing.
#[derive(Drop)]
pub enum OptionFault<'a> {
    /// The word is no value of the option.
    Value(Row, &'a str),
    /// The argument is missing. Clap finds it first.
    Missing(Row),
    /// Options that need or exclude each other, as the text says.
    Together(&'static str),
    /// The last of this many jobs, from the first on, has a number of more than 64 bits.
    LastJob { first: u64, jobs: u64 },
    /// Under the name, the keys of this job are too long.
    LongKey(Namespace<'a>, u64),
    /// Under the name, keys are too long of a job to which a campaign with `--for` may come.
    LongName(Namespace<'a>),
    /// The subcommand is a topic of help; or there is none, which clap finds first.
    NoSubcommand,
}

impl OptionFault<'_> {
    /// What is said of it.
    ///
    /// # Errors
    ///
    /// That there is no memory.
    pub fn message(&self, alloc: Global) -> Result<String, AllocError> {
        match self {
            OptionFault::Value(row, word) => {
                format!(in alloc; "invalid value '{word}' for '{row}': expected {}", row.kind)
            }
            OptionFault::Missing(row) => format!(in alloc; "'{row}' is missing"),
            OptionFault::Together(text) => format!(in alloc; "{text}"),
            OptionFault::LastJob { first, jobs } => format!(in alloc;
                "invalid value '{first}' for '--from <N>': the last of {jobs} jobs would have a number above {}",
                u64::MAX
            ),
            OptionFault::LongKey(name, job) => {
                let key = format!(in alloc; "r{job}-0")?;
                long_key_message(alloc, name, key.as_bytes())
            }
            OptionFault::LongName(name) => format!(in alloc;
                "invalid value '{}' for '--name <NAME>': with --for a name has at most 16 bytes",
                name.as_slice().escape_ascii()
            ),
            OptionFault::NoSubcommand => format!(in alloc;
                "a subcommand is required; 'mcrace help TOPIC' shows a topic"
            ),
        }
    }
}

/// What is said of a name under which this key is too long.
///
/// # Errors
///
/// That there is no memory.
pub fn long_key_message(
    alloc: Global,
    name: &Namespace<'_>,
    key: &[u8],
) -> Result<String, AllocError> {
    let length = (name.as_slice().len() + 1).saturating_add(key.len());
    let name = name.as_slice().escape_ascii();
    let key = key.escape_ascii();
    format!(in alloc;
        "invalid value '{name}' for '--name <NAME>': the key '{key}' has {length} bytes with it, and may have {KEY_BYTES_LIMIT}"
    )
}

// How usage shows the option.
impl Display for Row {
    fn fmt<W: Write>(&self, f: &mut Formatter<W>) -> Result<(), Error> {
        match self.place {
            Place::Required => write!(f, "<{}>", self.value),
            Place::Daily | Place::Rare => write!(f, "--{} <{}>", self.name, self.value),
        }
    }
}

// What is expected of a value.
impl Display for Kind {
    fn fmt<W: Write>(&self, f: &mut Formatter<W>) -> Result<(), Error> {
        match self {
            Kind::Number(least, greatest) => write!(f, "a number from {least} to {greatest}"),
            Kind::Time => write!(f, "a time up to 24h, as 500ms, 2s, 10m, 2h or 0.5"),
            Kind::Meeting => write!(f, "drawn, each, first or never"),
            Kind::Mix => write!(f, "all, counters, cas, bodies or presence"),
            Kind::Notation => write!(f, "json or edn"),
            Kind::Name => write!(f, "1 to {NAMESPACE_BYTES_LIMIT} of a to z, 0 to 9 and -"),
            Kind::Address => write!(f, "HOST:PORT"),
            Kind::Names => write!(f, "names with commas between"),
            Kind::Path => write!(f, "a path"),
            Kind::Key => write!(f, "a key"),
            Kind::Switch => write!(f, "no value"),
        }
    }
}
