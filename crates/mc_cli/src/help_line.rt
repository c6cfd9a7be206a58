//! What help says of each option, and of the line that calls for help.

use crate::help::{FORMATS, HISTORY, IMAGE, NAMES, SCRIPT, STEPS};
use crate::rows::{Kind, Row};
use crate::subcommand::help_of;
use clap::Error;
use std::alloc::{AllocError, Global};

impl Row {
    /// What help says of the option: with the values that it takes, and its default.
    ///
    /// # Errors
    ///
    /// That there is no memory.
    pub fn help_text(&self, alloc: Global) -> Result<String, AllocError> {
        let help = self.help;
        match self.kind {
            Kind::Number(least, greatest) => {
                let range = if greatest == u64::MAX {
                    format!(in alloc; "{least} to 2^64-1")?
                } else {
                    format!(in alloc; "{least} to {greatest}")?
                };
                match self.default {
                    Some(default) => format!(in alloc; "{help}, {range} [default: {default}]"),
                    None => format!(in alloc; "{help}, {range}"),
                }
            }
            Kind::Time => format!(in alloc; "{help}: 500ms, 2s, 10m or 2h"),
            Kind::Notation => format!(in alloc; "{help}: {}", self.kind),
            Kind::Meeting => format!(in alloc; "{help}: {} [default: drawn]", self.kind),
            Kind::Mix => format!(in alloc; "{help}: {} [default: all]", self.kind),
            Kind::Name | Kind::Address => format!(in alloc; "{help}"),
            Kind::Key | Kind::Names | Kind::Path | Kind::Switch => format!(in alloc; "{help}"),
        }
    }
}

/// The text of a line that calls for help or for the version, of which clap says this.
///
/// # Errors
///
/// That there is no memory.
pub fn help_text(alloc: Global, line: &[String], error: &Error) -> Result<String, AllocError> {
    let is_long = !line.iter().any(|word| word.as_str() == "-h");
    let name = helped_name(line);
    if name == "all" {
        return all_text(alloc);
    }
    match help_of(alloc, name, is_long)? {
        Some(text) => Ok(text),
        None => error.to_string(alloc),
    }
}

// The help of all subcommands, and all topics.
fn all_text(alloc: Global) -> Result<String, AllocError> {
    let mut all = String::new(alloc);
    for name in NAMES {
        if let Some(text) = help_of(alloc, name, true)? {
            all.push_str(text.as_str())?;
            all.push_str("\n")?;
        }
    }
    for topic in [FORMATS, SCRIPT, STEPS, HISTORY, IMAGE] {
        all.push_str(topic)?;
        all.push_str("\n")?;
    }
    Ok(all)
}

// The name of the subcommand of which the line asks for help, if there is one.
fn helped_name(line: &[String]) -> &str {
    match line.get(1) {
        Some(word) if word.as_str() == "help" => line.get(2).map_or("", |word| word.as_str()),
        Some(word) => word.as_str(),
        None => "",
    }
}
