//! What is said beside clap's text of an error: how to write a file that is read, and which command has an option.
use crate::help::NAMES;
use crate::subcommand::has_option;
use clap::Error;
use clap::error::ErrorKind;
use std::alloc::{AllocError, Global};

// How clap begins its text of a word that it can't place.
const UNEXPECTED: &str = "error: unexpected argument '";

// How clap begins its tips: that a similar option exists, or how to write a value.
const TIP: &str = "\n\n  tip: ";

/// Clap's text of the error. If the line gives a file, or `-`, to a subcommand that reads standard input, how to write that follows; and
/// after an option of other subcommands their names, in place of clap's tips.
pub fn error_text(alloc: Global, line: &[String], error: &Error) -> Result<String, AllocError> {
    let mut text = error.to_string(alloc)?;
    if error.kind() != ErrorKind::UnknownArgument {
        return Ok(text);
    }
    if names_file(text.as_str()) {
        if let Some(usage) = input_usage(line) {
            text.push_str("\nA file is read on standard input: write '")?;
            text.push_str(usage)?;
            text.push_str(" < FILE'\n")?;
        }
        return Ok(text);
    }
    match other_option(text.as_str()) {
        Some(option) => option_text(alloc, text.as_str(), option),
        None => Ok(text),
    }
}

// The word that can't be placed is no option: it doesn't begin with `-`, or is no more than that.
fn names_file(text: &str) -> bool {
    text.strip_prefix(UNEXPECTED)
        .is_some_and(|word| !word.starts_with('-') || word.starts_with("-'"))
}

// The name of the option that can't be placed, if a subcommand has it.
fn other_option(text: &str) -> Option<&str> {
    let word = text.strip_prefix(UNEXPECTED)?.strip_prefix("--")?;
    let (option, _) = word.split_once('\'')?;
    if NAMES.iter().any(|name| has_option(name, option)) {
        Some(option)
    } else {
        None
    }
}

// Clap's text without its tips, and which subcommands have the option.
fn option_text(alloc: Global, text: &str, option: &str) -> Result<String, AllocError> {
    let (before, after) = match text.split_once(TIP) {
        Some((before, tips)) => (before, tips.split_once("\n\n").map_or("", |parts| parts.1)),
        None => text.split_once("\n\n").unwrap_or((text, "")),
    };
    let names = names_with(alloc, option)?;
    let names = names.as_str().strip_suffix(", ").unwrap_or("");
    format!(in alloc; "{before}\n\n{after}\nmcrace: --{option} is an option of {names}\n")
}

// The names of the subcommands that have the option, each with a comma after it.
fn names_with(alloc: Global, option: &str) -> Result<String, AllocError> {
    let mut names = String::new(alloc);
    for name in NAMES {
        if has_option(name, option) {
            names.push_str(name)?;
            names.push_str(", ")?;
        }
    }
    Ok(names)
}

// How the subcommand that the line names is called, if it reads standard input.
fn input_usage(line: &[String]) -> Option<&'static str> {
    match line.get(1)?.as_str() {
        "judge" => Some("mcrace judge"),
        "draw" => Some("mcrace draw"),
        "convert" => Some("mcrace convert --to json"),
        "join" => Some("mcrace join"),
        "check" => Some("mcrace check"),
        "asm" => Some("mcrace asm"),
        "drive" => Some("mcrace drive"),
        "run" => Some("mcrace run HOST:PORT"),
        _ => None,
    }
}
