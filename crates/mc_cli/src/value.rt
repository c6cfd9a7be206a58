//! The values of a subcommand's options, each read by its row: the first word that the line gives is what counts.
ghost use Rattle.std.specs.Prelude.{◌≡◌, ℕ, List, Option, Some, IfErr, IfOk, option_map};
ghost use Rattle.clap.specs.Words.{first_value, found_of};
ghost use Rattle.mc_settings.specs.{declared.meeting.Meeting.Meeting, declared.mix.Mix.Mix};
ghost use Rattle.mc_cli.specs.{Args.IsMeeting, Args.IsMix, Args.MayBeName, Args.notation_word, Kinds.IsValue, Kinds.MayBeValue};
ghost use Rattle.mc_cli.specs.Line as line;

use crate::args::{Notation, Seconds, SoughtKey};
use crate::decimal::number_in;
use crate::fault::OptionFault;
use crate::rows::Row;
use clap::ArgMatches;
use mc_settings::{Meeting, Mix, Namespace};

/// Whether the switch is there.
pub fn is_set(options: &ArgMatches, row: &Row) -> bool
    ensures { result ≡ line.is_set (first_value (found_of options.now) row.now.name.now) }
{
    match options.get_str(row.name) {
        Some(word) => word == "true",
        None => false,
    }
}

/// The number that the option says, or its default.
///
/// # Errors
///
/// The word is no such number; or there is none, and no default.
pub fn number<'a>(options: &ArgMatches<'a>, row: &Row) -> Result<u64, OptionFault<'a>>
    ensures value { IfOk result (IsValue row.now.kind row.now.default (first_value (found_of options.now) row.now.name.now)) }
    ensures none { IfErr result (λ _. (n : ℕ)
        → IsValue row.now.kind row.now.default (first_value (found_of options.now) row.now.name.now) n → ⊥) }
{
    let Some(word) = options.get_str(row.name) else {
        return match row.default {
            Some(number) => Ok(number),
            None => Err(OptionFault::Missing(*row)),
        };
    };
    match number_in(row.kind, word.as_bytes()) {
        Some(number) => Ok(number),
        None => Err(OptionFault::Value(*row, word)),
    }
}

/// The number that the option says, if it is there.
///
/// # Errors
///
/// The word is no such number.
pub fn optional<'a>(options: &ArgMatches<'a>, row: &Row) -> Result<Option<u64>, OptionFault<'a>>
    ensures value { IfOk result (MayBeValue row.now.kind (first_value (found_of options.now) row.now.name.now)) }
    ensures none { IfErr result (λ _. (n : Option ℕ)
        → MayBeValue row.now.kind (first_value (found_of options.now) row.now.name.now) n → ⊥) }
{
    let Some(word) = options.get_str(row.name) else {
        return Ok(None);
    };
    match number_in(row.kind, word.as_bytes()) {
        Some(number) => Ok(Some(number)),
        None => Err(OptionFault::Value(*row, word)),
    }
}

/// The time in milliseconds that the option says, if it is there, with its word.
///
/// # Errors
///
/// The word is no such time.
pub fn seconds<'a>(
    options: &ArgMatches<'a>,
    row: &Row,
) -> Result<Option<Seconds<'a>>, OptionFault<'a>>
    ensures value { IfOk result (λ time.
        MayBeValue row.now.kind (first_value (found_of options.now) row.now.name.now) (option_map (λ t. t.milliseconds) time)) }
    ensures none { IfErr result (λ _. (n : Option ℕ)
        → MayBeValue row.now.kind (first_value (found_of options.now) row.now.name.now) n → ⊥) }
{
    let Some(word) = options.get_str(row.name) else {
        return Ok(None);
    };
    match number_in(row.kind, word.as_bytes()) {
        Some(milliseconds) => Ok(Some(Seconds { word, milliseconds })),
        None => Err(OptionFault::Value(*row, word)),
    }
}

/// The meeting that the option names, or the one that is drawn.
///
/// # Errors
///
/// The word names none.
pub fn meeting<'a>(options: &ArgMatches<'a>, row: &Row) -> Result<Meeting, OptionFault<'a>>
    ensures value { IfOk result (IsMeeting (first_value (found_of options.now) row.now.name.now)) }
    ensures none { IfErr result (λ _. (wanted : Meeting)
        → IsMeeting (first_value (found_of options.now) row.now.name.now) wanted → ⊥) }
{
    let Some(word) = options.get_str(row.name) else {
        return Ok(Meeting::Drawn);
    };
    match word {
        "drawn" => Ok(Meeting::Drawn),
        "each" => Ok(Meeting::Each),
        "first" => Ok(Meeting::First),
        "never" => Ok(Meeting::Never),
        _ => Err(OptionFault::Value(*row, word)),
    }
}

/// The mix of verbs that the option names, or all of them.
///
/// # Errors
///
/// The word names none.
pub fn mix<'a>(options: &ArgMatches<'a>, row: &Row) -> Result<Mix, OptionFault<'a>>
    ensures value { IfOk result (IsMix (first_value (found_of options.now) row.now.name.now)) }
    ensures none { IfErr result (λ _. (wanted : Mix)
        → IsMix (first_value (found_of options.now) row.now.name.now) wanted → ⊥) }
{
    let Some(word) = options.get_str(row.name) else {
        return Ok(Mix::All);
    };
    match word {
        "all" => Ok(Mix::All),
        "counters" => Ok(Mix::Counters),
        "cas" => Ok(Mix::Cas),
        "bodies" => Ok(Mix::Bodies),
        "presence" => Ok(Mix::Presence),
        other => Err(OptionFault::Value(*row, other)),
    }
}

/// The notation that the option names.
///
/// # Errors
///
/// The word names none, or the option is missing.
pub fn notation<'a>(options: &ArgMatches<'a>, row: &Row) -> Result<Notation, OptionFault<'a>>
    ensures value { IfOk result (λ wanted. first_value (found_of options.now) row.now.name.now ≡ Some (notation_word wanted)) }
    ensures none { IfErr result (λ _. (wanted : Notation)
        → first_value (found_of options.now) row.now.name.now ≡ Some (notation_word wanted) → ⊥) }
{
    let Some(word) = options.get_str(row.name) else {
        return Err(OptionFault::Missing(*row));
    };
    match word {
        "json" => Ok(Notation::Json),
        "edn" => Ok(Notation::Edn),
        other => Err(OptionFault::Value(*row, other)),
    }
}

/// The name that the option gives, if it is there.
///
/// # Errors
///
/// No keys may be put under the word.
pub fn name<'a>(
    options: &ArgMatches<'a>,
    row: &Row,
) -> Result<Option<Namespace<'a>>, OptionFault<'a>>
    ensures value { IfOk result (MayBeName (first_value (found_of options.now) row.now.name.now)) }
    ensures none { IfErr result (λ _. (name : Option (List ℕ))
        → MayBeName (first_value (found_of options.now) row.now.name.now) name → ⊥) }
{
    let Some(word) = options.get_str(row.name) else {
        return Ok(None);
    };
    match Namespace::new(word.as_bytes()) {
        Some(name) => Ok(Some(name)),
        None => Err(OptionFault::Value(*row, word)),
    }
}

/// The key that the option names, if it is there.
pub fn key<'a>(options: &ArgMatches<'a>, row: &Row) -> Option<SoughtKey<'a>>
    ensures { result ≡ first_value (found_of options.now) row.now.name.now }
{
    match options.get_str(row.name) {
        Some(word) => Some(SoughtKey::new(word)),
        None => None,
    }
}

/// The server that the argument names.
///
/// # Errors
///
/// It is missing.
pub fn address<'a>(options: &ArgMatches<'a>, row: &Row) -> Result<&'a str, OptionFault<'a>>
    ensures value { IfOk result (λ server. first_value (found_of options.now) row.now.name.now ≡ Some server.now) }
    ensures none { IfErr result (λ _. (server : List ℕ)
        → first_value (found_of options.now) row.now.name.now ≡ Some server → ⊥) }
{
    match options.get_str(row.name) {
        Some(server) => Ok(server),
        None => Err(OptionFault::Missing(*row)),
    }
}
