//! Reads the words of a request between its key and its marks.

ghost use Rattle.std.specs.Prelude.{◌≡◌, map};
ghost use Rattle.std.specs.Result.{result_ok};
ghost use Rattle.mc_protocol.specs.Decimals as decimals;
ghost use Rattle.mc_script_text.specs.Reading as reading;

use crate::word_fault::WordFault;
use crate::words::read_number;
use crate::{Expected, ScriptKind, Sort};
use mc_protocol::{Bytes, Fields};
use mc_script::{Argument, Names, is_body};
use std::alloc::Global;

// Where these words stand in their line, after the verb and the key.
const FLAGS_WORD: usize = 2;

const BODY_WORD: usize = 3;

const UNIQUE_WORD: usize = 4;

const AMOUNT_WORD: usize = 2;

/// What the words between the key and the marks of a request say.
#[derive(Drop)]
pub(crate) struct Parts {
    pub(crate) flags: u32,
    pub(crate) argument: Argument,
    pub(crate) body: Bytes,
}

/// The number of words of these fields.
pub(crate) fn field_count(fields: Fields) -> usize
    ensures { result ≡ reading.field_count fields }
{
    match fields {
        Fields::KeyAlone | Fields::Expiry => 0,
        Fields::Item => 2,
        Fields::Swap => 3,
        Fields::Amount => 1,
    }
}

/// The index in its line of the mark with this index among those of a request with these fields.
pub(crate) fn mark_word(fields: Fields, mark: usize) -> usize {
    mark.saturating_add(field_count(fields)).saturating_add(2)
}

/// Reads the words after the key. The fault is that of the leftmost faulty word; a missing word stands after the last.
#[tactic(auto, unfolding(crate::specs::Reading::fields_in))]
pub(crate) fn read_fields(
    alloc: Global,
    names: &Names,
    fields: Fields,
    words: &[&[u8]],
) -> Result<Parts, WordFault>
    ensures { reading.Gives result (reading.fields_in names.now fields (map (λ w. w.now) words.now)) }
{
    match fields {
        Fields::KeyAlone | Fields::Expiry => Ok(Parts {
            flags: 0,
            argument: Argument::Nothing,
            body: Bytes::new(Vec::new(alloc)),
        }),
        Fields::Item => read_item(alloc, words),
        Fields::Swap => read_swap(alloc, names, words),
        Fields::Amount => read_increment(alloc, names, words),
    }
}

/// Reads flags and a body.
fn read_item(alloc: Global, words: &[&[u8]]) -> Result<Parts, WordFault>
    ensures { reading.Gives result (reading.item_in (map (λ w. w.now) words.now)) }
{
    let [flags, rest @ ..] = words else {
        return Err(WordFault::line(FLAGS_WORD, Expected::Flags));
    };
    let flags = read_flags(flags)?;
    let [body, others @ ..] = rest else {
        return Err(WordFault::line(BODY_WORD, Expected::Body));
    };
    let body = read_body(alloc, body, others)?;
    Ok(Parts {
        flags,
        argument: Argument::Nothing,
        body,
    })
}

/// Reads flags, a body and the variable that has the cas unique.
fn read_swap(alloc: Global, names: &Names, words: &[&[u8]]) -> Result<Parts, WordFault>
    ensures { reading.Gives result (reading.swap_in names.now (map (λ w. w.now) words.now)) }
{
    let [flags, rest @ ..] = words else {
        return Err(WordFault::line(FLAGS_WORD, Expected::Flags));
    };
    let flags = read_flags(flags)?;
    let [body, others @ ..] = rest else {
        return Err(WordFault::line(BODY_WORD, Expected::Body));
    };
    let body = read_body(alloc, body, others)?;
    let [unique, ..] = others else {
        return Err(WordFault::line(UNIQUE_WORD, Expected::Unique));
    };
    let argument = read_unique(names, unique)?;
    Ok(Parts {
        flags,
        argument,
        body,
    })
}

/// Reads the amount of an increment.
fn read_increment(alloc: Global, names: &Names, words: &[&[u8]]) -> Result<Parts, WordFault>
    ensures { reading.Gives result (reading.increment_in names.now (map (λ w. w.now) words.now)) }
{
    let [amount, ..] = words else {
        return Err(WordFault::line(AMOUNT_WORD, Expected::Amount));
    };
    let argument = read_amount(names, amount)?;
    Ok(Parts {
        flags: 0,
        argument,
        body: Bytes::new(Vec::new(alloc)),
    })
}

fn read_flags(word: &[u8]) -> Result<u32, WordFault>
    ensures { result_ok result ≡ reading.number_in decimals.MAX_32 word.now }
{
    match read_number(u64::from(u32::MAX), word) {
        Some(flags) => Ok(flags as u32),
        None => {
            let expected = Expected::Flags;
            Err(WordFault::new(ScriptKind::Number, FLAGS_WORD, expected))
        }
    }
}

/// Reads `=` and a body, which these words follow.
fn read_body(alloc: Global, word: &[u8], others: &[&[u8]]) -> Result<Bytes, WordFault>
    ensures { reading.Gives result (reading.body_in word.now) }
{
    let [b'=', body @ ..] = word else {
        return Err(WordFault::line(BODY_WORD, instead_of_body(word, others)));
    };
    if !is_body(body) {
        let expected = Expected::LettersAndDigits;
        return Err(WordFault::new(ScriptKind::Data, BODY_WORD, expected));
    }
    Ok(Bytes::new(Vec::from_slice(alloc, body)?))
}

/// What was expected where this word is no body. The protocol's own line has two numbers there.
fn instead_of_body(word: &[u8], others: &[&[u8]]) -> Expected {
    match others {
        [other, ..] if is_number(word) && is_number(other) => Expected::NoExpiry,
        _ => Expected::Body,
    }
}

/// Whether the word is a decimal.
pub(crate) fn is_number(word: &[u8]) -> bool {
    read_number(u64::MAX, word).is_some()
}

/// Reads `$` and a variable.
fn read_unique(names: &Names, word: &[u8]) -> Result<Argument, WordFault>
    ensures { result_ok result ≡ reading.unique_in names.now word.now }
{
    let [first, name @ ..] = word else {
        return Err(WordFault::line(UNIQUE_WORD, Expected::Unique));
    };
    if *first != b'$' {
        return Err(WordFault::line(UNIQUE_WORD, Expected::Unique));
    }
    read_variable(names, UNIQUE_WORD, name)
}

/// Reads a number, or `$` and a variable.
fn read_amount(names: &Names, word: &[u8]) -> Result<Argument, WordFault>
    ensures { result_ok result ≡ reading.amount_in names.now word.now }
{
    let [first, name @ ..] = word else {
        return Err(WordFault::line(AMOUNT_WORD, Expected::Amount));
    };
    if *first == b'$' {
        return read_variable(names, AMOUNT_WORD, name);
    }
    match read_number(u64::MAX, word) {
        Some(amount) => Ok(Argument::Number(amount)),
        None => {
            let expected = Expected::Amount;
            Err(WordFault::new(ScriptKind::Number, AMOUNT_WORD, expected))
        }
    }
}

/// The variable that the word with this index names.
fn read_variable(names: &Names, word: usize, name: &[u8]) -> Result<Argument, WordFault>
    ensures { result_ok result ≡ reading.variable_named names.now name.now }
{
    match names.variable(name) {
        Some(variable) => Ok(Argument::Variable(variable)),
        None => {
            let expected = Expected::KnownName(Sort::Variable);
            Err(WordFault::new(ScriptKind::UnknownVar, word, expected))
        }
    }
}
