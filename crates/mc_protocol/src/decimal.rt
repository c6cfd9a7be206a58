//! The reader of decimals.

ghost use Rattle.std.specs.Prelude.{◌≡◌, ◌<◌, ◌↔◌, ℕ, true, false, Err, IfOk, IfErr, length};
ghost use Rattle.std.specs.{Option.MatchOption, Str.Parse.digits_value};
ghost use Rattle.mc_protocol.specs.Decimals as spec;

use crate::DIGITS_LIMIT;

/// Why a word is no decimal.
#[derive(Clone, Copy, Debug, PartialEq, Eq)]
pub enum DecimalFault {
    /// It is empty, or has another byte than digits.
    NotDigits,
    /// It has more than [`DIGITS_LIMIT`] digits, or says more than the greatest number.
    TooLarge,
}

/// Reads a decimal of 1 to [`DIGITS_LIMIT`] digits that is at most `greatest`. Zeros may lead.
#[tactic(auto, unfolding(crate::specs::Decimals::decimal_in))]
pub fn read_decimal(greatest: u64, word: &[u8]) -> Result<u64, DecimalFault>
    ensures found { IfOk result (spec.SpellsNumber greatest word.now) }
    ensures none { IfErr result (λ _. (n : ℕ) → spec.SpellsNumber greatest word.now n → ⊥) }
    ensures not_digits { (result ≡ Err DecimalFault.NotDigits) ↔ (spec.has_digits_alone word.now ≡ false) }
    ensures exact { result ≡ spec.decimal_in greatest word.now }
{
    if !has_digits_alone(word) {
        return Err(DecimalFault::NotDigits);
    }
    if word.len() > DIGITS_LIMIT {
        return Err(DecimalFault::TooLarge);
    }
    match value_of_digits(word) {
        Some(value) if value <= greatest => Ok(value),
        _ => Err(DecimalFault::TooLarge),
    }
}

/// Whether the word has digits and nothing else, and at least one.
pub fn has_digits_alone(word: &[u8]) -> bool
    ensures { result ≡ spec.has_digits_alone word.now }
{
    !word.is_empty() && are_digits(word)
}

fn are_digits(word: &[u8]) -> bool
    ensures { result ≡ spec.are_digits word.now }
{
    word.iter().all(|byte| is_digit(*byte))
}

/// Whether the byte is a decimal digit.
pub fn is_digit(byte: u8) -> bool
    ensures { result ≡ spec.is_digit byte }
{
    byte.is_ascii_digit()
}

/// The number that these digits stand for, where 64 bits hold it.
pub fn value_of_digits(digits: &[u8]) -> Option<u64>
    requires some { 0 < length digits.now }
    requires digits { spec.are_digits digits.now ≡ true }
    ensures { MatchOption result (spec.MAX_64 < digits_value 10 digits.now) (λ n. n ≡ digits_value 10 digits.now) }
{
    match str::from_utf8(digits) {
        Ok(text) => text.parse().ok(),
        Err(_) => None,
    }
}
