//! Numbers and keys in the words of a request.
ghost use Rattle.std.specs.Prelude.{◌≡◌, ◌==◌, ◌≤◌, IfSome};
ghost use Rattle.std.specs.List.{list_all};
ghost use Rattle.mc_reader.specs.AskWords as spec;

use crate::REQUEST_KEY_LIMIT;
use mc_protocol::{has_digits_alone, value_of_digits};

/// The number that the word spells, where it is at most `greatest`. Any number of zeros may lead.
#[tactic(auto, unfolding(crate::specs::AskWords::number_in))]
pub(crate) fn number_in(greatest: u64, word: &[u8]) -> Option<u64>
    ensures value { result ≡ spec.number_in greatest word.now }
    ensures small { IfSome result (λ n. n ≤ greatest) }
{
    if !has_digits_alone(word) {
        return None;
    }
    match value_of_digits(word) {
        Some(value) if value <= greatest => Some(value),
        _ => None,
    }
}

/// Whether a time of expiry is 0, where the word is one.
#[tactic(auto, unfolding(crate::specs::AskWords::time_in))]
pub(crate) fn time_in(word: &[u8]) -> Option<bool>
    ensures { result ≡ spec.time_in word.now }
{
    let digits = without_minus(word);
    if !has_digits_alone(digits) {
        return None;
    }
    Some(are_zeros(digits))
}

fn without_minus(word: &[u8]) -> &[u8]
    ensures { result.now ≡ spec.without_minus word.now }
{
    match word {
        [] => word,
        [first, digits @ ..] => { if *first == b'-' { digits } else { word } }
    }
}

/// Whether the word is a key.
pub(crate) fn is_request_key(word: &[u8]) -> bool
    ensures { result ≡ spec.is_request_key word.now }
{
    word.len() <= REQUEST_KEY_LIMIT && are_key_bytes(word)
}

fn are_zeros(digits: &[u8]) -> bool
    ensures { result ≡ list_all (λ byte. byte == 48) digits.now }
{
    digits.iter().all(|byte| *byte == b'0')
}

fn are_key_bytes(word: &[u8]) -> bool
    ensures { result ≡ list_all spec.is_key_byte word.now }
{
    word.iter().all(|byte| is_key_byte(*byte))
}

fn is_key_byte(byte: u8) -> bool
    ensures { result ≡ spec.is_key_byte byte }
{
    32 < byte && byte != 127
}
