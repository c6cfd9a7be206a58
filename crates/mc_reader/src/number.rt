//! Numbers as replies: digits, and the spaces that a server may pad them with.
ghost use Rattle.std.specs.Prelude.{◌≡◌, true};
ghost use Rattle.mc_protocol.specs.Decimals.{has_digits_alone};
ghost use Rattle.mc_reader.specs.Words as spec;

use crate::said::Said;
use crate::words::cut_word;
use crate::{NUMBER_SPACES_LIMIT, ReadFault};
use mc_protocol::{Reply, has_digits_alone, value_of_digits};

/// The number that the text is: digits, and at most [`NUMBER_SPACES_LIMIT`] spaces after them.
#[tactic(auto, unfolding(crate::specs::Words::number_says))]
pub(crate) fn read_number(text: &[u8]) -> Result<Said, ReadFault>
    ensures { result ≡ spec.number_says text.now }
{
    let (digits, spaces) = cut_word(text);
    if !has_digits_alone(digits) || !are_spaces(spaces) || spaces.len() > NUMBER_SPACES_LIMIT {
        return Err(ReadFault::NotAReply);
    }
    match number_up_to(u64::MAX, digits) {
        Some(number) => Ok(Said::Whole(Reply::Number(number))),
        None => Err(ReadFault::NumberTooLarge),
    }
}

/// The number that these digits stand for, where it is at most `greatest`.
pub(crate) fn number_up_to(greatest: u64, digits: &[u8]) -> Option<u64>
    requires { has_digits_alone digits.now ≡ true }
    ensures { result ≡ spec.number_up_to greatest digits.now }
{
    match value_of_digits(digits) {
        Some(number) if number <= greatest => Some(number),
        _ => None,
    }
}

fn are_spaces(bytes: &[u8]) -> bool
    ensures { result ≡ spec.are_spaces bytes.now }
{
    bytes.iter().all(|byte| *byte == b' ')
}
