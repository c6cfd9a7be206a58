//! The words of a script that stand for numbers.

ghost use Rattle.std.specs.Prelude.{◌≡◌, ◌≤◌};
ghost use Rattle.std.specs.Option.{MatchOption};
ghost use Rattle.mc_script_text.specs.Reading as reading;

use mc_protocol::read_decimal;

/// Reads a decimal, for a number of at most `greatest`.
pub(crate) fn read_number(greatest: u64, word: &[u8]) -> Option<u64>
    ensures exact { result ≡ reading.number_in greatest word.now }
    ensures small { MatchOption result (greatest ≡ greatest) (λ n. n ≤ greatest) }
{
    match read_decimal(greatest, word) {
        Ok(number) => Some(number),
        Err(_) => None,
    }
}
