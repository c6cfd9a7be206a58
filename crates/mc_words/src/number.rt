//! The numbers in the words of requests and replies.

ghost use Rattle.std.specs.Prelude.{◌≡◌, ◌≢◌, ℕ, IfOk, IfErr};
ghost use Rattle.mc_protocol.specs.Decimals.{SpellsNumber};
ghost use Rattle.mc_words.specs.Reading as reading;

use crate::WordsKind;
use mc_protocol::{DecimalFault, read_decimal};

/// Reads a decimal of 1 to 20 digits, for a number of at most `greatest`. Zeros may lead. A word of digits that says
/// more, or is longer, is [`WordsKind::Number`], and any other word [`WordsKind::Form`]. It takes no memory.
pub fn read_number(greatest: u64, word: &[u8]) -> Result<u64, WordsKind>
    ensures exact { result ≡ reading.number_in greatest word.now }
    ensures found { IfOk result (SpellsNumber greatest word.now) }
    ensures none { IfErr result (λ _. (n : ℕ) → SpellsNumber greatest word.now n → ⊥) }
    ensures memory { IfErr result (λ fault. fault ≢ WordsKind.OutOfMemory) }
{
    match read_decimal(greatest, word) {
        Ok(number) => Ok(number),
        Err(DecimalFault::NotDigits) => Err(WordsKind::Form),
        Err(DecimalFault::TooLarge) => Err(WordsKind::Number),
    }
}
