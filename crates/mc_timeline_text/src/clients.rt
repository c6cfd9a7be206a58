//! Reads the numbers of clients.
ghost use Rattle.std.specs.Prelude.{◌≡◌, ◌≢◌, ◌<◌, ◌≤◌, ℕ, ◌∷◌, decimal, length, IfOk, IfErr};
ghost use Rattle.mc_protocol.specs.{Decimals.SpellsNumber, Decimals.MAX_64, Lines.Words};
ghost use Rattle.mc_timeline.specs.declared.limits.TheConstants.{CLIENTS_LIMIT};

use itoa::Buffer;
use mc_history::{Expected, ExpectedInTimeline, HistoryFault, Misread};
use mc_model::HistoryKind;
use mc_protocol::{WordLine, has_digits_alone, is_word};
use mc_timeline::CLIENTS_LIMIT;
use mc_words::{WordsKind, read_number};

/// Reads the first word of a line as the number of a client. `expected` is what may stand there. It takes no memory.
pub(crate) fn read_client(line: &WordLine, expected: ExpectedInTimeline) -> Result<u8, HistoryFault>
    ensures found { IfOk result (λ client. (others : Words) × (line.now.words ≡ decimal client ∷ others)) }
    ensures small { IfOk result (λ client. client < CLIENTS_LIMIT) }
    ensures none { IfErr result (λ _. (client : ℕ) → client < CLIENTS_LIMIT
        → (others : Words) → line.now.words ≡ decimal client ∷ others → ⊥) }
    ensures memory { IfErr result (λ fault. fault.kind ≢ HistoryKind.OutOfMemory) }
{
    let [word, ..] = line.words() else {
        return Err(HistoryFault::in_line(line, 0, Expected::InTimeline(expected)));
    };
    match client_of(word) {
        Ok(client) => Ok(client),
        Err(kind) => Err(fault_of_client(line, word, kind, expected)),
    }
}

// The number of the client that the word names, or why it names none.
fn client_of(word: &[u8]) -> Result<u8, WordsKind>
    ensures found { IfOk result (λ client. word.now ≡ decimal client) }
    ensures small { IfOk result (λ client. client < CLIENTS_LIMIT) }
    ensures none { IfErr result (λ _. (client : ℕ) → client < CLIENTS_LIMIT → word.now ≡ decimal client → ⊥) }
    ensures memory { IfErr result (λ kind. kind ≢ WordsKind.OutOfMemory) }
{
    match read_number(u64::MAX, word) {
        Ok(number) => client_of_number(word, number),
        Err(kind) => Err(kind),
    }
}

// The number of the client that a word names, if it spells this number.
fn client_of_number(word: &[u8], number: u64) -> Result<u8, WordsKind>
    requires { SpellsNumber MAX_64 word.now number }
    ensures found { IfOk result (λ client. word.now ≡ decimal client) }
    ensures small { IfOk result (λ client. client < CLIENTS_LIMIT) }
    ensures none { IfErr result (λ _. (client : ℕ) → client < CLIENTS_LIMIT → word.now ≡ decimal client → ⊥) }
    ensures memory { IfErr result (λ kind. kind ≢ WordsKind.OutOfMemory) }
{
    let mut text = Buffer::new();
    if !is_word(text.format(number).as_bytes(), word) {
        return Err(WordsKind::Form);
    }
    if number >= CLIENTS_LIMIT as u64 {
        return Err(WordsKind::Number);
    }
    Ok(number as u8)
}

// The fault of a line whose first word names no client.
fn fault_of_client(
    line: &WordLine,
    word: &[u8],
    kind: WordsKind,
    expected: ExpectedInTimeline,
) -> HistoryFault
    requires { kind ≢ WordsKind.OutOfMemory }
    ensures { result.kind ≢ HistoryKind.OutOfMemory }
{
    if kind == WordsKind::Number {
        return HistoryFault::of_line(
            HistoryKind::Number,
            line.number(),
            Misread {
                word: 0,
                expected: Expected::InTimeline(ExpectedInTimeline::SmallClient),
            },
        );
    }
    if has_digits_alone(word) {
        return HistoryFault::in_line(line, 0, Expected::InTimeline(ExpectedInTimeline::Client));
    }
    let is_known = line.begins_with(b"explain") || line.begins_with(b"end");
    let index = if is_known { 1 } else { 0 };
    HistoryFault::in_line(line, index, Expected::InTimeline(expected))
}
