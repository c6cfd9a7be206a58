//! The words of bodies, in which a byte that isn't visible, and `%`, is escaped.
ghost use Rattle.std.specs.Prelude.{◌≡◌, ◌≢◌, ◌++◌, ◌<◌, ℕ, List, false, Some, IfOk, IfErr, OnOk};
ghost use Rattle.std.specs.{Fmt.digit_glyph, Option.option_map};
ghost use Rattle.mc_words.specs.Words as spec;
ghost use Rattle.mc_words.specs.{WordLaws.AreBytes, Misreadings.IsWithin};
ghost use Rattle.mc_words.specs.Reading as reading;

use crate::{ExpectedWord, WordsFault, WordsKind};
use mc_protocol::{Bytes, OutOfMemory, REPLY_BODY_LIMIT};
use std::alloc::Global;

/// Reads a body: `=`, and after it the bytes. A byte from 33 to 126 other than `%` stands for itself, and `%hh` stands
/// for the byte with these two hexadecimal digits. A word that is no body, or one of more than [`REPLY_BODY_LIMIT`] bytes, is
/// [`WordsKind::Form`].
pub fn read_body(alloc: Global, word: &[u8]) -> Result<Bytes, WordsFault>
    ensures exact { reading.Gives (λ b. b) result (reading.body_in word.now) }
    ensures found { IfOk result (spec.SpellsBody word.now) }
    ensures none { IfErr result (λ fault. fault.kind ≢ WordsKind.OutOfMemory
        → (body : List ℕ) → spec.SpellsBody word.now body → ⊥) }
    ensures form { IfErr result (λ fault. fault.kind ≢ WordsKind.Number) }
    ensures word { IfErr result (IsWithin 0) }
{
    body_in(alloc, word)
}

/// Reads a body. The public function adds to the contract what words spell.
#[tactic(auto, unfolding(crate::specs::Reading::body_in))]
fn body_in(alloc: Global, word: &[u8]) -> Result<Bytes, WordsFault>
    ensures exact { reading.Gives (λ b. b) result (reading.body_in word.now) }
    ensures form { IfErr result (λ fault. fault.kind ≢ WordsKind.Number) }
    ensures word { IfErr result (IsWithin 0) }
{
    let [first, text @ ..] = word else {
        return Err(misread(ExpectedWord::Body));
    };
    if *first != b'=' {
        return Err(misread(ExpectedWord::Body));
    }
    let bytes = unescape(alloc, text)?;
    if bytes.len() > REPLY_BODY_LIMIT {
        return Err(misread(ExpectedWord::ShortBody));
    }
    Ok(Bytes::new(bytes))
}

/// The fault of the word, the only one that is read here.
fn misread(expected: ExpectedWord) -> WordsFault
    ensures kind { result.kind ≡ WordsKind.Form }
    ensures misread { result.misread ≡ Some (record { word = 0; expected = expected }) }
{
    WordsFault::form(0, expected)
}

/// The bytes that an escaped text stands for.
fn unescape(alloc: Global, text: &[u8]) -> Result<Vec<u8>, WordsFault>
    ensures exact { reading.Gives (λ v. v.items) result (reading.bytes_in text.now) }
    ensures form { IfErr result (λ fault. fault.kind ≢ WordsKind.Number) }
    ensures word { IfErr result (IsWithin 0) }
{
    let mut bytes = Vec::new(alloc);
    let mut rest = text;
    'bytes: while let Some((byte, after)) = first_byte(rest)? {
        bytes.push(byte)?;
        rest = after;
    }
    Ok(bytes)
}

/// The first byte that the text stands for, and what follows it. An empty text has none.
fn first_byte(text: &[u8]) -> Result<Option<(u8, &[u8])>, WordsFault>
    ensures exact { reading.Gives (λ o. option_map (λ x. (x.0, x.1.now)) o) result (reading.first_byte_in text.now) }
    ensures form { IfErr result (λ fault. fault.kind ≡ WordsKind.Form) }
    ensures word { IfErr result (IsWithin 0) }
{
    match text {
        [] => Ok(None),
        [b'%', high, low, after @ ..] => {
            let (Some(high), Some(low)) = (hex_value(*high), hex_value(*low)) else {
                return Err(misread(ExpectedWord::HexDigits));
            };
            Ok(Some((high * 16 + low, after)))
        }
        [byte, after @ ..] => {
            if !is_plain(*byte) {
                return Err(misread(expected_for(*byte)));
            }
            Ok(Some((*byte, after)))
        }
    }
}

/// What is expected where a byte doesn't stand for itself: of a `%` that comes here, the digits are cut off.
fn expected_for(byte: u8) -> ExpectedWord {
    match byte {
        b'%' => ExpectedWord::HexDigits,
        _ => ExpectedWord::VisibleByte,
    }
}

/// The value of a hexadecimal digit.
fn hex_value(byte: u8) -> Option<u8>
    ensures { result ≡ spec.hex_value byte }
{
    match byte {
        b'0'..=b'9' => Some(byte - b'0'),
        b'a'..=b'f' => Some(byte - b'a' + 10),
        b'A'..=b'F' => Some(byte - b'A' + 10),
        _ => None,
    }
}

/// Whether the byte stands for itself in a body.
fn is_plain(byte: u8) -> bool
    ensures { result ≡ spec.is_plain byte }
{
    byte >= 33 && byte <= 126 && byte != b'%'
}

/// Appends the word of a body. Want of memory can leave a part of it in `out`.
pub(crate) fn append_body(out: &mut Vec<u8>, body: &[u8]) -> Result<(), OutOfMemory>
    ensures ok { OnOk result (out.new.items ≡ out.old.items ++ spec.body_word body.now) }
    ensures bytes { OnOk result (AreBytes body.now) }
{
    out.push(b'=')?;
    'bytes: for byte in body {
        append_byte(out, *byte)?;
    }
    Ok(())
}

/// Appends a byte of a body, escaped if it doesn't stand for itself.
fn append_byte(out: &mut Vec<u8>, byte: u8) -> Result<(), OutOfMemory>
    ensures ok { OnOk result (out.new.items ≡ out.old.items ++ spec.printed_byte byte) }
{
    if is_plain(byte) {
        Ok(out.push(byte)?)
    } else {
        out.extend_from_slice(&[b'%', hex_digit(byte / 16), hex_digit(byte % 16)])
    }
}

/// The hexadecimal digit with this value, in lower case.
fn hex_digit(value: u8) -> u8
    requires { value < 16 }
    ensures { result ≡ digit_glyph false value }
{
    if value < 10 {
        b'0' + value
    } else {
        b'a' + (value - 10)
    }
}
