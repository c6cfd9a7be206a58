//! The words of a script that stand for declared names, and the bytes of a body.

ghost use Rattle.std.specs.Prelude.{◌≡◌, ◌<◌, ◌≤◌, length};
ghost use Rattle.std.specs.Option.{MatchOption};
ghost use Rattle.mc_protocol.specs.Names as names;
ghost use Rattle.mc_script.specs.ScriptWords as spec;

use mc_protocol::{Bytes, SCRIPT_BODY_LIMIT};

/// Whether the bytes may be the body of an item: at most [`SCRIPT_BODY_LIMIT`], each a letter or a digit.
pub fn is_body(bytes: &[u8]) -> bool
    ensures { result ≡ spec.is_body bytes.now }
{
    bytes.len() <= SCRIPT_BODY_LIMIT && are_body_bytes(bytes)
}

fn are_body_bytes(bytes: &[u8]) -> bool
    ensures { result ≡ spec.are_body_bytes bytes.now }
{
    bytes.iter().all(|byte| is_body_byte(*byte))
}

fn is_body_byte(byte: u8) -> bool
    ensures { result ≡ spec.is_body_byte byte }
{
    byte.is_ascii_alphanumeric()
}

/// The index of the name among these, which are at most 255.
pub(crate) fn index_of(declared: &[Bytes], word: &[u8]) -> Option<u8>
    requires { length declared.now ≤ 255 }
    ensures index { result ≡ names.index_of declared.now word.now }
    ensures below { MatchOption result (length declared.now ≤ 255) (λ index. index < length declared.now) }
{
    match mc_protocol::index_of(declared, word) {
        Some(index) => Some(index as u8),
        None => None,
    }
}
