//! Names, and where one of them stands among others.

ghost use Rattle.std.specs.Prelude.{◌≡◌, ◌<◌, ⊤, length, MatchOption};
ghost use Rattle.std.specs.{List.list_any, Str.bytes_eq};
ghost use Rattle.mc_protocol.specs.Names as spec;

use crate::{Bytes, KEY_BYTES_LIMIT};

/// Whether the bytes are a name: 1 to `limit` bytes, each a lower case letter, a digit or a dash.
pub fn is_name(limit: usize, bytes: &[u8]) -> bool
    ensures { result ≡ spec.is_name limit bytes.now }
{
    !bytes.is_empty() && bytes.len() <= limit && are_name_bytes(bytes)
}

fn are_name_bytes(bytes: &[u8]) -> bool
    ensures { result ≡ spec.are_name_bytes bytes.now }
{
    bytes.iter().all(|byte| is_name_byte(*byte))
}

fn is_name_byte(byte: u8) -> bool
    ensures { result ≡ spec.is_name_byte byte }
{
    matches!(byte, b'a'..=b'z' | b'0'..=b'9' | b'-')
}

/// Whether the bytes are a key that a text may have: a name of at most [`KEY_BYTES_LIMIT`] bytes.
pub fn is_key(bytes: &[u8]) -> bool
    ensures { result ≡ spec.is_key bytes.now }
{
    is_name(KEY_BYTES_LIMIT, bytes)
}

/// Whether the name is none of these.
pub fn is_new(names: &[Bytes], name: &[u8]) -> bool
    ensures { result ≡ spec.is_new names.now name.now }
{
    !has(names, name)
}

fn has(names: &[Bytes], name: &[u8]) -> bool
    ensures { result ≡ list_any (bytes_eq name.now) names.now }
{
    names.iter().any(|other| name == other.as_slice())
}

/// Where the name first stands among these.
pub fn index_of(names: &[Bytes], name: &[u8]) -> Option<usize>
    ensures index { result ≡ spec.index_of names.now name.now }
    ensures below { MatchOption result ⊤ (λ index. index < length names.now) }
{
    names.iter().position(|other| other.as_slice() == name)
}
