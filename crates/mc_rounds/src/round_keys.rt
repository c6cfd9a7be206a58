//! The keys of rounds.
ghost use Rattle.std.specs.Prelude.{◌≡◌, IfOk};
ghost use Rattle.std.specs.Option.{option_copied};
ghost use Rattle.mc_rounds.specs.RoundKeys as spec;

use itoa::Buffer;
use mc_protocol::{Bytes, OutOfMemory, append_all};
use mc_settings::Namespace;
use std::alloc::Global;

/// The keys of rounds: `k1`, `k2` and so on, with the name and a dash in front if there is a name.
pub fn keys_of(
    alloc: Global,
    count: u8,
    name: Option<&Namespace<'_>>,
) -> Result<Vec<Bytes>, OutOfMemory>
    ensures { IfOk result (λ keys. keys.items ≡ spec.keys_of (option_copied name.entry) count) }
{
    let mut keys = Vec::new(alloc);
    'keys: for index in 0..count {
        keys.push(key_of(alloc, u16::from(index) + 1, name)?)?;
    }
    Ok(keys)
}

fn key_of(alloc: Global, number: u16, name: Option<&Namespace<'_>>) -> Result<Bytes, OutOfMemory>
    ensures { IfOk result (λ key. key ≡ spec.key_of (option_copied name.entry) number) }
{
    let mut text = Buffer::new();
    let digits = text.format(number).as_bytes();
    let mut key = Vec::new(alloc);
    match name {
        Some(name) => append_all(&mut key, &[name.as_slice(), b"-", b"k", digits])?,
        None => append_all(&mut key, &[b"k", digits])?,
    }
    Ok(Bytes::new(key))
}
