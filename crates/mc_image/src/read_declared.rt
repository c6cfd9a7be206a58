//! Reads what an image declares: its keys, and how many flags and variables there are.
ghost use Rattle.std.specs.Prelude.{◌≡◌, ◌≤◌, IfOk};
ghost use Rattle.mc_script.specs.declared.limits.TheConstants.{FLAGS_LIMIT};
ghost use Rattle.mc_image.specs.ImageReading as reading;

use crate::fields::Fields;
use crate::{ImageFault, ImageKind};
use mc_protocol::{Bytes, KEY_BYTES_LIMIT, KEYS_LIMIT, is_key, is_new};
use mc_script::{VARIABLES_LIMIT, Version};
use std::alloc::Global;
use std::marker::Model;

/// What an image declares. Contracts see the keys as a list.
#[derive(Drop)]
pub(crate) struct Declared {
    pub(crate) keys: Vec<Bytes>,
    /// How many flags there are.
    pub(crate) flags: u8,
    /// How many variables there are.
    pub(crate) vars: u8,
}

impl Model for Declared {
    ghost use Rattle.mc_image.specs.ImageReading as reading;

    ghost Value = { reading.Declared };

    ghost view = { λ d. record { keys = d.keys.items; flags = d.flags; vars = d.vars } };
}

/// Takes the keys, and the numbers of flags and variables.
#[tactic(auto, unfolding(crate::specs::ImageReading::declared_in))]
pub(crate) fn read_declared(
    alloc: Global,
    fields: &mut Fields,
    version: Version,
) -> Result<Declared, ImageFault>
    ensures read { reading.Says (λ declared. (declared, fields.new)) result (reading.declared_in version fields.old) }
    ensures within { IfOk result (λ declared. declared.flags ≤ FLAGS_LIMIT) }
{
    let keys = read_keys(alloc, fields)?;
    let flags = fields.byte_within(0, version.flags_limit())?;
    let vars = fields.byte_within(0, VARIABLES_LIMIT)?;
    Ok(Declared { keys, flags, vars })
}

/// Takes the number of the keys, and each key.
#[tactic(auto, unfolding(crate::specs::ImageReading::keys_in))]
fn read_keys(alloc: Global, fields: &mut Fields) -> Result<Vec<Bytes>, ImageFault>
    ensures { reading.Says (λ keys. (keys.items, fields.new)) result (reading.keys_in fields.old) }
{
    let count = fields.byte_within(1, KEYS_LIMIT)?;
    let mut keys = Vec::new(alloc);
    for _ in 0..count {
        let key = read_key(fields, keys.as_slice())?;
        keys.push(Bytes::new(Vec::from_slice(alloc, key)?))?;
    }
    Ok(keys)
}

/// Takes a key that is none of `keys`.
#[tactic(auto, unfolding(crate::specs::ImageReading::key_in))]
fn read_key<'a>(fields: &mut Fields<'a>, keys: &[Bytes]) -> Result<&'a [u8], ImageFault>
    ensures { reading.Reads (λ key. (key.now, fields.new)) result (reading.key_in keys.now fields.old) }
{
    let count = fields.byte_within(1, KEY_BYTES_LIMIT)?;
    let offset = fields.offset();
    let key = fields.bytes(usize::from(count))?;
    if !is_key(key) || !is_new(keys, key) {
        return Err(ImageFault::at(ImageKind::Range, offset));
    }
    Ok(key)
}
