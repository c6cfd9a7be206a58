//! Whether the keys at the start differ.
ghost use Rattle.std.specs.Prelude.{◌↔◌, IsTrue, IfOk, map};
ghost use Rattle.mc_history.specs.Distinct.{AreDistinct};

use mc_protocol::{Bytes, OutOfMemory};
use std::alloc::Global;
use std::collections::BTreeSet;

/// Whether no key stands twice: a set of the keys then has as many. There may be tens of thousands, so they are not
/// compared by pairs.
pub(crate) fn have_distinct_keys(alloc: Global, start: &[(Bytes, u64)]) -> Result<bool, OutOfMemory>
    ensures { IfOk result (λ yes. IsTrue yes ↔ AreDistinct (map (λ k. k.0) start.now)) }
{
    let keys: BTreeSet<&[u8]> = start.iter().map(|entry| entry.0.as_slice()).collect(alloc)?;
    Ok(keys.len() == start.len())
}
