//! The versions of an explanation, and whether they differ.
ghost use Rattle.std.specs.Prelude.{◌≡◌, ◌↔◌, IsTrue, IfOk, map};
ghost use Rattle.mc_history.specs.Distinct.{AreDistinct};

use mc_protocol::{Bytes, OutOfMemory};
use std::alloc::Global;
use std::collections::HashSet;
use std::marker::Model;

/// The key of a version, and its number. Contracts see the pair.
#[derive(Debug, Drop)]
pub(crate) struct Version {
    key: Bytes,
    number: u64,
}

impl Model for Version {
    ghost use Rattle.std.specs.Prelude.{ℕ, List};

    ghost Value = { List ℕ × ℕ };

    ghost view = { λ v. (v.key, v.number) };
}

impl Version {
    /// The version of a key with this number.
    pub(crate) fn new(alloc: Global, key: &Bytes, number: u64) -> Result<Self, OutOfMemory>
        ensures { IfOk result (λ version. version ≡ (key.now, number)) }
    {
        Ok(Version {
            key: key.copy(alloc)?,
            number,
        })
    }
}

/// The same versions.
pub(crate) fn copy_versions(
    alloc: Global,
    versions: &[(Bytes, u64)],
) -> Result<Vec<Version>, OutOfMemory>
    ensures { IfOk result (λ copies. copies.items ≡ versions.now) }
{
    let mut copies = Vec::with_capacity(alloc, versions.len())?;
    'copying: for version in versions {
        copies.push(Version::new(alloc, &version.0, version.1)?)?;
    }
    Ok(copies)
}

/// Whether no version stands twice. There may be a hundred thousand, so they are not compared by pairs.
pub(crate) fn are_distinct(alloc: Global, versions: &[Version]) -> Result<bool, OutOfMemory>
    ensures { IfOk result (λ yes. IsTrue yes ↔ AreDistinct versions.now) }
{
    let mut seen = HashSet::new(alloc);
    'versions: for version in versions {
        let copy = Seen {
            key: version.key.copy(alloc)?,
            number: version.number,
        };
        if !seen.insert(copy)? {
            return Ok(false);
        }
    }
    Ok(true)
}

// A version that was seen.
#[derive(Debug, Drop, PartialEq, Eq, Hash)]
struct Seen {
    key: Bytes,
    number: u64,
}
