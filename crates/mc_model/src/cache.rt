//! What a cache holds: a finite map from keys to items.
ghost use Rattle.std.specs.Prelude.{◌≡◌, ◌≤◌, IfOk, OnOk, OnErr, vec_len};
ghost use Rattle.std.specs.{Vec.vec_capacity, Option.option_copied};
ghost use Rattle.std.specs.FinMap as finite_map;
ghost use Rattle.mc_model.specs.Contents.{contents_of};

use mc_protocol::{Bytes, OutOfMemory};
use std::alloc::Global;
use std::marker::Model;

/// What a cache holds at a key. Each call that stores makes a new version of the item, with a number that no other
/// version of its key has.
#[derive(Debug, Drop)]
pub struct Item {
    /// The client's flags.
    pub flags: u32,
    pub body: Bytes,
    /// The cas unique.
    pub number: u64,
}

impl Item {
    fn copy(&self, alloc: Global) -> Result<Item, OutOfMemory>
        ensures { IfOk result (λ copy. copy ≡ self.now) }
    {
        Ok(Item {
            flags: self.flags,
            body: self.body.copy(alloc)?,
            number: self.number,
        })
    }
}

/// A cache: a finite map from keys to items. It is made for the few keys of a history, so a look-up goes through its
/// entries.
#[derive(Debug, Drop)]
pub struct Cache {
    entries: Vec<(Bytes, Item)>,
}

impl Model for Cache {
    ghost use Rattle.mc_model.specs.Contents.{Contents, coded_contents};

    ghost Value = { Contents };

    ghost coded = { coded_contents };

    ghost use Rattle.std.specs.FinMap as finite_map;

    ghost view = { λ c. finite_map.from_entries c.entries.items };
}

impl Cache {
    /// An empty cache, which allocates where it grows.
    pub fn new(alloc: Global) -> Self
        ensures { result ≡ finite_map.empty }
    {
        Cache {
            entries: Vec::new(alloc),
        }
    }

    /// A cache that holds these items. Of a key that `entries` has twice, it holds the first item.
    pub fn from_entries(entries: Vec<(Bytes, Item)>) -> Self
        ensures { result ≡ contents_of entries.items }
    {
        Cache { entries }
    }

    /// A copy. Its memory is its own, and comes from where the cache has its memory.
    pub fn copy(&self) -> Result<Cache, OutOfMemory>
        ensures { IfOk result (λ copy. copy ≡ self.now) }
    {
        Ok(Cache {
            entries: copy_entries(self.allocator(), self.entries.as_slice())?,
        })
    }

    /// Where the cache has its memory from.
    pub(crate) fn allocator(&self) -> Global {
        *self.entries.allocator()
    }

    /// What the cache holds at the key.
    pub fn find(&self, key: &[u8]) -> Option<&Item>
        ensures { option_copied result ≡ finite_map.get self.now key.now }
    {
        self.entries
            .iter()
            .find(|entry| entry.0.as_slice() == key)
            .map(|entry| &entry.1)
    }

    /// Puts an item at the key, in place of what is there. Want of memory leaves the cache as it was.
    pub fn put(&mut self, key: Bytes, item: Item) -> Result<(), OutOfMemory>
        ensures ok { OnOk result (self.new ≡ finite_map.insert self.old key item) }
        ensures err { OnErr result (self.new ≡ self.old) }
    {
        self.entries.reserve(1)?;
        remove_key(&mut self.entries, key.as_slice());
        self.entries.push_reserved((key, item));
        Ok(())
    }

    /// Removes what the cache holds at the key.
    pub(crate) fn remove(&mut self, key: &[u8])
        ensures { self.new ≡ finite_map.remove self.old key.now }
    {
        remove_key(&mut self.entries, key);
    }
}

/// Copies of the entries, with memory from `alloc`.
fn copy_entries(alloc: Global, entries: &[(Bytes, Item)]) -> Result<Vec<(Bytes, Item)>, OutOfMemory>
    ensures { IfOk result (λ copies. copies.items ≡ entries.entry.now) }
{
    let mut copies = Vec::with_capacity(alloc, entries.len())?;
    'copying: for entry in entries {
        let key = entry.0.copy(alloc)?;
        let item = entry.1.copy(alloc)?;
        copies.push((key, item))?;
    }
    Ok(copies)
}

/// Removes the entries of the key, and gives no memory back.
fn remove_key(entries: &mut Vec<(Bytes, Item)>, key: &[u8])
    ensures removes { contents_of entries.new.items ≡ finite_map.remove (contents_of entries.old.items) key.now }
    ensures len { vec_len entries.new ≤ vec_len entries.old }
    ensures capacity { vec_capacity entries.new ≡ vec_capacity entries.old }
{
    entries.retain(|entry| entry.0.as_slice() != key);
}
