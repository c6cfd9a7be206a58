//! A cache as a map from keys to items.
use crate::lines::bytes;
use mc_model::{Cache, Item};
use mc_protocol::{Bytes, OutOfMemory};
use std::alloc::Global;
use std::test::Fail;

fn item(alloc: Global, number: u64) -> Result<Item, OutOfMemory> {
    Ok(Item {
        flags: 1,
        body: bytes(alloc, "x")?,
        number,
    })
}

/// The number of what the cache holds at the key.
fn number_at(cache: &Cache, key: &str) -> Option<u64> {
    match cache.find(key.as_bytes()) {
        Some(item) => Some(item.number),
        None => None,
    }
}

/// A cache of these keys and numbers.
fn cache_of(alloc: Global, held: &[(&str, u64)]) -> Result<Cache, OutOfMemory> {
    let mut entries = Vec::new(alloc);
    for (key, number) in held {
        entries.push(entry(alloc, key, *number)?)?;
    }
    Ok(Cache::from_entries(entries))
}

fn entry(alloc: Global, key: &str, number: u64) -> Result<(Bytes, Item), OutOfMemory> {
    let key = bytes(alloc, key)?;
    Ok((key, item(alloc, number)?))
}

static HELD: &[(&str, u64)] = &[("a", 2), ("b", 3), ("a", 4)];

/// Of a key that stands twice the first counts.
static FOUND: &[(&str, Option<u64>)] = &[("a", Some(2)), ("b", Some(3)), ("c", None)];

fn finds(cache: &Cache, found: &[(&str, Option<u64>)]) -> bool {
    for (key, number) in found {
        if number_at(cache, key) != *number {
            return false;
        }
    }
    true
}

#[test]
fn takes_the_first_item_of_a_key(rt: HostRuntime) -> Result<(), Fail> {
    assert!(rt; finds(&cache_of(rt.alloc(), HELD)?, FOUND));
    Ok(())
}

/// What a cache of one or two items finds before an item is put, its key and number, and what it finds then.
type Row = (
    &'static [(&'static str, u64)],
    &'static [(&'static str, Option<u64>)],
    &'static str,
    u64,
    &'static [(&'static str, Option<u64>)],
);

static PUTS: &[Row] = &[
    (
        &[("a", 2)],
        &[("a", Some(2)), ("b", None)],
        "b",
        3,
        &[("a", Some(2)), ("b", Some(3))],
    ),
    (
        &[("a", 2), ("b", 3)],
        &[("a", Some(2)), ("b", Some(3))],
        "a",
        4,
        &[("a", Some(4)), ("b", Some(3))],
    ),
];

fn put(alloc: Global, cache: &mut Cache, key: &str, number: u64) -> Result<(), OutOfMemory> {
    let (key, item) = entry(alloc, key, number)?;
    cache.put(key, item)
}

/// Whether the cache finds so once the item is put. A call that finds no memory leaves the cache as it was, and is made once more.
fn puts(alloc: Global, row: &Row) -> Result<bool, OutOfMemory> {
    let (held, before, key, number, after) = row;
    let mut cache = cache_of(alloc, held)?;
    if put(alloc, &mut cache, key, *number).is_err() {
        if !finds(&cache, before) {
            return Ok(false);
        }
        put(alloc, &mut cache, key, *number)?;
    }
    Ok(finds(&cache, after))
}

#[test]
fn puts_items(rt: HostRuntime) -> Result<(), Fail> {
    for row in PUTS {
        assert!(rt; puts(rt.alloc(), row)?, "{}", row.2);
    }
    Ok(())
}
