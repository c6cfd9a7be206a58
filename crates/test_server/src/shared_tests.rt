//! What stores answer that threads share, and which store a key is in.
use crate::lines::answers;
use mc_server::{FreeBetween, Racy, Shared, shard_of};
use std::test::Fail;

/// Keys, and the stores that they are in. The byte of `a` is 97, and that of `k` 107.
static SHARDS: &[(&[u8], usize)] = &[
    (b"", 0),
    (b"a", 1),
    (b"b", 2),
    (b"q", 1),
    (b"o", 15),
    (b"p", 0),
    (b"kk", 6),
    (b"\xff\xff\xff", 13),
];

#[test]
fn a_key_is_in_one_store(rt: HostRuntime) {
    for (key, shard) in SHARDS {
        assert_eq!(rt; shard_of(key), *shard);
    }
}

/// Each store counts its own numbers: the keys a and q are in one, and b is in another. The bytes of the key aa have the sum 194, so it is
/// in the store of b, and not in that of its last byte.
static ROWS: &[(&str, &str)] = &[
    ("set a 0 =1", "STORED"),
    ("set b 0 =1", "STORED"),
    ("set q 0 =1", "STORED"),
    ("gets a", "HIT 0 =1 1"),
    ("gets b", "HIT 0 =1 1"),
    ("gets q", "HIT 0 =1 2"),
    ("incr a 5", "NUMBER 6"),
    ("delete q", "DELETED"),
    ("gets q", "MISS"),
    ("gets a", "HIT 0 =6 3"),
    ("set aa 0 =1", "STORED"),
    ("gets aa", "HIT 0 =1 2"),
    ("set b 0 =2", "STORED"),
    ("gets b", "HIT 0 =2 3"),
];

#[test]
fn each_store_counts_its_own_numbers(rt: HostRuntime) -> Result<(), Fail> {
    let shared = Shared::new(rt.alloc())?;
    for (line, reply) in ROWS {
        assert!(rt; answers(&rt, &shared, line, reply)?, "{line}");
    }
    Ok(())
}

#[test]
fn each_store_of_a_server_with_a_race_counts_its_own_numbers(rt: HostRuntime) -> Result<(), Fail> {
    let racy = Racy::new(rt.alloc(), FreeBetween)?;
    for (line, reply) in ROWS {
        assert!(rt; answers(&rt, &racy, line, reply)?, "{line}");
    }
    Ok(())
}
