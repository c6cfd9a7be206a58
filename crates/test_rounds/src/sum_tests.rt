//! The requests of many rounds, by their checksum.

use crate::texts::{write_openings, write_requests};
use mc_protocol::OutOfMemory;
use mc_rounds::Plan;
use mc_settings::Mix;
use std::alloc::Global;
use std::test::Fail;

const MIXES: [Mix; 5] = [
    Mix::All,
    Mix::Counters,
    Mix::Cas,
    Mix::Bodies,
    Mix::Presence,
];

const SEEDS: [u64; 2] = [1, u64::MAX];
// Of the last one the sequences of the generator are those of the first: their numbers have 64 bits.
const ROUNDS: [u64; 3] = [1, 2, (1 << 57) + 1];
// The last one stands for the requests that begin the round.
const CLIENTS: [u8; 4] = [0, 1, 63, 64];

// FNV-1a of 64 bits, after these bytes too.
fn summed(mut sum: u64, bytes: &[u8]) -> u64 {
    for byte in bytes {
        sum = (sum ^ *byte as u64).wrapping_mul(0x100000001b3);
    }
    sum
}

fn add_client(
    alloc: Global,
    mix: Mix,
    seed: u64,
    round: u64,
    client: u8,
    sum: &mut u64,
) -> Result<(), OutOfMemory> {
    let plan = Plan {
        seed,
        clients: 64,
        requests: 300,
        keys: 1 + client % 16,
        mix,
    };
    let mut text = Vec::new(alloc);
    if client == 64 {
        write_openings(alloc, &plan, round, &mut text)?;
    } else {
        write_requests(alloc, &plan, round, client, &mut text)?;
    }
    *sum = summed(*sum, &text);
    Ok(())
}

fn add_round(
    alloc: Global,
    mix: Mix,
    seed: u64,
    round: u64,
    sum: &mut u64,
) -> Result<(), OutOfMemory> {
    for client in CLIENTS {
        add_client(alloc, mix, seed, round, client, sum)?;
    }
    Ok(())
}

fn add_rounds(alloc: Global, mix: Mix, seed: u64, sum: &mut u64) -> Result<(), OutOfMemory> {
    for round in ROUNDS {
        add_round(alloc, mix, seed, round, sum)?;
    }
    Ok(())
}

fn add_seeds(alloc: Global, mix: Mix, sum: &mut u64) -> Result<(), OutOfMemory> {
    for seed in SEEDS {
        add_rounds(alloc, mix, seed, sum)?;
    }
    Ok(())
}

// `oracle/rounds.py --sum` prints this sum.
#[test]
fn requests_are_those_of_another_generator(rt: HostRuntime) -> Result<(), Fail> {
    let mut sum = 0xcbf29ce484222325;
    for mix in MIXES {
        add_seeds(rt.alloc(), mix, &mut sum)?;
    }
    assert_eq!(rt; sum, 0x80c05114a2649985);
    Ok(())
}
