//! The requests that begin a round.
ghost use Rattle.std.specs.Prelude.{◌≡◌, ◌++◌, IfOk, OnOk, map};
ghost use Rattle.mc_rounds.specs.Openings as spec;

use crate::Plan;
use crate::draws::{OPENINGS, draw, generator_of};
use crate::wish::decimal_of;
use mc_protocol::{Bytes, OutOfMemory, Request, Verb};
use rand_pcg::Lcg64Xsh32;
use std::alloc::Global;

/// The first client's requests that begin the round: a delete of each key, and in half of the rounds a set of each to a decimal.
pub fn openings(
    alloc: Global,
    plan: &Plan,
    round: u64,
    keys: &[Bytes],
) -> Result<Vec<Request>, OutOfMemory>
    ensures { IfOk result (λ requests. requests.items ≡ spec.openings_of plan.now round keys.now) }
{
    let mut generator = generator_of(plan.seed, round, OPENINGS);
    let mut requests = Vec::new(alloc);
    push_deletes(alloc, keys, &mut requests)?;
    if draw(&mut generator, 2) == 0 {
        push_sets(alloc, generator, keys, &mut requests)?;
    }
    Ok(requests)
}

fn push_deletes(alloc: Global, keys: &[Bytes], out: &mut Vec<Request>) -> Result<(), OutOfMemory>
    ensures { OnOk result (out.new.items ≡ out.old.items ++ map spec.delete_of keys.now) }
{
    'keys: for key in keys {
        out.push(Request {
            verb: Verb::Delete,
            key: key.copy(alloc)?,
            flags: 0,
            body: Bytes::new(Vec::new(alloc)),
            number: 0,
        })?;
    }
    Ok(())
}

fn push_sets(
    alloc: Global,
    mut generator: Lcg64Xsh32,
    keys: &[Bytes],
    out: &mut Vec<Request>,
) -> Result<(), OutOfMemory>
    ensures { OnOk result (out.new.items ≡ out.old.items ++ spec.sets_in generator keys.now) }
{
    'keys: for key in keys {
        out.push(Request {
            verb: Verb::Set,
            key: key.copy(alloc)?,
            flags: 0,
            body: decimal_of(alloc, draw(&mut generator, 100))?,
            number: 0,
        })?;
    }
    Ok(())
}
