//! The versions that requests make.
ghost use Rattle.std.specs.Prelude.{◌≡◌, ◌++◌, IfOk, Some, None};
ghost use Rattle.std.specs.Option.{option_copied};
ghost use Rattle.mc_model.specs.{Act.counted_body, Decide.change_at, Decide.made_by};

use crate::{Change, Item};
use itoa::Buffer;
use mc_protocol::{Bytes, OutOfMemory, Request};
use std::alloc::Global;

/// The version that the change makes where this item is there, or nothing is, if it makes one. It has this `number`; `pad` says whether
/// a count that is shorter than the old body is padded.
///
/// # Errors
///
/// That memory ran out.
pub fn make_version(
    alloc: Global,
    request: &Request,
    change: Change,
    pad: bool,
    number: u64,
    found: Option<&Item>,
) -> Result<Option<Item>, OutOfMemory>
    ensures { IfOk result (λ made. made ≡ made_by (change_at request.now pad number (option_copied found.entry) change)) }
{
    let (flags, body) = match (change, found) {
        (Change::Stores, _) => (request.flags, request.body.copy(alloc)?),
        (Change::Appends, Some(item)) => (item.flags, join(alloc, &item.body, &request.body)?),
        (Change::Prepends, Some(item)) => (item.flags, join(alloc, &request.body, &item.body)?),
        (Change::Counts(new), Some(item)) => (item.flags, count(alloc, pad, &item.body, new)?),
        _ => return Ok(None),
    };
    Ok(Some(Item {
        flags,
        body,
        number,
    }))
}

/// One body of two.
fn join(alloc: Global, first: &Bytes, second: &Bytes) -> Result<Bytes, OutOfMemory>
    ensures { IfOk result (λ body. body ≡ first.now ++ second.now) }
{
    let mut body = Vec::from_slice(alloc, first.as_slice())?;
    body.extend_from_slice(second.as_slice())?;
    Ok(Bytes::new(body))
}

/// The decimal of a number, and after it spaces to the length of the old body if `pad` asks for them.
fn count(alloc: Global, pad: bool, old: &Bytes, number: u64) -> Result<Bytes, OutOfMemory>
    ensures { IfOk result (λ body. body ≡ counted_body pad old.now number) }
{
    let mut buffer = Buffer::new();
    let digits = buffer.format(number).as_bytes();
    let len = old.as_slice().len();
    if !pad || len <= digits.len() {
        return Ok(Bytes::new(Vec::from_slice(alloc, digits)?));
    }
    let mut body = Vec::with_capacity(alloc, len)?;
    body.extend_from_slice(digits)?;
    body.resize(len, b' ')?;
    Ok(Bytes::new(body))
}
