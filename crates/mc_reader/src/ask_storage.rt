//! The lines of the requests that bring a body.
ghost use Rattle.std.specs.Prelude.{◌≡◌, ◌<◌, ◌≤◌, ◌^◌, IfOk, IfSome};
ghost use Rattle.mc_protocol.specs.Decimals.{MAX_32};
ghost use Rattle.mc_reader.specs.AskLines as lines;
ghost use Rattle.mc_reader.specs.AskParts as spec;
ghost use Rattle.mc_reader.specs.declared.limits.TheConstants.{ANNOUNCED_LIMIT};

use crate::ask_line::ending;
use crate::ask_numbers::{is_request_key, number_in, time_in};
use crate::ask_said::{AskSaid, StoreLine, refused};
use crate::ask_words::LineWords;
use crate::{ANNOUNCED_LIMIT, REQUEST_BODY_LIMIT, Refuse};
use mc_protocol::{Bytes, OutOfMemory, Verb};
use std::alloc::Global;

/// The words after one of the commands that store a body, but for `cas`.
#[tactic(auto, unfolding(crate::specs::AskLines::storage))]
pub(crate) fn storage(
    alloc: Global,
    verb: Verb,
    mut words: LineWords<'_>,
) -> Result<AskSaid, OutOfMemory>
    ensures { IfOk result (λ said. spec.said_of said ≡ lines.storage verb words.entry) }
{
    let Some(key) = words.next_word() else {
        return Ok(refused(Refuse::BadLine));
    };
    let Some(flags) = words.next_word() else {
        return Ok(refused(Refuse::BadLine));
    };
    let Some(time) = words.next_word() else {
        return Ok(refused(Refuse::BadLine));
    };
    let Some(bytes) = words.next_word() else {
        return Ok(refused(Refuse::BadLine));
    };
    let flags = number_in(u32::MAX as u64, flags);
    let never = time_in(time);
    let body_len = number_in(ANNOUNCED_LIMIT, bytes);
    storage_says(
        alloc,
        verb,
        key,
        flags,
        never,
        body_len,
        Some(0),
        ending(words),
    )
}

/// The words after `cas`.
#[tactic(auto, unfolding(crate::specs::AskLines::swapping))]
pub(crate) fn swapping(alloc: Global, mut words: LineWords<'_>) -> Result<AskSaid, OutOfMemory>
    ensures { IfOk result (λ said. spec.said_of said ≡ lines.swapping words.entry) }
{
    let Some(key) = words.next_word() else {
        return Ok(refused(Refuse::BadLine));
    };
    let Some(flags) = words.next_word() else {
        return Ok(refused(Refuse::BadLine));
    };
    let Some(time) = words.next_word() else {
        return Ok(refused(Refuse::BadLine));
    };
    let Some(bytes) = words.next_word() else {
        return Ok(refused(Refuse::BadLine));
    };
    let Some(number) = words.next_word() else {
        return Ok(refused(Refuse::BadLine));
    };
    let flags = number_in(u32::MAX as u64, flags);
    let never = time_in(time);
    let body_len = number_in(ANNOUNCED_LIMIT, bytes);
    let number = number_in(u64::MAX, number);
    storage_says(
        alloc,
        Verb::Cas,
        key,
        flags,
        never,
        body_len,
        number,
        ending(words),
    )
}

/// What the line of a request says that brings a body, where each of these words is right.
fn storage_says(
    alloc: Global,
    verb: Verb,
    key: &[u8],
    flags: Option<u64>,
    never: Option<bool>,
    body_len: Option<u64>,
    number: Option<u64>,
    noreply: Option<bool>,
) -> Result<AskSaid, OutOfMemory>
    requires flags { IfSome flags (λ n. n ≤ MAX_32) }
    requires body { IfSome body_len (λ n. n ≤ ANNOUNCED_LIMIT) }
    ensures { IfOk result (λ said. spec.said_of said ≡ lines.storage_says verb key.now flags never body_len number noreply) }
{
    let Some(flags) = flags else {
        return Ok(refused(Refuse::BadLine));
    };
    let Some(never) = never else {
        return Ok(refused(Refuse::BadLine));
    };
    let Some(body_len) = body_len else {
        return Ok(refused(Refuse::BadLine));
    };
    let Some(number) = number else {
        return Ok(refused(Refuse::BadLine));
    };
    let Some(noreply) = noreply else {
        return Ok(refused(Refuse::BadLine));
    };
    if !is_request_key(key) {
        return Ok(refused(Refuse::BadLine));
    }
    let line = StoreLine {
        verb,
        key: Bytes::new(Vec::from_slice(alloc, key)?),
        flags: flags as u32,
        number,
        noreply,
        body_len: body_len as usize,
    };
    Ok(stores(line, never))
}

/// What a line says whose words are right: an expiry goes before a body that is too long, and both skip the block.
fn stores(line: StoreLine, never: bool) -> AskSaid
    requires { line.body_len < 2 ^ 32 }
    ensures { spec.said_of result ≡ lines.stores line never }
{
    let bytes = line.body_len as u64 + 2;
    if !never {
        AskSaid::Skips {
            refuse: Refuse::Expiry,
            bytes,
        }
    } else if line.body_len > REQUEST_BODY_LIMIT {
        AskSaid::Skips {
            refuse: Refuse::TooLarge,
            bytes,
        }
    } else {
        AskSaid::Block(line)
    }
}
