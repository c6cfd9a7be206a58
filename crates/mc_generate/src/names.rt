//! The names of a generated script.
ghost use Rattle.std.specs.Prelude.{◌≡◌, ◌∷◌, [], IfOk};
ghost use Rattle.mc_settings.specs.JobKeys as keys;
ghost use Rattle.mc_generate.specs.Generated as generated;

use itoa::Buffer;
use mc_protocol::{Bytes, OutOfMemory, append_all};
use mc_script::Names;
use std::alloc::Global;

/// How many bytes the name of a key has at most: those of `r-0`, and 20 digits.
const KEY_NAME_BYTES: usize = 23;

/// How many bytes the name of a label has: that of a branch's third piece is the last.
const LABEL_NAME_BYTES: usize = 2;

/// The names that a job's script declares.
pub(crate) fn names_of(alloc: Global, job: u64) -> Result<Names, OutOfMemory>
    ensures { IfOk result (λ names. names ≡ generated.names_of job) }
{
    let keys = keys_of(alloc, job)?;
    let flags = one_name(alloc, b"f")?;
    let vars = one_name(alloc, b"v")?;
    Ok(Names::new(keys, flags, vars))
}

/// The names of a job's keys.
fn keys_of(alloc: Global, job: u64) -> Result<Vec<Bytes>, OutOfMemory>
    ensures { IfOk result (λ names. names.items ≡ keys.keys_of job) }
{
    let mut names = Vec::with_capacity(alloc, 2)?;
    names.push(key_name(alloc, job, 0)?)?;
    names.push(key_name(alloc, job, 1)?)?;
    Ok(names)
}

/// This name alone.
fn one_name(alloc: Global, name: &[u8]) -> Result<Vec<Bytes>, OutOfMemory>
    ensures { IfOk result (λ names. names.items ≡ name.now ∷ []) }
{
    let mut names = Vec::with_capacity(alloc, 1)?;
    names.push(Bytes::new(Vec::from_slice(alloc, name)?))?;
    Ok(names)
}

/// The name of a job's key.
fn key_name(alloc: Global, job: u64, key: u8) -> Result<Bytes, OutOfMemory>
    ensures { IfOk result (λ name. name ≡ keys.key_name job key) }
{
    let mut job_text = Buffer::new();
    let job_digits = job_text.format(job).as_bytes();
    let mut key_text = Buffer::new();
    let key_digits = key_text.format(key).as_bytes();
    let mut name = Vec::with_capacity(alloc, KEY_NAME_BYTES)?;
    append_all(&mut name, &[b"r", job_digits, b"-", key_digits])?;
    Ok(Bytes::new(name))
}

/// The name of the label of the piece with this index.
pub(crate) fn label_name(alloc: Global, index: u32) -> Result<Bytes, OutOfMemory>
    ensures { IfOk result (λ name. name ≡ generated.label_name index) }
{
    let mut text = Buffer::new();
    let digits = text.format(index).as_bytes();
    let mut name = Vec::with_capacity(alloc, LABEL_NAME_BYTES)?;
    append_all(&mut name, &[b"l", digits])?;
    Ok(Bytes::new(name))
}
