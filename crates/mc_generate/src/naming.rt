//! Code under a name: the name and a dash stand before each of its keys.
ghost use Rattle.std.specs.Prelude.{◌≡◌, ◌≤◌, ◌∷◌, ◌++◌, [], drop, length, IfErr, IfNone, IfOk, OnOk};
ghost use Rattle.std.specs.List.{All, position};
ghost use Rattle.mc_protocol.specs.declared.limits.TheConstants.{KEY_BYTES_LIMIT, KEYS_LIMIT};
ghost use Rattle.mc_image.specs.Image as image;
ghost use Rattle.mc_image.specs.Image.{image_of};
ghost use Rattle.mc_settings.specs.Namespaces as names;
ghost use Rattle.mc_generate.specs.CodesUnder as spec;
ghost use Rattle.mc_generate.specs.ImageFronts as fronts;

use mc_code::Code;
use mc_image::{ImageKind, codes_have_images, decode, encode};
use mc_protocol::{
    Actor, Bytes, KEY_BYTES_LIMIT, OutOfMemory, REQUEST_BYTES_LIMIT, Sections, append_all,
};
use mc_script::Budget;
use mc_settings::Namespace;
use std::alloc::{AllocError, Global};
use thiserror::Error;

/// Why keys can't be put under a name.
#[derive(Clone, Copy, Debug, Drop, PartialEq, Eq, Error)]
pub enum PutFault {
    /// Memory ran out.
    #[error("out of memory")]
    OutOfMemory,
    /// Under the name the key with this index has more than 40 bytes.
    #[error("expected a key of at most 40 bytes")]
    KeyTooLong(usize),
}

impl From<AllocError> for PutFault {
    ghost use Rattle.std.specs.Prelude.{◌≡◌};
    ghost use Rattle.mc_generate.specs.declared.naming.PutFault.TheVariants.{OutOfMemory};

    ghost from_gives = { λ _ e. e ≡ OutOfMemory };

    fn from(_e: AllocError) -> PutFault {
        PutFault::OutOfMemory
    }
}

// How many bytes stand before the keys of an image.
const MAGIC_LEN: usize = 4;

/// The code with the name and a dash before each of its keys. In each section it may send as many more bytes as its requests become
/// longer, of which there are as many as its budget allows, but at most 8,192 in all. Whether it is sound is to be found out anew.
///
/// # Errors
///
/// That memory ran out; or the first key that becomes longer than 40 bytes.
pub fn put_under(alloc: Global, code: &Code, name: &Namespace<'_>) -> Result<Code, PutFault>
    ensures code { IfOk result (λ under. under ≡ spec.code_under name.now code.now) }
    ensures fault { IfErr result (spec.IsPutFault name.now code.now.keys) }
{
    if let Some(index) = first_too_long(code.keys(), name) {
        return Err(PutFault::KeyTooLong(index));
    }
    // That the name is one is what reading it tells.
    name.as_slice();
    codes_have_images();
    let image = image_under(alloc, code, name)?;
    match decode(alloc, &image) {
        Ok(under) => Ok(under),
        Err(fault) => match fault.kind {
            ImageKind::OutOfMemory => Err(PutFault::OutOfMemory),
            _ => unreachable!(),
        },
    }
}

// The index of the first key that becomes too long.
fn first_too_long(keys: &[Bytes], name: &Namespace<'_>) -> Option<usize>
    ensures index { result ≡ position (names.is_too_long name.now) keys.now }
    ensures none { IfNone result (names.AreShort name.now keys.now) }
{
    keys.iter().position(|key| is_too_long(name, key))
}

#[tactic(auto, using(crate::proofs::KeysUnder::length_under))]
fn is_too_long(name: &Namespace<'_>, key: &Bytes) -> bool
    ensures { result ≡ names.is_too_long name.now key.now }
{
    name.as_slice().len() + 1 + key.as_slice().len() > KEY_BYTES_LIMIT
}

// The keys under the name.
fn keys_under(
    alloc: Global,
    keys: &[Bytes],
    name: &Namespace<'_>,
) -> Result<Vec<Bytes>, OutOfMemory>
    ensures { IfOk result (λ under. under.items ≡ spec.keys_under name.now keys.now) }
{
    let mut under = Vec::new(alloc);
    'keys: for key in keys {
        under.push(key_under(alloc, name, key)?)?;
    }
    Ok(under)
}

fn key_under(alloc: Global, name: &Namespace<'_>, key: &Bytes) -> Result<Bytes, OutOfMemory>
    ensures { IfOk result (λ under. under ≡ names.key_under name.now key.now) }
{
    let mut under = Vec::new(alloc);
    append_all(&mut under, &[name.as_slice(), b"-", key.as_slice()])?;
    Ok(Bytes::new(under))
}

// The image of the code under the name: that of the code with another front.
fn image_under(alloc: Global, code: &Code, name: &Namespace<'_>) -> Result<Vec<u8>, OutOfMemory>
    requires { names.AreShort name.now code.now.keys }
    ensures { IfOk result (λ image. image.items ≡ image_of (spec.code_under name.now code.now)) }
{
    let mut written = Vec::new(alloc);
    encode(code, &mut written)?;
    let (magic, fields) = written.split_at(MAGIC_LEN);
    let counts = counts_of(code);
    let old = front_of(alloc, code.keys(), counts, budgets_of(code))?;
    let keys = keys_under(alloc, code.keys(), name)?;
    let new = front_of(alloc, &keys, counts, budgets_under(code, name))?;
    let mut image = Vec::new(alloc);
    append_all(&mut image, &[magic, &new, after_front(fields, &old)])?;
    Ok(image)
}

// The bytes after a front of this length.
fn after_front<'a>(fields: &'a [u8], front: &[u8]) -> &'a [u8]
    requires { length front.now ≤ length fields.now }
    ensures { result.now ≡ drop (length front.now) fields.now }
{
    let (_, rest) = fields.split_at(front.len());
    rest
}

// How many flags and variables there are.
fn counts_of(code: &Code) -> [u8; 2]
    ensures { result ≡ code.now.flags ∷ code.now.vars ∷ [] }
{
    // That there are few is what reading the code tells.
    code.keys();
    let flags = code.flags();
    let vars = code.vars();
    [flags as u8, vars as u8]
}

fn budgets_of(code: &Code) -> Sections<Budget>
    ensures budgets { result ≡ fronts.budgets_of code.now }
    ensures small { fronts.AreSmall result }
{
    Sections {
        p: code.budget(Actor::P),
        a: code.budget(Actor::A),
        b: code.budget(Actor::B),
    }
}

fn budgets_under(code: &Code, name: &Namespace<'_>) -> Sections<Budget>
    ensures budgets { result ≡ fronts.budgets_of (spec.code_under name.now code.now) }
    ensures small { fronts.AreSmall result }
{
    Sections {
        p: budget_under(code.budget(Actor::P), name),
        a: budget_under(code.budget(Actor::A), name),
        b: budget_under(code.budget(Actor::B), name),
    }
}

fn budget_under(budget: Budget, name: &Namespace<'_>) -> Budget
    requires { fronts.IsSmall budget }
    ensures budget { result ≡ spec.budget_under name.now budget }
    ensures small { fronts.IsSmall result }
{
    let added = (name.as_slice().len() as u32 + 1) * budget.requests;
    Budget {
        requests: budget.requests,
        bytes: (budget.bytes + added).min(REQUEST_BYTES_LIMIT as u32),
    }
}

// What stands in an image between its first bytes and the templates: the keys, how many flags and variables there are, and the budgets.
fn front_of(
    alloc: Global,
    keys: &[Bytes],
    counts: [u8; 2],
    budgets: Sections<Budget>,
) -> Result<Vec<u8>, OutOfMemory>
    requires few { length keys.now ≤ KEYS_LIMIT }
    requires short { All (λ key. length key ≤ KEY_BYTES_LIMIT) keys.now }
    requires small { fronts.AreSmall budgets }
    ensures { IfOk result (λ front. front.items ≡ fronts.front_bytes keys.now counts budgets) }
{
    let mut front = Vec::new(alloc);
    push_keys(keys, &mut front)?;
    append_all(
        &mut front,
        &[
            &counts,
            &budget_bytes(budgets.p),
            &budget_bytes(budgets.a),
            &budget_bytes(budgets.b),
        ],
    )?;
    Ok(front)
}

// Appends the number of the keys, and each key with its length before it.
fn push_keys(keys: &[Bytes], out: &mut Vec<u8>) -> Result<(), OutOfMemory>
    requires few { length keys.now ≤ KEYS_LIMIT }
    requires short { All (λ key. length key ≤ KEY_BYTES_LIMIT) keys.now }
    ensures { OnOk result (out.new.items ≡ out.old.items ++ image.with_count image.with_length keys.now) }
{
    out.push(keys.len() as u8)?;
    'keys: for key in keys {
        push_sized(key.as_slice(), out)?;
    }
    Ok(())
}

// Appends the number of the bytes, and the bytes.
fn push_sized(bytes: &[u8], out: &mut Vec<u8>) -> Result<(), OutOfMemory>
    requires { length bytes.now ≤ KEY_BYTES_LIMIT }
    ensures { OnOk result (out.new.items ≡ out.old.items ++ image.with_length bytes.now) }
{
    append_all(out, &[&[bytes.len() as u8], bytes])
}

// The bytes of a budget.
fn budget_bytes(budget: Budget) -> [u8; 3]
    requires { fronts.IsSmall budget }
    ensures { result ≡ image.budget_bytes budget }
{
    let [high, low] = (budget.bytes as u16).to_be_bytes();
    [budget.requests as u8, high, low]
}
