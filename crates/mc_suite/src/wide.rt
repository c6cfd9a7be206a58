//! Scripts of all verbs, with flags and bodies of several lengths.
//!
//! The other generator's bodies are short numbers with flags 0. These scripts have what a server keeps in another way: long bodies, empty
//! ones, numbers that wrap, and flags.

use crate::text::push_all;
use mc_generate::draw;
use mc_script::Script;
use mc_script_text::parse;
use rand_pcg::Pcg32;
use std::alloc::{AllocError, Global};

const HEAD: &str =
    "script 1\nkeys w x\nvars v\nbudget P 24 8192\nbudget A 24 8192\nbudget B 24 8192\nP\n";

// Added to the job's number to select the sequence of the generator, so that no job of the other generator has it.
const SEQUENCE: u64 = 1 << 40;

// The flags of an item.
static FLAGS: [&str; 4] = ["0", "1", "7", "65535"];

// What an incr adds or a decr takes.
static AMOUNTS: [&str; 4] = ["1", "3", "10", "18446744073709551615"];

// Numbers that wrap, or whose length changes, by one of these.
static NUMBERS: [&str; 4] = ["0", "9", "100", "18446744073709551614"];

// The lengths of a body of letters.
static LENGTHS: [usize; 4] = [0, 1, 8, 64];

static STORING: [&str; 5] = ["set", "add", "replace", "append", "prepend"];

static OTHERS: [&str; 4] = ["get", "gets", "delete", "touch"];

/// The script of a seed and a job.
pub(crate) fn wide_script(
    alloc: Global,
    seed: u64,
    job: u64,
) -> Result<Option<Script>, AllocError> {
    let text = text_of(alloc, seed, job)?;
    // It is within all limits, so that is no script only without memory.
    Ok(parse(alloc, text.as_bytes()).ok())
}

fn text_of(alloc: Global, seed: u64, job: u64) -> Result<String, AllocError> {
    let mut generator = Pcg32::new(seed, SEQUENCE.wrapping_add(job));
    let mut text = String::new(alloc);
    write_sections(&mut generator, &mut text)?;
    Ok(text)
}

fn write_sections(generator: &mut Pcg32, text: &mut String) -> Result<(), AllocError> {
    text.push_str(HEAD)?;
    write_start(generator, "w", text)?;
    write_start(generator, "x", text)?;
    text.push_str("A\n")?;
    write_branch(generator, text)?;
    text.push_str("B\n")?;
    write_branch(generator, text)?;
    text.push_str("end\n")
}

// What P leaves of a key: nothing, an item, or one of 320 bytes.
fn write_start(generator: &mut Pcg32, key: &str, text: &mut String) -> Result<(), AllocError> {
    let kind = draw(generator, 4);
    if kind == 0 {
        return push_all(text, &["delete ", key, "\n"]);
    }
    write_storing(generator, "set", key, text)?;
    if kind == 1 {
        'appends: for _ in 0..4u32 {
            push_all(text, &["append ", key, " 0 ="])?;
            write_letters(generator, 64, text)?;
            text.push_str("\n")?;
        }
    }
    Ok(())
}

// One to three requests. A cas has a gets before it.
fn write_branch(generator: &mut Pcg32, text: &mut String) -> Result<(), AllocError> {
    let count = 1 + draw(generator, 3);
    let mut has_cas = false;
    'requests: for _ in 0..count {
        let key = if draw(generator, 4) == 0 { "x" } else { "w" };
        let verb = draw(generator, 12) as usize;
        if let Some(storing) = STORING.get(verb) {
            write_storing(generator, storing, key, text)?;
        } else if verb < 7 {
            let change = if verb == 5 { "incr " } else { "decr " };
            let amount = one_of(generator, &AMOUNTS);
            push_all(text, &[change, key, " ", amount, "\n"])?;
        } else if let Some(other) = OTHERS.get(verb.saturating_sub(7)) {
            push_all(text, &[other, " ", key, "\n"])?;
        } else {
            has_cas = true;
            write_cas(generator, key, text)?;
        }
    }
    if has_cas {
        text.push_str("gone:\n")?;
    }
    Ok(())
}

fn write_storing(
    generator: &mut Pcg32,
    verb: &str,
    key: &str,
    text: &mut String,
) -> Result<(), AllocError> {
    write_item(generator, verb, key, text)?;
    text.push_str("\n")
}

// A gets and a cas with its number.
fn write_cas(generator: &mut Pcg32, key: &str, text: &mut String) -> Result<(), AllocError> {
    push_all(text, &["gets ", key, " miss:gone >v\n"])?;
    write_item(generator, "cas", key, text)?;
    text.push_str(" $v\n")
}

// The request up to its body.
fn write_item<'x>(
    generator: &mut Pcg32,
    verb: &'x str,
    key: &'x str,
    text: &mut String,
) -> Result<(), AllocError> {
    let flags = one_of(generator, &FLAGS);
    push_all(text, &[verb, " ", key, " "])?;
    text.push_str(flags)?;
    text.push_str(" =")?;
    write_body(generator, text)
}

// A number, or letters.
fn write_body(generator: &mut Pcg32, text: &mut String) -> Result<(), AllocError> {
    if draw(generator, 2) == 0 {
        return text.push_str(one_of(generator, &NUMBERS));
    }
    let length = match LENGTHS.get(draw(generator, 4) as usize) {
        Some(length) => *length,
        None => 1,
    };
    write_letters(generator, length, text)
}

// One letter, again and again: a body that is made of two of them shows it.
fn write_letters(
    generator: &mut Pcg32,
    length: usize,
    text: &mut String,
) -> Result<(), AllocError> {
    let letter = char::from(b'a' + (draw(generator, 26) % 26) as u8);
    'letters: for _ in 0..length {
        text.push(letter)?;
    }
    Ok(())
}

fn one_of(generator: &mut Pcg32, words: &'static [&'static str; 4]) -> &'static str {
    words[(draw(generator, 4) % 4) as usize]
}
