//! `assemble`: the code of a script, by its image.

use crate::images::{COUNTER_IMAGE, image_after};
use crate::memory::again;
use mc_assembler::assemble;
use mc_code::Code;
use mc_script::Script;
use mc_script_text::parse;
use std::alloc::Global;
use std::test::Fail;

// Two increments of one counter.
static COUNTER_SCRIPT: &[u8] = b"script 1
keys a
budget P 2 26
budget A 1 10
budget B 1 10
P
set a 0 =5
A
incr a 1
B
incr a 1
end
";

#[test]
fn assembles(rt: HostRuntime) -> Result<(), Fail> {
    assert!(rt; is_written_after(rt.alloc(), b"", COUNTER_SCRIPT, COUNTER_IMAGE)?);
    Ok(())
}

// What is there already stays.
#[test]
fn writes_an_image_after_what_is_there(rt: HostRuntime) -> Result<(), Fail> {
    assert!(rt; is_written_after(rt.alloc(), b"before", COUNTER_SCRIPT, COUNTER_IMAGE)?);
    Ok(())
}

fn code_of(alloc: Global, text: &[u8]) -> Result<Code, Fail> {
    let script = parse(alloc, text)?;
    assembled(alloc, &script)
}

fn assembled(alloc: Global, script: &Script) -> Result<Code, Fail> {
    Ok(again(|| assemble(alloc, script))?)
}

// Whether the image of the text's script stands after the bytes that were there first.
fn is_written_after(alloc: Global, front: &[u8], text: &[u8], image: &[u8]) -> Result<bool, Fail> {
    let code = code_of(alloc, text)?;
    has_image_after(alloc, &code, front, image)
}

fn has_image_after(alloc: Global, code: &Code, front: &[u8], image: &[u8]) -> Result<bool, Fail> {
    let written = image_after(alloc, front, code)?;
    Ok(is_joined(&written, front, image))
}

fn is_joined(bytes: &[u8], front: &[u8], rest: &[u8]) -> bool {
    match bytes.strip_prefix(front) {
        Some(found) => found == rest,
        None => false,
    }
}
