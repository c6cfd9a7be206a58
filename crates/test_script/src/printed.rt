//! Scripts as texts, and what is printed of them.

use crate::memory::again;
use mc_script::Script;
use mc_script_text::{parse, print};
use std::alloc::Global;
use std::test::Fail;

/// What is printed of the script that the text spells, after these bytes.
pub(crate) fn printed(alloc: Global, text: &str, before: &[u8]) -> Result<Vec<u8>, Fail> {
    let script = again(|| parse(alloc, text.as_bytes()))?;
    text_of(alloc, &script, before)
}

/// Whether this is printed of the script that the text spells.
pub(crate) fn is_printed_as(alloc: Global, text: &str, wanted: &str) -> Result<bool, Fail> {
    Ok(printed(alloc, text, b"")?.as_slice() == wanted.as_bytes())
}

/// The script's text, after these bytes.
pub(crate) fn text_of(alloc: Global, script: &Script, before: &[u8]) -> Result<Vec<u8>, Fail> {
    let mut out = Vec::from_slice(alloc, before)?;
    again(|| print(alloc, script, &mut out))?;
    Ok(out)
}
