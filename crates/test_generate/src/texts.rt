//! The texts of generated scripts.

use crate::memory::again;
use mc_generate::generate_script;
use mc_protocol::OutOfMemory;
use mc_script_text::print;
use std::alloc::Global;

/// The text of a job's script.
pub(crate) fn text_of(alloc: Global, seed: u64, job: u64) -> Result<Vec<u8>, OutOfMemory> {
    let script = again(|| generate_script(alloc, seed, job))?;
    let mut text = Vec::new(alloc);
    print(alloc, &script, &mut text)?;
    Ok(text)
}
