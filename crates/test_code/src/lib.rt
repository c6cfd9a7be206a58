//! Tests of `mc_code`: what its calls answer, of scripts and images that were written by hand.
//!
//! What `mcrace asm` shows, which is the image of a script's code and why a script is refused, stands in `cases/asm`; which bytes are
//! an image, and the fault of others, in `cases/check`.
#![tactic(auto)]

#[cfg(test)]
mod assemble_tests;
#[cfg(test)]
mod decode_tests;
#[cfg(test)]
mod images;
#[cfg(test)]
mod memory;
#[cfg(test)]
mod step_tests;
