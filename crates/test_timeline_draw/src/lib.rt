//! Tests of `mc_timeline_draw`: each of its public calls, with pictures that were worked out by hand.
#![tactic(auto)]

#[cfg(test)]
mod key_tests;
#[cfg(test)]
mod known_tests;
#[cfg(test)]
mod memory;
#[cfg(test)]
mod memory_tests;
#[cfg(test)]
mod picture_tests;
#[cfg(test)]
mod refusal_tests;
#[cfg(test)]
mod sought_tests;
