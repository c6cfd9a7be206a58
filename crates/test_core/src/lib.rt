//! Tests of `mc_core` by its public calls, with answers that were worked out by hand: events that worlds take and refuse, and
//! the histories of what they took.
//!
//! A table of events is a text: a section, and `begin`, a reply, or a fault's number, each after a space.
#![tactic(auto)]

#[cfg(test)]
mod given;
#[cfg(test)]
mod history_tests;
#[cfg(test)]
mod memory;
#[cfg(test)]
mod refusal_tests;
#[cfg(test)]
mod replay_tests;
#[cfg(test)]
mod scripts;
