//! Tests of `mc_relay`: what is handed on over streams in memory, also if a write fails.
#![tactic(auto)]

#[cfg(test)]
mod passing_tests;
