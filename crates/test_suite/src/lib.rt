//! Tests of `mc_suite`: the names of races, and their scripts.
#![tactic(auto)]

#[cfg(test)]
mod list_tests;
