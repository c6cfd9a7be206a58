//! Tests of `mc_flow`: what its tables have of a script's code.
#![tactic(auto)]

#[cfg(test)]
mod table_tests;
