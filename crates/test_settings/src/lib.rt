//! Tests of `mc_settings`: which bytes are names that keys may be put under, and which keys are short under them.
#![tactic(auto)]

#[cfg(test)]
mod fitting_tests;
#[cfg(test)]
mod namespace_tests;
