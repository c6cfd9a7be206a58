//! Tests of `mc_join`: each of its public calls, with reports that were written by hand from docs/FORMATS.md.
#![tactic(auto)]

#[cfg(test)]
mod json_tests;
#[cfg(test)]
mod memory;
#[cfg(test)]
mod memory_tests;
#[cfg(test)]
mod plain_tests;
#[cfg(test)]
mod refusal_tests;
#[cfg(test)]
mod whole_tests;
