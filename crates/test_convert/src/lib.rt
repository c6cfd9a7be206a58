//! Tests of `mc_convert`: each of its public calls, with forms that were written by hand from docs/FORMATS.md.
#![tactic(auto)]

#[cfg(test)]
mod campaign_tests;
#[cfg(test)]
mod excerpt_tests;
#[cfg(test)]
mod history_tests;
#[cfg(test)]
mod memory;
#[cfg(test)]
mod memory_tests;
#[cfg(test)]
mod report_tests;
#[cfg(test)]
mod timeline_tests;
