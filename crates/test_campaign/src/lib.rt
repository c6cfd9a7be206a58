//! Tests of `mc_campaign`: what campaigns report, how the branches of their jobs meet, and in which order results are kept.
#![tactic(auto)]

#[cfg(test)]
mod connectors;
#[cfg(test)]
mod gate_tests;
#[cfg(test)]
mod meeting_tests;
#[cfg(test)]
mod memory;
#[cfg(test)]
mod named_tests;
#[cfg(test)]
mod order_tests;
#[cfg(test)]
mod report_tests;
#[cfg(test)]
mod store_runs;
#[cfg(test)]
mod store_stream;
#[cfg(test)]
mod texts;
#[cfg(test)]
mod worker_tests;
