//! Tests of `mc_stress`: rounds at servers in memory, one that keeps what it is sent and others that don't, and what is written of them.
//! The replies are those of `protocol.txt`, the forms of texts those of `docs/FORMATS.md`.
#![tactic(auto)]

#[cfg(test)]
mod agreement_tests;
#[cfg(test)]
mod fake_server;
#[cfg(test)]
mod pages;
#[cfg(test)]
mod round_tests;
#[cfg(test)]
mod stress_tests;
