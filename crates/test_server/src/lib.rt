//! Tests of `mc_server`: what a store answers to requests, one after another, and what it holds after a call that was refused; and what
//! a client is served over a connection. The replies are those of `protocol.txt` and of memcached.
#![tactic(auto)]

#[cfg(test)]
mod fault_tests;
#[cfg(test)]
mod limit_tests;
#[cfg(test)]
mod lines;
#[cfg(test)]
mod listen_tests;
#[cfg(test)]
mod memory;
#[cfg(test)]
mod racy_tests;
#[cfg(test)]
mod serve_tests;
#[cfg(test)]
mod shared_tests;
#[cfg(test)]
mod store_tests;
#[cfg(test)]
mod streams;
