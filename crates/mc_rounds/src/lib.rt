//! What the clients of a round of `mcrace stress` ask.
//!
//! Below it stand `mc_protocol` and `mc_model` for requests, and `mc_settings` for names and mixes. The crates above use which keys a
//! round has (`specs/RoundKeys.antt`), which requests begin it (`specs/Openings.antt`), and what a client asks next
//! (`specs/Clients.antt`): a function of the seed, the round, the client, and the numbers that it heard. What holds of all requests
//! is in `specs/Laws.antt`.
#![tactic(auto)]

mod client;
mod draws;
mod laws;
mod mixes;
mod opening;
mod plan;
mod round_keys;
mod wish;

pub use client::Client;
pub use laws::{requests_fit, seeds_tell_requests};
pub use opening::openings;
pub use plan::Plan;
pub use round_keys::keys_of;
