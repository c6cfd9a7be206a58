//! A reference server of memcached's classic text protocol, that other servers can be compared with: its store of items, and what a
//! client is served over a connection.
//!
//! It uses `mc_protocol`, `mc_reader`, `mc_lane` and `mc_model`. What a request does is decided in `mc_model`, once for the cache of a
//! history and for this store (`Decision::of`); what is asked is read by `mc_reader`. The crates that use it rest on what a call of a
//! store does (`Store::call`, by `specs/Stores.antt`), on what any of its callers may answer (`Caller`, by `specs/Callers.antt`), and
//! on what is written over a connection ([`serve`], by `specs/Serving.antt`): for each request that was read, in order, an answer that
//! the caller may give (`specs/Answers.antt`, `specs/Asked.antt`).
#![tactic(auto)]

mod answer;
mod blocks;
mod caller;
mod conversation;
mod counts;
mod items;
mod limits;
mod listener;
mod outbox;
mod racy;
mod served;
mod service;
mod shared;
mod store;
mod version;

pub use caller::Caller;
pub use counts::Listened;
pub use limits::RECEIVED_LIMIT;
pub use listener::listen;
pub use racy::{Between, FreeBetween, Racy};
pub use served::{Served, Why};
pub use service::serve;
pub use shared::{Shared, shard_of};
pub use store::{Store, StoreFault};
