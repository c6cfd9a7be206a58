//! What clients and a server say to each other, recorded as a timeline while it is handed on.
#![tactic(auto)]

mod asides;
mod awaited;
mod carrying;
mod client_ear;
mod frames;
mod judge_thread;
mod judging;
mod key_record;
mod keys;
mod left_out;
mod lines;
mod notebook;
mod numbers;
mod open_streams;
mod piece;
mod reasons;
mod recording;
mod server_ear;
mod shared;
mod text;

pub use client_ear::ClientEar;
pub use judging::{Count, Judged};
pub use left_out::LeftOut;
pub use notebook::Notebook;
pub use recording::{Page, Recorded, record};
pub use server_ear::ServerEar;
pub use shared::Recording;
