//! The model of a cache server, and what a history of requests and replies is.
//!
//! It uses `mc_protocol`. The crates that use it rest on two things: what a cache answers to a request (`Cache::act`, by
//! `specs/Act.antt`), and that a `History` keeps the rules of `specs/History.antt`.
#![tactic(auto)]

mod act;
mod builder;
mod cache;
mod deciding;
mod history;
mod history_laws;
mod laws;
mod making;
mod note;
mod noted_builder;
mod numeral;
mod numeral_laws;
mod reading;
mod record;
mod rules;
mod sent;

pub use act::{Choice, reply_with};
pub use builder::HistoryBuilder;
pub use cache::{Cache, Item};
pub use deciding::{Answer, Change, Decision, Found, decide};
pub use history::History;
pub use history_laws::{
    faultless_make_histories, faulty_are_no_histories, first_faults_are_one,
    others_have_a_first_fault, places_end_histories, prefixes_are_histories,
};
pub use laws::{
    answered_numbers_are_there, bodies_stay_short, deleted_is_gone, only_counts_choose,
    other_keys_stay, replies_fit, versions_are_reported,
};
pub use making::make_version;
pub use mc_protocol::is_key;
pub use note::{Note, copy_reply};
pub use noted_builder::NotedBuilder;
pub use numeral::{Numeral, numeral_of};
pub use numeral_laws::bodies_say_numbers;
pub use reading::Reading;
pub use rules::HistoryKind;
pub use sent::Sent;
