//! Timelines: what any number of clients sent and received, in the order in which it happened, and when such a timeline has an
//! explanation.
//!
//! Below it stands `mc_claims`, whose replay of a cache is that of an explanation here too. The crate above uses two contracts:
//! a [`Timeline`] keeps the rules of `specs/Rules.antt`; and by `locality_of_timelines` it has an explanation exactly if its
//! restriction to each of its keys has one (`specs/Explanations.antt`, `specs/Laws.antt`).
#![tactic(auto)]

mod builder;
mod key_state;
mod laws;
mod limits;
mod print;
mod restriction;
mod timeline;
mod words;

pub use builder::TimelineBuilder;
pub use laws::{
    linearizations_are_walks, locality, locality_of_timelines, only_the_next_matter,
    restrictions_are_timelines, restrictions_keep_order, timelines_are_in_order,
    timelines_are_walked,
};
pub use limits::{CLIENTS_LIMIT, OPERATIONS_LIMIT, TIMELINE_KEYS_LIMIT};
pub use print::print_timeline;
pub use restriction::restrict;
pub use timeline::Timeline;
