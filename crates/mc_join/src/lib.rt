//! The reports of a campaign that ran in parts, joined to that of the whole.
//!
//! Below it stand `mc_protocol`, for lines and decimals, and the kit's reader and writer of JSON. The crate above gives `join` a text that
//! was printed: parts as text (`plain`) or as JSON (`in_json`), which come to the same lines of jobs (`job`) and parts (`part`). `whole_of`
//! joins parts, if no job is missing or stands twice; its contract says so (`specs/Wholes.antt`). Of the rest it is proved that each call
//! is safe and ends; what is written is tested.
#![tactic(auto)]

mod fault;
mod in_json;
mod job;
mod joined;
mod part;
mod plain;
mod totals;
mod whole;
mod written;

pub use fault::{ReportFault, ReportKind};
pub use joined::{Finding, Joined, join};
pub use part::{Part, Span};
pub use totals::Totals;
pub use whole::{Whole, whole_of};
