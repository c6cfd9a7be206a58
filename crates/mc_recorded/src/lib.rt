//! Whether what was noted of one connection is what its lane recorded.
//!
//! Below it stand `mc_lane`, whose lanes record what went over them, and `mc_model`, whose `Sent` is a request with its reply. The crates
//! above use one contract: `is_recorded` is true exactly if these requests were sent, these replies to them were received, and this fault
//! ended it (`specs/Recorded.antt`).
#![tactic(auto)]

mod front;
mod recorded;

pub use recorded::is_recorded;
