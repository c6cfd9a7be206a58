//! What a user sets of runs: the name that keys are put under, how the branches meet, and what many clients send.
//!
//! Below it stands `mc_protocol`, for names. The crates above use which bytes are such a name (`specs/Namespaces.antt`), and
//! `keys_fit`, which says whether it leaves all keys of a campaign's jobs short enough (`specs/JobKeys.antt`).
#![tactic(auto)]

mod fitting;
mod meeting;
mod mix;
mod namespace;

pub use fitting::keys_fit;
pub use meeting::Meeting;
pub use mix::Mix;
pub use namespace::{NAMESPACE_BYTES_LIMIT, Namespace, is_same_name};
