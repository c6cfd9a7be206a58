//! Smaller evidence: timelines without requests that changed nothing.
//!
//! Below it stands `mc_linearize`, whose search says whether what is left is explained. The crate above uses one contract: what
//! [`smallest`] leaves of the requests on a key is a part of them without requests whose replies say that they changed nothing, and
//! nothing explains it if nothing explains all of them (`specs/Parts.antt`). By the law `parts_are_explained` such a part never makes a
//! right timeline look wrong.
#![tactic(auto)]

mod going;
mod laws;
mod leaving;
mod part;

pub use laws::parts_are_explained;
pub use leaving::smallest;
pub use part::without;
