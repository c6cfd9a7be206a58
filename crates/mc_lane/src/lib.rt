//! Connections to a server: streams, and lanes that carry one request after another over them.
//!
//! Below it stand `mc_protocol` and `mc_reader`. What contracts see of a stream stands in `specs/Streams.antt`. What a call on a
//! lane does stands in `specs/Lanes.antt`, over what is sent (`specs/Sending.antt`) and what is received
//! (`specs/Receiving.antt`). The crates above use the one contract of [`Lane::call`]: the reply that it answers is found in what
//! was received, all that was written and received is recorded, and the first fault closes the lane for good. In their tests
//! a [`MemoryStream`] stands for a server.
#![tactic(auto)]

mod lane;
mod laws;
mod memory_stream;
mod receiving;
mod sending;
mod stream;
mod traffic;
mod wire;

pub use lane::Lane;
pub use laws::whole_reply_is_answered;
pub use memory_stream::MemoryStream;
pub use stream::{Broken, Counts, Stream};
pub use wire::Wire;
