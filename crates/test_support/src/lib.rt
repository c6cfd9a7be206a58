//! What the tests of several crates share: signals between the threads of a test, and streams that wait for them.
#![tactic(auto)]

mod signal;
mod waiting_stream;

pub use signal::Signal;
pub use waiting_stream::WaitingStream;
