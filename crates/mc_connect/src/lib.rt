//! Connections to the servers that are tested: how they are made, kept and closed, within which times they are read and written, and
//! why those that failed did.
//!
//! Below it stands `mc_protocol`, for the sections. The crate above uses a [`Network`] for runs, one after another, and a [`Dialer`] for
//! jobs, from any thread. The one contract is that of a [`Connection`]: a read fills no more than the piece that it is given, and a write
//! takes no more than the bytes that it is given. Nothing is said of what comes.
#![tactic(auto)]

mod call_errors;
mod closing;
mod descriptors;
mod dial;
mod dialer;
mod failures;
mod kept;
mod network;
mod pool;
mod quiet;
mod servers;
mod socket;
mod tcp_network;
mod timed_stream;
mod waiting;

pub use descriptors::{HeldDescriptors, STANDARD_INPUT, STANDARD_OUTPUT};
pub use dial::has_port;
pub use dialer::Dialer;
pub use failures::Unreached;
pub use kept::Kept;
pub use network::{Connection, Network, Unconnected};
pub use servers::Servers;
pub use socket::Socket;
pub use tcp_network::TcpNetwork;
pub use waiting::Waiting;
