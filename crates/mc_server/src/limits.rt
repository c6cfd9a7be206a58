//! The limits of a connection.

/// The most bytes that are read of one connection.
pub const RECEIVED_LIMIT: usize = 4_294_967_295;
