//! The limits of a timeline.

/// How many clients there may be: their numbers are 0 to 63.
pub const CLIENTS_LIMIT: usize = 64;

/// How many requests a timeline may have.
pub const OPERATIONS_LIMIT: usize = 100_000;

/// How many keys the requests of a timeline may have.
pub const TIMELINE_KEYS_LIMIT: usize = 1_000;
