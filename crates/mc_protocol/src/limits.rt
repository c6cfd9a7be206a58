//! The limits that more than one format, or more than one crate, has.

/// The most keys of a history or of a script.
pub const KEYS_LIMIT: usize = 8;

/// The most bytes of a key.
pub const KEY_BYTES_LIMIT: usize = 40;

/// The most digits that a number is written with.
pub const DIGITS_LIMIT: usize = 20;

/// The most requests of a section.
pub const REQUESTS_LIMIT: usize = 24;

/// The most bytes that the requests of a section have together.
pub const REQUEST_BYTES_LIMIT: usize = 8_192;

/// The most bytes of a body that a reply may show.
pub const REPLY_BODY_LIMIT: usize = 65_536;

/// The most bytes of a body that a script sends.
pub const SCRIPT_BODY_LIMIT: usize = 64;
