//! The limits of replies and requests.

/// The most bytes of a line of a reply or a request, with the LF that ends it.
pub const LINE_LIMIT: usize = 2_048;

/// The most spaces after the number of a reply: a server may pad a shorter number to the length of the old one.
pub const NUMBER_SPACES_LIMIT: usize = 20;

/// The most bytes of a key of a request.
pub const REQUEST_KEY_LIMIT: usize = 250;

/// The most bytes of a body that a request may bring.
pub const REQUEST_BODY_LIMIT: usize = 65_536;

/// The most bytes of a body that a line of a request may announce: one that is longer than
/// [`REQUEST_BODY_LIMIT`] is skipped.
pub const ANNOUNCED_LIMIT: u64 = 2_147_483_647;
