//! What the program is built from. `./mcrace --build` writes it.

/// The SHA-256 of all sources, definitions and proofs but of this file.
pub const SOURCES: &[u8] =
    b"sources a04b2d7409326dd2499d4c70e8f040ac2df653c1058d1d3b6beee38c90f8ea68\n";
