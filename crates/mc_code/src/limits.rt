//! How large code may be.

use mc_protocol::Class;
use mc_script::STEPS_LIMIT;

/// The most templates of a code.
pub const TEMPLATES_LIMIT: usize = 64;

/// The most instructions of a section of any version: as many as the most steps.
pub const INSTRUCTIONS_LIMIT: usize = STEPS_LIMIT;

/// How many classes of replies there are. A send has an entry for each.
pub const CLASS_COUNT: usize = Class::ALL.len();

/// The entry of a send for a class of which its verb has no reply.
pub const NO_ENTRY: u8 = 255;
