//! The limits that scripts alone have.

/// A set of flags: bit i is flag i, in the order of their declaration; bit 0 is the lowest.
pub type Mask = u64;

/// The most flags of a script of any version: a [`Mask`] has a bit for each.
pub const FLAGS_LIMIT: usize = 64;

/// The most variables of a script.
pub const VARIABLES_LIMIT: usize = 16;

/// The most bytes of the name of a flag, a variable or a label.
pub const NAME_BYTES_LIMIT: usize = 20;

/// The most steps of a section of any version. Labels are no steps, and have no limit.
pub const STEPS_LIMIT: usize = 128;
