//! The lanes of a run.

use mc_lane::Lane;
use mc_protocol::Sections;

/// The lane of each section of a run: `p`, `a` and `b`.
pub type Lanes<S> = Sections<Lane<S>>;
