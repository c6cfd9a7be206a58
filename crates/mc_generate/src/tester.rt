//! What tells whether smaller scripts are still unexplained.

use mc_protocol::OutOfMemory;
use mc_sound::Checked;

/// Runs the code of smaller scripts while a script is shrunk.
pub trait Tester {
    /// Whether a run of the code has no explanation.
    fn unexplained(&mut self, checked: &Checked) -> Result<bool, OutOfMemory>;
}
