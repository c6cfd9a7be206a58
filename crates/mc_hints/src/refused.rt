//! Why an input is refused: what its reader found, or what the verifier found of its code.

use mc_assembler::AsmFault;
use mc_history::{HistoryFault, StepsFault};
use mc_image::ImageFault;
use mc_script_text::ScriptFault;

/// Why an input has no code.
#[derive(Clone, Copy, Debug, Drop, PartialEq, Eq)]
pub enum LoadFault {
    /// The text is no script.
    NoScript(ScriptFault),
    /// The script is too large, by this limit.
    TooLarge(AsmFault),
    /// The bytes are no image.
    NoImage(ImageFault),
}

/// Why an input is refused.
#[derive(Clone, Copy, Debug, Drop)]
pub enum Refused<'a> {
    /// The text is no history.
    NoHistory(HistoryFault),
    /// The input has no code.
    NoCode(LoadFault),
    /// The input's code isn't sound, and this is its least fault.
    Unsound(&'a mc_verify::Refusal),
    /// No step list follows the script.
    NoSteps(StepsFault),
}
