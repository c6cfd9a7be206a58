//! A script that is being shrunk.
ghost use Rattle.std.specs.Prelude.{◌≡◌, Some};
ghost use Rattle.mc_script.specs.Script as scripts;
ghost use Rattle.mc_generate.specs.Shrinking as shrinking;

use mc_protocol::Sections;
use mc_script::Script;

/// A script that is being shrunk, for who runs the smaller ones: [`next`](Shrinker::next) gives the code of one, and
/// [`answer`](Shrinker::answer) says whether its run has no explanation. [`shrink`](crate::shrink) is the loop over both.
#[derive(Debug, Drop)]
pub struct Shrinker {
    // The smallest script so far.
    pub(crate) script: Script,
    // The script less a step, whose code was given.
    pub(crate) tried: Option<Script>,
    // How many steps of each section, from the first on, weren't dropped or kept yet.
    pub(crate) left: Sections<usize>,
    // How many codes are given yet.
    pub(crate) rounds: u32,
    ghost enough: { shrinking.HasSteps left script },
    ghost others: { (less : scripts.Script) → tried ≡ Some less → shrinking.HasSteps left less },
}
