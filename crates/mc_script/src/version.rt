//! The versions of the text of a script and of the image of a code, and what each has room for.

ghost use Rattle.std.specs.Prelude.{◌≡◌, ◌≤◌};
ghost use Rattle.mc_script.specs.declared.limits.TheConstants.{FLAGS_LIMIT, STEPS_LIMIT};
ghost use Rattle.mc_script.specs.Versions as versions;

use crate::{FLAGS_LIMIT, STEPS_LIMIT};

/// A version of the text of a script, and of the image of a code.
#[derive(Clone, Copy, Debug, PartialEq, Eq)]
pub enum Version {
    /// 32 flags, and 64 steps or instructions in a section.
    One,
    /// 64 flags, and 128 steps or instructions in a section.
    Two,
}

impl Version {
    /// Its word in every text.
    pub fn word(self) -> &'static str
        ensures { result.now ≡ versions.version_word self }
    {
        match self {
            Version::One => "1",
            Version::Two => "2",
        }
    }

    /// The most flags.
    pub fn flags_limit(self) -> usize
        ensures exact { result ≡ versions.flags_limit self }
        ensures within { result ≤ FLAGS_LIMIT }
    {
        match self {
            Version::One => 32,
            Version::Two => FLAGS_LIMIT,
        }
    }

    /// The most steps of a section of a text, and the most instructions of a section of an image.
    pub fn steps_limit(self) -> usize
        ensures exact { result ≡ versions.steps_limit self }
        ensures within { result ≤ STEPS_LIMIT }
    {
        match self {
            Version::One => 64,
            Version::Two => STEPS_LIMIT,
        }
    }

    /// The version that is written of a value with `flags` flags, where `longest` is the number of steps or instructions
    /// of its longest section: the first one whose limits they keep, or else the last one.
    pub fn least(flags: usize, longest: usize) -> Version
        ensures { result ≡ versions.least_version flags longest }
    {
        if Version::One.has_room(flags, longest) {
            Version::One
        } else {
            Version::Two
        }
    }

    /// Whether `flags` flags and sections of at most `longest` steps or instructions keep the version's limits.
    fn has_room(self, flags: usize, longest: usize) -> bool
        ensures { result ≡ versions.has_room self flags longest }
    {
        flags <= self.flags_limit() && longest <= self.steps_limit()
    }
}
