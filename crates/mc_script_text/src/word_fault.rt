//! Why the words of a line can't be read.

ghost use Rattle.std.specs.Prelude.{◌≡◌, None};
ghost use Rattle.mc_script_text.specs.declared.fault.ScriptKind.TheVariants.{OutOfMemory};

use crate::{Expected, Misread, ScriptFault, ScriptKind};
use std::alloc::{AllocError, AllocFailed};

/// Why the words of a line can't be read, and which of them; none where memory ran out.
#[derive(Clone, Copy, Drop)]
pub(crate) struct WordFault {
    pub(crate) kind: ScriptKind,
    misread: Option<Misread>,
    ghost told: { misread ≡ None → kind ≡ OutOfMemory },
}

impl WordFault {
    /// The fault of the word with this index in its line.
    pub(crate) fn new(kind: ScriptKind, word: usize, expected: Expected) -> Self
        ensures { result.kind ≡ kind }
    {
        WordFault {
            kind,
            misread: Some(Misread { word, expected }),
        }
    }

    /// The fault of a word with this index that can't stand there, or that is missing.
    pub(crate) fn line(word: usize, expected: Expected) -> Self
        ensures { result.kind ≡ ScriptKind.Line }
    {
        WordFault::new(ScriptKind::Line, word, expected)
    }

    /// The fault of this word with this index, which is too many in its line.
    pub(crate) fn too_many(index: usize, word: &[u8]) -> Self
        ensures { result.kind ≡ ScriptKind.Line }
    {
        WordFault::line(index, Expected::LineEnd.unless_comment(word))
    }

    fn out_of_memory() -> Self
        ensures { result.kind ≡ ScriptKind.OutOfMemory }
    {
        WordFault {
            kind: ScriptKind::OutOfMemory,
            misread: None,
        }
    }

    /// The fault of the line with this number; want of memory is no line's.
    pub(crate) fn on(self, line: u32) -> ScriptFault
        ensures { result.kind ≡ self.kind }
    {
        match self.kind {
            ScriptKind::OutOfMemory => ScriptFault::out_of_memory(),
            kind => ScriptFault {
                kind,
                line,
                misread: self.misread,
            },
        }
    }
}

impl From<AllocError> for WordFault {
    ghost use Rattle.std.specs.Prelude.{◌≡◌};
    ghost use Rattle.mc_script_text.specs.declared.fault.ScriptKind.TheVariants.{OutOfMemory};

    ghost from_gives = { λ _ e. e.kind ≡ OutOfMemory };

    fn from(_e: AllocError) -> WordFault {
        WordFault::out_of_memory()
    }
}

impl<T: Drop> From<AllocFailed<T>> for WordFault {
    ghost use Rattle.std.specs.Prelude.{◌≡◌};
    ghost use Rattle.mc_script_text.specs.declared.fault.ScriptKind.TheVariants.{OutOfMemory};

    ghost from_gives = { λ _ e. e.kind ≡ OutOfMemory };

    fn from(_e: AllocFailed<T>) -> WordFault {
        WordFault::out_of_memory()
    }
}
