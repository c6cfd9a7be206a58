//! Why a text is no script.

ghost use Rattle.std.specs.Prelude.{◌≡◌, None};
ghost use Rattle.mc_script_text.specs.declared.fault.ScriptKind.TheVariants.{OutOfMemory};

use crate::Misread;
use mc_protocol::FaultKind;
use std::alloc::{AllocError, AllocFailed};
use thiserror::Error;

/// Why a text is no script.
#[derive(Clone, Copy, Debug, Drop, PartialEq, Eq, Error)]
pub enum ScriptKind {
    #[error("expected `script 1` or `script 2`, `keys`, `flags`, `vars` and the budgets of P, A and B, in this order")]
    Header,
    #[error("expected a label, a request with its marks, `bind`, `goto`, `halt`, or the next section")]
    Line,
    #[error("expected a name of `a` to `z`, `0` to `9` and `-`: 1 to 40 bytes for a key, else 1 to 20")]
    Name,
    #[error("expected a name, a mark or a label that doesn't stand there already")]
    Duplicate,
    #[error("expected a key that `keys` declares")]
    UnknownKey,
    #[error("expected a flag that `flags` declares")]
    UnknownFlag,
    #[error("expected a variable that `vars` declares")]
    UnknownVar,
    #[error("expected a label of this section")]
    UnknownLabel,
    #[error("expected a label that stands further down: a script has no loops")]
    BackwardLabel,
    #[error("expected a decimal of 1 to 20 digits: flags below 2^32, other numbers below 2^64")]
    Number,
    #[error("expected a body of at most 64 letters and digits")]
    Data,
    #[error("expected at most 8 keys, 16 variables, 32 flags and 64 steps in a section, or in `script 2` 64 flags and 128 steps")]
    TooMany,
    #[error("expected a budget of at most 24 requests and 8192 bytes")]
    Budget,
    #[error("expected the sections P, A and B, and after them the line `end`")]
    Unended,
    #[error("out of memory")]
    OutOfMemory,
}

impl FaultKind for ScriptKind {
    ghost use Rattle.mc_script_text.specs.Kinds as kinds;
    ghost use Rattle.mc_script_text.specs.declared.fault.ScriptKind.TheVariants.{OutOfMemory};

    ghost kind_number = { kinds.kind_number };

    ghost kind_name = { kinds.kind_name };

    ghost OutOfMemory = { OutOfMemory };

    fn number_and_name(self) -> (u32, &'static str) {
        match self {
            ScriptKind::Header => (1, "Header"),
            ScriptKind::Line => (2, "Line"),
            ScriptKind::Name => (3, "Name"),
            ScriptKind::Duplicate => (4, "Duplicate"),
            ScriptKind::UnknownKey => (5, "UnknownKey"),
            ScriptKind::UnknownFlag => (6, "UnknownFlag"),
            ScriptKind::UnknownVar => (7, "UnknownVar"),
            ScriptKind::UnknownLabel => (8, "UnknownLabel"),
            ScriptKind::BackwardLabel => (9, "BackwardLabel"),
            ScriptKind::Number => (10, "Number"),
            ScriptKind::Data => (11, "Data"),
            ScriptKind::TooMany => (12, "TooMany"),
            ScriptKind::Budget => (13, "Budget"),
            ScriptKind::Unended => (14, "Unended"),
            ScriptKind::OutOfMemory => (15, "OutOfMemory"),
        }
    }

    fn is_out_of_memory(self) -> bool {
        self == ScriptKind::OutOfMemory
    }
}

/// Why a text is no script, the number of its first faulty line, and the word of it; 0 and none where memory ran out.
#[derive(Clone, Copy, Debug, Drop, PartialEq, Eq, Error)]
#[error("line {line}: {kind}")]
pub struct ScriptFault {
    pub kind: ScriptKind,
    pub line: u32,
    /// The word that is at fault, and what was expected there. Where the text ends too early it is the first of the next line.
    pub misread: Option<Misread>,
    ghost memory: { kind ≡ OutOfMemory → line ≡ 0 },
    ghost told: { misread ≡ None → kind ≡ OutOfMemory },
}

impl ScriptFault {
    pub(crate) fn out_of_memory() -> Self
        ensures { result.kind ≡ ScriptKind.OutOfMemory }
    {
        ScriptFault {
            kind: ScriptKind::OutOfMemory,
            line: 0,
            misread: None,
        }
    }
}

impl From<AllocError> for ScriptFault {
    ghost use Rattle.std.specs.Prelude.{◌≡◌};
    ghost use Rattle.mc_script_text.specs.declared.fault.ScriptKind.TheVariants.{OutOfMemory};

    ghost from_gives = { λ _ e. e.kind ≡ OutOfMemory };

    fn from(_e: AllocError) -> ScriptFault {
        ScriptFault::out_of_memory()
    }
}

impl<T: Drop> From<AllocFailed<T>> for ScriptFault {
    ghost use Rattle.std.specs.Prelude.{◌≡◌};
    ghost use Rattle.mc_script_text.specs.declared.fault.ScriptKind.TheVariants.{OutOfMemory};

    ghost from_gives = { λ _ e. e.kind ≡ OutOfMemory };

    fn from(_e: AllocFailed<T>) -> ScriptFault {
        ScriptFault::out_of_memory()
    }
}
