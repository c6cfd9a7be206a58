//! Why a script has no code.
ghost use Rattle.std.specs.Prelude.{◌≡◌};

use mc_protocol::{Actor, FaultKind};
use std::alloc::{AllocError, AllocFailed};
use thiserror::Error;

/// Why a script is not assembled.
#[derive(Clone, Copy, Debug, Drop, PartialEq, Eq, Error)]
pub enum AsmFault {
    /// The script needs more than 64 templates: one for each key, and one for each request of its sections.
    #[error("expected at most 64 templates: one for each key, and one for each request")]
    TooManyTemplates,
    /// This section, the first such of P, A and B, needs more than 128 instructions. The templates are not too many.
    #[error("expected at most 128 instructions in a section")]
    TooManyInstructions(Actor),
    /// Memory ran out.
    #[error("out of memory")]
    OutOfMemory,
}

impl FaultKind for AsmFault {
    ghost use Rattle.mc_assembler.specs.AsmKinds as asm_kinds;
    ghost use Rattle.mc_assembler.specs.declared.fault.AsmFault.TheVariants.{OutOfMemory};

    ghost kind_number = { asm_kinds.kind_number };

    ghost kind_name = { asm_kinds.kind_name };

    ghost OutOfMemory = { OutOfMemory };

    fn number_and_name(self) -> (u32, &'static str) {
        match self {
            AsmFault::TooManyTemplates => (1, "TooManyTemplates"),
            AsmFault::TooManyInstructions(_) => (2, "TooManyInstructions"),
            AsmFault::OutOfMemory => (3, "OutOfMemory"),
        }
    }

    fn is_out_of_memory(self) -> bool {
        self == AsmFault::OutOfMemory
    }
}

impl From<AllocError> for AsmFault {
    ghost use Rattle.mc_assembler.specs.declared.fault.AsmFault.TheVariants.{OutOfMemory};

    ghost from_gives = { λ _ e. e ≡ OutOfMemory };

    fn from(_e: AllocError) -> AsmFault {
        AsmFault::OutOfMemory
    }
}

impl<T: Drop> From<AllocFailed<T>> for AsmFault {
    ghost use Rattle.mc_assembler.specs.declared.fault.AsmFault.TheVariants.{OutOfMemory};

    ghost from_gives = { λ _ e. e ≡ OutOfMemory };

    fn from(_e: AllocFailed<T>) -> AsmFault {
        AsmFault::OutOfMemory
    }
}
