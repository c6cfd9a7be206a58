//! Why a script, or a job, has no code.

use std::alloc::AllocError;
use thiserror::Error;

/// Why a script that is generated has no code that may run.
#[derive(Clone, Copy, Debug, Drop, PartialEq, Eq, Error)]
pub enum GenFault {
    /// Memory ran out.
    #[error("out of memory")]
    OutOfMemory,
    /// The job's script is too large for the assembler, or its code has a fault.
    #[error("expected a script whose code may run")]
    Refused,
}

impl From<AllocError> for GenFault {
    ghost use Rattle.std.specs.Prelude.{◌≡◌};
    ghost use Rattle.mc_generate.specs.declared.fault.GenFault.TheVariants.{OutOfMemory};

    ghost from_gives = { λ _ e. e ≡ OutOfMemory };

    fn from(_e: AllocError) -> GenFault {
        GenFault::OutOfMemory
    }
}

/// Why a job has no code that may run, under the name of its campaign.
#[derive(Clone, Copy, Debug, Drop, PartialEq, Eq, Error)]
pub enum JobFault {
    /// Memory ran out.
    #[error("out of memory")]
    OutOfMemory,
    /// Its script is too large for the assembler, or its code has a fault.
    #[error("expected a script whose code may run")]
    Refused,
    /// Under the name one of its keys has more than 40 bytes.
    #[error("expected keys of at most 40 bytes under the name")]
    KeyTooLong,
}

impl From<AllocError> for JobFault {
    ghost use Rattle.std.specs.Prelude.{◌≡◌};
    ghost use Rattle.mc_generate.specs.declared.fault.JobFault.TheVariants.{OutOfMemory};

    ghost from_gives = { λ _ e. e ≡ OutOfMemory };

    fn from(_e: AllocError) -> JobFault {
        JobFault::OutOfMemory
    }
}

impl From<GenFault> for JobFault {
    ghost use Rattle.std.specs.Prelude.{◌≡◌};
    ghost use Rattle.mc_generate.specs.JobCodes.{fault_of};

    ghost from_gives = { λ fault e. e ≡ fault_of fault };

    fn from(fault: GenFault) -> JobFault {
        match fault {
            GenFault::OutOfMemory => JobFault::OutOfMemory,
            GenFault::Refused => JobFault::Refused,
        }
    }
}
