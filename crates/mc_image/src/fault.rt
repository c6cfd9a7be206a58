//! Why bytes are no image.
ghost use Rattle.std.specs.Prelude.{◌≡◌};

use mc_protocol::FaultKind;
use std::alloc::{AllocError, AllocFailed};
use thiserror::Error;

/// What is wrong with bytes that are no image.
#[derive(Clone, Copy, Debug, Drop, PartialEq, Eq, Error)]
pub enum ImageKind {
    /// The first four bytes are neither `MCR1` nor `MCR2`.
    #[error("expected the bytes `MCR1` or `MCR2`")]
    Magic,
    /// The bytes end before a field does.
    #[error("expected more bytes")]
    Short,
    /// A number is too small or too large, or a key has a byte that no key has, or a key stands twice.
    #[error("expected a number within its limits, or a new key of 1 to 40 bytes `a` to `z`, `0` to `9`, `-`")]
    Range,
    /// The fields of a template don't suit its verb, or name a key, a flag or a variable that is not declared.
    #[error("expected a template whose fields suit its verb, and whose key, variable and flags are declared")]
    Template,
    /// More bytes follow the last instruction.
    #[error("expected no more bytes")]
    Extra,
    /// Memory ran out.
    #[error("out of memory")]
    OutOfMemory,
}

impl FaultKind for ImageKind {
    ghost use Rattle.mc_image.specs.ImageKinds as image_kinds;
    ghost use Rattle.mc_image.specs.declared.fault.ImageKind.TheVariants.{OutOfMemory};

    ghost kind_number = { image_kinds.kind_number };

    ghost kind_name = { image_kinds.kind_name };

    ghost OutOfMemory = { OutOfMemory };

    fn number_and_name(self) -> (u32, &'static str) {
        match self {
            ImageKind::Magic => (1, "Magic"),
            ImageKind::Short => (2, "Short"),
            ImageKind::Range => (3, "Range"),
            ImageKind::Template => (4, "Template"),
            ImageKind::Extra => (5, "Extra"),
            ImageKind::OutOfMemory => (6, "OutOfMemory"),
        }
    }

    fn is_out_of_memory(self) -> bool {
        self == ImageKind::OutOfMemory
    }
}

/// Why bytes are no image.
#[derive(Clone, Copy, Debug, Drop, PartialEq, Eq, Error)]
#[error("byte {offset}: {kind}")]
pub struct ImageFault {
    /// What is wrong.
    pub kind: ImageKind,
    /// The offset of what is wrong: the first such field, a template whose fields don't suit each other, or the first byte
    /// after the last instruction. It is 0 if memory ran out.
    pub offset: usize,
}

impl ImageFault {
    /// The fault of this kind at this offset.
    pub(crate) fn at(kind: ImageKind, offset: usize) -> Self
        ensures { result ≡ record { kind = kind; offset = offset } }
    {
        ImageFault { kind, offset }
    }

    /// The fault that memory ran out.
    pub(crate) fn out_of_memory() -> Self
        ensures { result ≡ record { kind = ImageKind.OutOfMemory; offset = 0 } }
    {
        ImageFault {
            kind: ImageKind::OutOfMemory,
            offset: 0,
        }
    }
}

impl From<AllocError> for ImageFault {
    ghost use Rattle.std.specs.Prelude.{◌≡◌};
    ghost use Rattle.mc_image.specs.declared.fault.ImageKind.TheVariants.{OutOfMemory};

    ghost from_gives = { λ _ e. e ≡ record { kind = OutOfMemory; offset = 0 } };

    fn from(_e: AllocError) -> ImageFault {
        ImageFault::out_of_memory()
    }
}

impl<T: Drop> From<AllocFailed<T>> for ImageFault {
    ghost use Rattle.std.specs.Prelude.{◌≡◌};
    ghost use Rattle.mc_image.specs.declared.fault.ImageKind.TheVariants.{OutOfMemory};

    ghost from_gives = { λ _ e. e ≡ record { kind = OutOfMemory; offset = 0 } };

    fn from(_e: AllocFailed<T>) -> ImageFault {
        ImageFault::out_of_memory()
    }
}
