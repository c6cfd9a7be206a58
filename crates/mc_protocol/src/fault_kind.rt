//! What the kinds of faults have in common: those of texts, of images and of code.
ghost use Rattle.std.specs.Prelude.{◌≡◌, ◌≢◌, IfErr, IfOk};

use crate::OutOfMemory;
use std::alloc::AllocError;

/// A kind of fault, as a refusal shows it: by its number and its name. One kind is no fault of the input: memory ran out.
pub trait FaultKind: Copy {
    ghost use Rattle.std.specs.Prelude.{◌≡◌, ◌≢◌, ℕ, true, false, List};

    ghost kind_number: { Self → ℕ };

    ghost kind_name: { Self → List ℕ };

    // memory ran out
    ghost OutOfMemory: { Self };

    /// The number and the name of the kind.
    fn number_and_name(self) -> (u32, &'static str)
        ensures number { result.0 ≡ kind_number self }
        ensures name { result.1.now ≡ kind_name self };

    /// The number of the kind.
    fn number(self) -> u32
        ensures { result ≡ kind_number self }
    {
        self.number_and_name().0
    }

    /// The name of the kind.
    fn name(self) -> &'static str
        ensures { result.now ≡ kind_name self }
    {
        self.number_and_name().1
    }

    /// Whether memory ran out, which is no fault of the input.
    fn is_out_of_memory(self) -> bool
        ensures out { result ≡ true → self ≡ OutOfMemory }
        ensures fault { result ≡ false → self ≢ OutOfMemory };
}

/// The kind, which is that of a fault of the input; or the error that memory ran out.
pub fn fault_of_input<K: FaultKind>(kind: K) -> Result<K, OutOfMemory>
    ensures same { IfOk result (λ found. found ≡ kind) }
    ensures fault { IfOk result (λ found. found ≢ K.OutOfMemory) }
    ensures memory { IfErr result (λ _. kind ≡ K.OutOfMemory) }
{
    if kind.is_out_of_memory() {
        return Err(AllocError);
    }
    Ok(kind)
}
