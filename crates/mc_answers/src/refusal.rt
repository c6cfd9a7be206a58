//! What is answered to an input that is refused.
ghost use Rattle.std.specs.Prelude.{IfOk};
ghost use Rattle.mc_hints.specs.Refusals.{refused_text};
ghost use Rattle.mc_answers.specs.Refusing.{IfRefused, IsRefusal};

use mc_hints::{Refused, hint, refusal_with_hint};
use std::alloc::{AllocError, Global};

/// Why an input has no other answer.
#[derive(Drop)]
pub enum Unanswered {
    /// It is refused: this text says why, with a hint if one was asked for.
    Refused(Vec<u8>),
    /// Memory ran out.
    OutOfMemory,
}

impl From<AllocError> for Unanswered {
    ghost use Rattle.std.specs.Prelude.{◌≡◌};
    ghost use Rattle.mc_answers.specs.declared.refusal.Unanswered.TheVariants.{OutOfMemory};

    ghost from_gives = { λ _ e. e ≡ OutOfMemory };

    fn from(_e: AllocError) -> Unanswered {
        Unanswered::OutOfMemory
    }
}

/// The refusal of this input, with a hint if `why` asks for one. The input is the one that was refused, from its first line on.
pub fn refuse(alloc: Global, why: bool, input: &[u8], refused: Refused<'_>) -> Unanswered
    ensures { IfRefused result (IsRefusal why (refused_text refused.entry)) }
{
    match refusal_text(alloc, why, input, refused) {
        Ok(text) => Unanswered::Refused(text),
        Err(_) => Unanswered::OutOfMemory,
    }
}

fn refusal_text(
    alloc: Global,
    why: bool,
    input: &[u8],
    refused: Refused<'_>,
) -> Result<Vec<u8>, AllocError>
    ensures { IfOk result (λ text. IsRefusal why (refused_text refused.entry) text.items) }
{
    let hint = hint(alloc, why, input, refused)?;
    refusal_with_hint(alloc, refused, hint.as_slice())
}
