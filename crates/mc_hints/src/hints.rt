//! What stands after a refusal if the user asks why: the line of the input, and what was expected in it.
ghost use Rattle.std.specs.Prelude.{IfOk};
ghost use Rattle.mc_hints.specs.Refusals.{IsHint};

use crate::caret::with_caret;
use crate::refused::{LoadFault, Refused};
use crate::script_sentence::size_sentence;
use crate::sentence::Sentence;
use crate::spot::Spot;
use crate::unsound::unsound_hint;
use crate::{history_sentence, script_sentence};
use mc_protocol::Separator;
use mc_script_text::ScriptFault;
use std::alloc::{AllocError, Global};

/// What stands after the refusal of this input, if `why` asks for it. It is empty if `why` doesn't, and for an image. The input is the
/// one that was refused, from its first line on.
pub fn hint(
    alloc: Global,
    why: bool,
    input: &[u8],
    refused: Refused<'_>,
) -> Result<Vec<u8>, AllocError>
    ensures { IfOk result (λ hint. IsHint why hint.items) }
{
    if why {
        Ok(asked_hint(alloc, input, refused)?.into_bytes())
    } else {
        Ok(Vec::new(alloc))
    }
}

fn asked_hint(alloc: Global, input: &[u8], refused: Refused<'_>) -> Result<String, AllocError> {
    match refused {
        Refused::NoHistory(fault) => recorded_hint(alloc, input, fault.line, fault.misread),
        Refused::NoCode(LoadFault::NoScript(fault)) => script_hint(alloc, input, fault),
        Refused::NoCode(LoadFault::TooLarge(fault)) => {
            String::from_str(alloc, size_sentence(fault))
        }
        Refused::NoCode(LoadFault::NoImage(_)) => Ok(String::new(alloc)),
        Refused::Unsound(refusal) => unsound_hint(alloc, input, refusal),
        Refused::NoSteps(fault) => recorded_hint(alloc, input, fault.line, fault.misread),
    }
}

// The line of a history or of a step list, with the sentence.
fn recorded_hint(
    alloc: Global,
    text: &[u8],
    line: u32,
    misread: Option<mc_history::Misread>,
) -> Result<String, AllocError> {
    let Some(mc_history::Misread { word, expected }) = misread else {
        return Ok(String::new(alloc));
    };
    let spot = Spot::of_word(alloc, text, Separator::Space, line, word)?;
    let start = history_sentence::fault_start(expected, spot.word());
    let spot = spot.after(start);
    let text = history_sentence::text_at(expected, &spot);
    with_caret(alloc, &Sentence { text, spot: &spot }, "")
}

// The line of a script, with the sentence.
fn script_hint(alloc: Global, text: &[u8], fault: ScriptFault) -> Result<String, AllocError> {
    let Some(mc_script_text::Misread { word, expected }) = fault.misread else {
        return Ok(String::new(alloc));
    };
    let spot = Spot::of_word(alloc, text, Separator::SpaceOrTab, fault.line, word)?;
    let start = script_sentence::fault_start(expected, spot.word());
    let spot = spot.after(start);
    let text = script_sentence::text_at(expected, &spot);
    with_caret(alloc, &Sentence { text, spot: &spot }, "")
}
