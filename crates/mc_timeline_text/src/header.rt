//! The first line of a timeline's text.
ghost use Rattle.std.specs.Prelude.{◌≡◌, ◌≢◌, ◌↔◌, ◌∷◌, List, IsTrue, IfOk, IfErr, OnOk};
ghost use Rattle.mc_protocol.specs.{declared.lines.Separator.TheVariants.Space, Lines.Words, Lines.words_of_text};
ghost use Rattle.mc_timeline.specs.TimelineText.{timeline_header};

use mc_history::{Expected, ExpectedInTimeline, HistoryFault};
use mc_model::HistoryKind;
use mc_protocol::{OutOfMemory, Separator, WordLine, WordLines, is_word};
use std::alloc::Global;

/// Whether a text begins as that of a timeline: its first line is `history 3`.
pub fn begins_timeline(alloc: Global, text: &[u8]) -> Result<bool, OutOfMemory>
    ensures { IfOk result (λ yes. IsTrue yes ↔ ((others : List Words) × (words_of_text Space text.now ≡ timeline_header ∷ others))) }
{
    let mut lines = WordLines::new(text, Separator::Space);
    let Some(line) = lines.next(alloc)? else {
        return Ok(false);
    };
    Ok(is_header(&line))
}

/// Takes the first line.
pub(crate) fn take_header(alloc: Global, lines: &mut WordLines) -> Result<(), HistoryFault>
    ensures header { OnOk result (lines.old.words ≡ timeline_header ∷ lines.new.words) }
    ensures none { IfErr result (λ fault. fault.kind ≢ HistoryKind.OutOfMemory
        → (others : List Words) → lines.old.words ≡ timeline_header ∷ others → ⊥) }
{
    let expected = Expected::InTimeline(ExpectedInTimeline::Header);
    let Some(line) = lines.next(alloc)? else {
        return Err(HistoryFault::at(HistoryKind::Header, 1, 0, expected));
    };
    if is_header(&line) {
        return Ok(());
    }
    let word = words_before(&line);
    Err(HistoryFault::at(HistoryKind::Header, line.number(), word, expected))
}

// Whether this is the first line.
fn is_header(line: &WordLine) -> bool
    ensures { IsTrue result ↔ (line.now.words ≡ timeline_header) }
{
    match line.words() {
        [first, version] => is_word(first, b"history") && is_word(version, b"3"),
        _ => false,
    }
}

// How many words of another line stand before the first that may not stand there.
fn words_before(line: &WordLine) -> usize {
    match line.words() {
        [first, version, ..] if is_word(first, b"history") && is_word(version, b"3") => 2,
        [first, ..] if is_word(first, b"history") => 1,
        _ => 0,
    }
}
