//! Reads the notes of a timeline.
ghost use Rattle.std.specs.Prelude.{◌≡◌, ◌≢◌, ◌↔◌, ◌⊎◌, [], ◌∷◌, IsTrue, IfOk, IfErr};
ghost use Rattle.mc_history.specs.{HistoryText.end_line, HistoryText.explain_line, Refuses.Refuses};
ghost use Rattle.mc_timeline_text.specs.{TimelineTexts.Spelled, TimelineTexts.SpellsTimelineTail, TimelineParts.SpellsNotes};

use crate::clients::read_client;
use crate::rules::misread_note;
use mc_history::{ExpectedInTimeline, HistoryFault, next_due, read_note};
use mc_model::{HistoryKind, Note};
use mc_protocol::{WordLine, WordLines};
use mc_timeline::{Timeline, TimelineBuilder};
use std::alloc::Global;

/// Reads the notes, and takes the line after them, which is `end` or `explain`.
pub(crate) fn read_notes<'a>(
    alloc: Global,
    lines: &mut WordLines<'a>,
) -> Result<(Timeline, WordLine<'a>), HistoryFault>
    ensures exact { IfOk result (λ r. (s : Spelled)
        → SpellsNotes lines.old.words s ↔ ((s.0 ≡ r.0) × SpellsTimelineTail (r.1.words ∷ lines.new.words) s.1)) }
    ensures last { IfOk result (λ r. (r.1.words ≡ end_line) ⊎ (r.1.words ≡ explain_line)) }
    ensures none { IfErr result (Refuses (SpellsNotes lines.old.words)) }
{
    let mut builder = TimelineBuilder::new(alloc);
    'noting: loop {
        let line = next_due(alloc, lines, HistoryKind::Unended)?;
        if is_last(&line) {
            return Ok((builder.finish(), line));
        }
        let client = read_client(&line, ExpectedInTimeline::NoteOrEnd)?;
        let note = read_note(alloc, &line, line.others())?;
        let is_reply = matches!(&note, Note::Reply(_));
        if let Err(kind) = builder.push(alloc, client, note) {
            return Err(HistoryFault::of_line(kind, line.number(), misread_note(kind, is_reply)));
        }
    }
}

// Whether the line ends the notes.
fn is_last(line: &WordLine) -> bool
    ensures { IsTrue result ↔ ((line.now.words ≡ end_line) ⊎ (line.now.words ≡ explain_line)) }
{
    line.is_only(b"end") || line.is_only(b"explain")
}
