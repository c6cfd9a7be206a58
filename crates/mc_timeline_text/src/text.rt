//! Reads the text of a timeline.
ghost use Rattle.std.specs.Prelude.{◌≡◌, ◌↔◌, ◌⊎◌, ◌∷◌, IfOk, IfErr};
ghost use Rattle.mc_history.specs.{HistoryText.end_line, HistoryText.explain_line, Refuses.Refuses};
ghost use Rattle.mc_linearize.specs.Claims.{TimelineClaim};
ghost use Rattle.mc_timeline_text.specs.TimelineTexts.{Spelled, SpellsTimelineTail, SpellsTimelineText};
ghost use Rattle.mc_timeline_text.specs.TimelineParts.{SpellsStarts, SpellsMoves};

use crate::header::take_header;
use crate::moves::read_moves;
use crate::notes::read_notes;
use mc_history::{HistoryFault, Starts, finish, next_due};
use mc_linearize::TimelineExplanation;
use mc_model::HistoryKind;
use mc_protocol::{Bytes, Separator, WordLine, WordLines};
use mc_timeline::Timeline;
use std::alloc::Global;

/// Reads a timeline, and the explanation after it if the text has one. The fault is that of the first faulty line; on one line the
/// kinds go in the order Line or Number (the leftmost faulty word), TooMany, Order, NotCleared, UnseenNumber, WrongReply. A number
/// of a client that is above 63 is Number, and one with a leading zero is Line. Want of memory is the fault of line 0.
pub fn parse_timeline(
    alloc: Global,
    text: &[u8],
) -> Result<(Timeline, Option<TimelineExplanation>), HistoryFault>
    ensures found { IfOk result (λ r. SpellsTimelineText text.now r.0 r.1) }
    ensures none { IfErr result (Refuses (λ (s : Spelled). SpellsTimelineText text.now s.0 s.1)) }
    ensures memory { IfErr result (λ fault. fault.kind ≡ HistoryKind.OutOfMemory → fault.line ≡ 0) }
{
    let mut lines = WordLines::new(text, Separator::Space);
    take_header(alloc, &mut lines)?;
    let (timeline, line) = read_notes(alloc, &mut lines)?;
    let explanation = read_tail(alloc, &mut lines, line)?;
    Ok((timeline, explanation))
}

// Reads what follows the notes. The first of these lines is `first`, which was taken already.
fn read_tail<'a>(
    alloc: Global,
    lines: &mut WordLines<'a>,
    first: WordLine<'a>,
) -> Result<Option<TimelineExplanation>, HistoryFault>
    requires { (first.words ≡ end_line) ⊎ (first.words ≡ explain_line) }
    ensures found { IfOk result (SpellsTimelineTail (first.entry.words ∷ lines.old.words)) }
    ensures none { IfErr result (Refuses (SpellsTimelineTail (first.entry.words ∷ lines.old.words))) }
{
    if first.is_only(b"end") {
        finish(alloc, lines)?;
        return Ok(None);
    }
    let (start, line) = read_starts(alloc, lines)?;
    let moves = read_moves(alloc, lines, line)?;
    Ok(Some(TimelineExplanation { start, moves }))
}

// Reads the `start` lines, and takes the line after them.
fn read_starts<'a>(
    alloc: Global,
    lines: &mut WordLines<'a>,
) -> Result<(Vec<(Bytes, u64)>, WordLine<'a>), HistoryFault>
    ensures exact { IfOk result (λ r. (claim : TimelineClaim)
        → SpellsStarts lines.old.words claim ↔ ((claim.start ≡ r.0.items) × SpellsMoves (r.1.words ∷ lines.new.words) claim.moves)) }
    ensures none { IfErr result (Refuses (SpellsStarts lines.old.words)) }
{
    let mut starts = Starts::new(alloc);
    'starts: loop {
        let line = next_due(alloc, lines, HistoryKind::Unended)?;
        if !line.begins_with(b"start") {
            return Ok((starts.into_items(), line));
        }
        starts.read(alloc, &line)?;
    }
}
