//! How the lines of a script are taken.

ghost use Rattle.std.specs.Prelude.{◌≡◌, ◌≢◌, [], ◌∷◌, IfOk, IfErr, OnOk};

use crate::word_fault::WordFault;
use crate::{Expected, ScriptFault, ScriptKind};
use mc_protocol::{WordLine, WordLines};
use std::alloc::Global;

/// Takes the next line, where the text may not end yet: otherwise it has this fault after its last line, where this was
/// expected.
pub(crate) fn next_due<'a>(
    alloc: Global,
    lines: &mut WordLines<'a>,
    kind: ScriptKind,
    expected: Expected,
) -> Result<WordLine<'a>, ScriptFault>
    ensures line { IfOk result (λ line. lines.old.words ≡ line.words ∷ lines.new.words) }
    ensures ended { IfErr result (λ fault. fault.kind ≢ ScriptKind.OutOfMemory → lines.old.words ≡ []) }
{
    match lines.next(alloc)? {
        Some(line) => Ok(line),
        None => {
            let line = lines.number().saturating_add(1);
            Err(WordFault::new(kind, 0, expected).on(line))
        }
    }
}

/// The fault of a line whose first word can't stand there, where this was expected.
pub(crate) fn unexpected(kind: ScriptKind, expected: Expected, line: &WordLine) -> ScriptFault
    ensures { result.kind ≡ kind }
{
    let expected = match line.words() {
        [word, ..] => expected.unless_comment(word),
        [] => expected,
    };
    WordFault::new(kind, 0, expected).on(line.number())
}

/// Sees that no line is left.
pub(crate) fn finish(alloc: Global, lines: &mut WordLines) -> Result<(), ScriptFault>
    ensures end { OnOk result (lines.old.words ≡ []) }
    ensures none { IfErr result (λ fault. fault.kind ≢ ScriptKind.OutOfMemory → lines.old.words ≢ []) }
{
    match lines.next(alloc)? {
        Some(line) => Err(unexpected(ScriptKind::Line, Expected::NothingAfterEnd, &line)),
        None => Ok(()),
    }
}
