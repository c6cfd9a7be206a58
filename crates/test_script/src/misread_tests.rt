//! Which word a fault is about, and what was expected there. `cases/asm/misread-words.cases` has more of it.

use mc_script_text::Expected::{CommentAlone, OneBind, OneMarkOfFlag, ReplyWithNumber};
use mc_script_text::{Expected, Misread, ScriptKind, parse};
use std::alloc::Global;
use std::test::Fail;

static HEAD: &str = "script 1
keys a
flags f
vars v w
budget P 2 100
budget A 2 100
budget B 2 100
P
A
";

// Line 10 of a text, the kind of its fault, and the word and what was expected there.
static LINES: &[(&str, ScriptKind, usize, Expected)] = &[
    ("halt # x", ScriptKind::Line, 1, CommentAlone),
    ("get a >v", ScriptKind::Line, 2, ReplyWithNumber),
    ("gets a >v >w", ScriptKind::Duplicate, 3, OneBind),
    ("set a 0 =5 +f -f", ScriptKind::Duplicate, 5, OneMarkOfFlag),
];

fn told_of(alloc: Global, text: &str) -> Option<(ScriptKind, u32, usize, Expected)> {
    match parse(alloc, text.as_bytes()) {
        Ok(_) => None,
        Err(fault) => {
            let Misread { word, expected } = fault.misread?;
            Some((fault.kind, fault.line, word, expected))
        }
    }
}

fn told_on(alloc: Global, line: &str) -> Result<Option<(ScriptKind, u32, usize, Expected)>, Fail> {
    let text = format!(in alloc; "{HEAD}{line}\nB\nend\n")?;
    Ok(told_of(alloc, &text))
}

#[test]
fn tells_the_word_of_a_line(rt: HostRuntime) -> Result<(), Fail> {
    for (line, kind, word, expected) in LINES {
        assert_eq!(rt;
            told_on(rt.alloc(), line)?,
            Some((*kind, 10, *word, *expected)),
            "{line}"
        );
    }
    Ok(())
}
