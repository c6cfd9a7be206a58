//! How a text falls into lines and words.
use crate::memory::again;
use mc_protocol::{Lines, OutOfMemory, Separator, words_in};
use std::alloc::Global;
use std::test::Fail;

// A byte, and whether it separates words by `Separator::Space` and by `Separator::SpaceOrTab`.
static SEPARATORS: &[(u8, bool, bool)] = &[
    (b' ', true, true),
    (b'\t', false, true),
    (b'\r', false, false),
    (b'a', false, false),
];

#[test]
fn knows_separators(rt: HostRuntime) {
    for (byte, is_space, is_space_or_tab) in SEPARATORS {
        assert!(rt;
            Separator::Space.separates(*byte) == *is_space
                && Separator::SpaceOrTab.separates(*byte) == *is_space_or_tab,
            "{byte}"
        );
    }
}

// A text with the lines that count, each with its number, and how many lines it has.
type Row = (
    &'static [u8],
    Separator,
    &'static [(u32, &'static [u8])],
    u32,
);

static TEXTS: &[Row] = &[
    // A tab alone is a word where the space is the only separator. A CR with no LF after it belongs to its word.
    (
        b"# first\r\n\n  \n a  b\tc \r\n\tx\n#\n y\r",
        Separator::Space,
        &[(4, b" a  b\tc "), (5, b"\tx"), (7, b" y\r")],
        7,
    ),
    (b"\t\n", Separator::Space, &[(1, b"\t")], 1),
    (b"\t\n", Separator::SpaceOrTab, &[], 1),
    (b"", Separator::Space, &[], 0),
];

// Whether the next line is this one.
fn is_next(lines: &mut Lines<'_>, number: u32, text: &[u8]) -> bool {
    match lines.next() {
        Some(line) => line.number == number && line.text == text,
        None => false,
    }
}

fn has_lines(text: &[u8], separator: Separator, expected: &[(u32, &[u8])], count: u32) -> bool {
    let mut lines = Lines::new(text, separator);
    for (number, line) in expected {
        if !is_next(&mut lines, *number, line) {
            return false;
        }
    }
    lines.next().is_none() && lines.number() == count
}

#[test]
fn takes_lines(rt: HostRuntime) {
    for (text, separator, expected, count) in TEXTS {
        assert!(rt; has_lines(text, *separator, expected, *count), "{count}");
    }
}

static LINES: &[(Separator, &[u8], &[&[u8]])] = &[
    (Separator::Space, b" a  b\tc ", &[b"a", b"b\tc"]),
    (Separator::SpaceOrTab, b" a  b\tc ", &[b"a", b"b", b"c"]),
];

fn has_words(
    alloc: Global,
    separator: Separator,
    line: &[u8],
    expected: &[&[u8]],
) -> Result<bool, OutOfMemory> {
    let words = again(|| words_in(alloc, separator, line))?;
    Ok(words.as_slice() == expected)
}

#[test]
fn takes_words(rt: HostRuntime) -> Result<(), Fail> {
    for (separator, line, expected) in LINES {
        assert!(rt;
            has_words(rt.alloc(), *separator, line, expected)?,
            "{separator:?}"
        );
    }
    Ok(())
}
