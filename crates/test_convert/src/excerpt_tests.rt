//! Texts without a history, the part of a text that is one, and text in XML.

use mc_convert::{Converted, Form, convert, escaped, find_history};
use mc_model::HistoryKind;
use mc_protocol::OutOfMemory;
use std::alloc::Global;
use std::test::Fail;

// A text, the number of a job, and the fault with its line.
type Row = (&'static str, Option<u64>, HistoryKind, u32);

static TEXTS: [Row; 5] = [
    ("# none\nhistory 3\nend\n", None, HistoryKind::Header, 2),
    (
        "P done\nhistory 1\nP delete a -> MISS\nend\n",
        None,
        HistoryKind::WrongReply,
        3,
    ),
    (
        "history 1\nP delete a -> NOT_FOUND\nhistory 1\nend\n",
        None,
        HistoryKind::Line,
        3,
    ),
    ("job 3\nhistory 1\nend\n", Some(30), HistoryKind::Header, 4),
    ("", None, HistoryKind::Header, 1),
];

// The index of the first text that isn't refused so, in JSON and in EDN.
fn first_other(alloc: Global) -> Result<Option<usize>, OutOfMemory> {
    'texts: for (index, (text, job, kind, line)) in TEXTS.iter().enumerate() {
        'forms: for form in [Form::Json, Form::Edn] {
            match convert(alloc, text.as_bytes(), form, *job)? {
                Converted::Refused(fault) if fault.kind == *kind && fault.line == *line => {}
                _ => return Ok(Some(index)),
            }
        }
    }
    Ok(None)
}

fn lacks_order(alloc: Global) -> Result<bool, OutOfMemory> {
    let converted = convert(alloc, b"history 1\nend\n", Form::Edn, None)?;
    Ok(matches!(converted, Converted::NoOrder))
}

// Whether the part of a job is found, and its lines keep their numbers.
fn is_found(alloc: Global) -> Result<bool, OutOfMemory> {
    let text = b"job 3\nhistory 1\nend\njob 4\nhistory 2\nend\nP done\n";
    let part = find_history(text, Some(4));
    let alone = part.after_blank_lines(alloc)?;
    Ok(
        part.lines_before == 4
            && part.text == b"history 2\nend\n".as_slice()
            && alone.as_slice() == b"\n\n\n\nhistory 2\nend\n".as_slice(),
    )
}

#[test]
fn refuses_what_has_no_history(rt: HostRuntime) -> Result<(), Fail> {
    assert_eq!(rt; first_other(rt.alloc())?, None);
    assert!(rt; lacks_order(rt.alloc())?);
    Ok(())
}

#[test]
fn finds_the_history_of_a_job(rt: HostRuntime) -> Result<(), Fail> {
    assert!(rt; is_found(rt.alloc())?);
    Ok(())
}

#[test]
fn escapes_xml(rt: HostRuntime) -> Result<(), Fail> {
    let text = escaped(rt.alloc(), b"a\"<&>'%\x00\x7f\xff\n")?;
    assert!(rt; text.as_str() == "a&quot;&lt;&amp;&gt;&#39;%???\n");
    Ok(())
}
