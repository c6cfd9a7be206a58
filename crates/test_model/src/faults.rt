//! Faults of words that no line of a text has, and the texts of faults. `cases/model/misread-words.cases` and
//! `cases/judge/why-refused.cases` have the others.
use mc_model::HistoryKind;
use mc_protocol::OutOfMemory;
use mc_words::{ExpectedWord, MisreadWord, WordsFault, WordsKind, read_body};
use std::alloc::Global;
use std::test::Fail;

fn fault_of(kind: WordsKind, word: usize, expected: ExpectedWord) -> WordsFault {
    WordsFault {
        kind,
        misread: Some(MisreadWord { word, expected }),
    }
}

/// What is wrong with a body, where that is more than memory.
fn fault_of_body(alloc: Global, word: &str) -> Result<Option<WordsFault>, WordsFault> {
    match read_body(alloc, word.as_bytes()) {
        Ok(_) => Ok(None),
        Err(fault) if fault.kind == WordsKind::OutOfMemory => Err(fault),
        Err(fault) => Ok(Some(fault)),
    }
}

/// In a text the space would end the word.
#[test]
fn refuses_a_space_in_a_body(rt: HostRuntime) -> Result<(), Fail> {
    let expected = fault_of(WordsKind::Form, 0, ExpectedWord::VisibleByte);
    assert_eq!(rt; fault_of_body(rt.alloc(), "=a b")?, Some(expected));
    Ok(())
}

fn are_shown(
    alloc: Global,
    kind: HistoryKind,
    fault: WordsFault,
    expected: &str,
) -> Result<bool, OutOfMemory> {
    Ok(format!(in alloc; "{kind}; {fault}")?.as_str() == expected)
}

#[test]
fn shows_faults(rt: HostRuntime) -> Result<(), Fail> {
    let expected =
        "a section has more than 24 requests, or the history more than 8 keys; a number is too large";
    assert!(rt;
        are_shown(
            rt.alloc(),
            HistoryKind::TooMany,
            fault_of(WordsKind::Number, 2, ExpectedWord::Amount),
            expected
        )?
    );
    Ok(())
}
