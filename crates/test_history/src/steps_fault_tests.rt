//! Faults of step lists that no input of the program has: at the greatest number of a line, as a text, and for want of memory.
//! `cases/drive/misread-steps.cases` and `why-refused.cases` have the others.

use mc_history::StepsKind::{Line, OutOfMemory, TooMany, Unended};
use mc_history::{Expected, Misread, StepsFault, StepsKind, parse_steps};
use mc_protocol::{FaultKind, fault_of_input};
use std::alloc::{AllocError, Global};
use std::test::Fail;

// A fault: its kind, its line, and what is misread there.
type Parts = (StepsKind, u32, Option<Misread>);

fn fault_of(alloc: Global, text: &str, first_line: u32) -> Option<Parts> {
    match parse_steps(alloc, text.as_bytes(), first_line) {
        Ok(_) => None,
        Err(fault) => Some((fault.kind, fault.line, fault.misread)),
    }
}

// Texts, each with the number of its first line, its fault, the index of the word that it is about, and what was expected there.
static LAST: &[(&str, u32, StepsKind, usize, Expected)] = &[
    ("steps\n\nP\nend\n", 4294967294, Line, 1, Expected::Event),
    ("steps\n", 4294967295, Unended, 0, Expected::EndLine),
];

#[test]
fn counts_lines_to_the_greatest_number(rt: HostRuntime) {
    for (text, first_line, kind, word, expected) in LAST {
        let misread = Misread {
            word: *word,
            expected: *expected,
        };
        assert_eq!(rt;
            fault_of(rt.alloc(), text, *first_line),
            Some((*kind, 4294967295, Some(misread))),
            "{text}"
        );
    }
}

#[test]
fn says_what_is_wrong(rt: HostRuntime) -> Result<(), Fail> {
    let fault = StepsFault {
        kind: TooMany,
        line: 1002,
        misread: Some(Misread {
            word: 0,
            expected: Expected::RoomForStep,
        }),
    };
    let text = format!(in rt.alloc(); "{fault}")?;
    assert_eq!(rt; text.as_str(), "line 1002: expected at most 1000 steps");
    assert!(rt; TooMany.number() == 3 && TooMany.name() == "TooMany");
    Ok(())
}

#[test]
fn want_of_memory_is_no_fault_of_the_input(rt: HostRuntime) {
    assert_eq!(rt; fault_of_input(TooMany), Ok(TooMany));
    assert_eq!(rt; fault_of_input(OutOfMemory), Err(AllocError));
}
