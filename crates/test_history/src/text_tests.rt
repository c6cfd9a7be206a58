//! What is printed of what was read, and a long text.

use crate::memory::again;
use mc_history::{Explanation, HistoryFault, parse_history, print_explanation, print_history};
use mc_model::History;
use mc_protocol::OutOfMemory;
use std::alloc::Global;
use std::test::Fail;

// The lines of requests and those of a claim, as they are printed.
static PRINTED: [(&str, &str); 4] = [
    ("", ""),
    (
        "P delete k -> NOT_FOUND\nP set k 7 =a%20b -> STORED\nA gets k -> HIT 7 =a%20b 18\n\
         A cas k 0 =%25 18 -> ?\nB incr k 5 -> NOT_A_NUMBER\n",
        "start x 9\nP 1\nA 0 refuse\n",
    ),
    (
        "P delete a-1 -> DELETED\nP delete 2 -> NOT_FOUND\nA set a-1 4294967295 =%00~ -> STORED\n\
         A decr 2 18446744073709551615 -> NOT_FOUND\nA touch a-1 -> TOUCHED\nB get a-1 -> HIT 0 =\n\
         B append 2 0 = -> ?\n",
        "start b 1\nstart a 18446744073709551615\nP 0\nA 2 pad refuse\nB 30 pad\nB 18446744073709551615 refuse\n",
    ),
    ("P delete a -> ?\n", "P 0\n"),
];

// Whether these lines are read and printed as they stand, after what the vectors hold already.
fn is_printed_again(alloc: Global, requests: &str, claim: &str) -> Result<bool, Fail> {
    let text = format!(in alloc; "history 1\n{requests}explain\n{claim}end\n")?;
    is_text_printed_again(alloc, &text, requests, claim)
}

fn is_text_printed_again(
    alloc: Global,
    text: &str,
    requests: &str,
    claim: &str,
) -> Result<bool, Fail> {
    let read = again(|| parse_history(alloc, text.as_bytes()))?;
    are_both_printed_as(alloc, &read, requests, claim)
}

fn are_both_printed_as(
    alloc: Global,
    read: &(History, Option<Explanation>),
    requests: &str,
    claim: &str,
) -> Result<bool, Fail> {
    Ok(
        is_history_printed_as(alloc, &read.0, requests)?
            && is_claim_printed_as(alloc, &read.1, claim)?,
    )
}

fn is_history_printed_as(alloc: Global, history: &History, requests: &str) -> Result<bool, Fail> {
    let printed = history_after(alloc, b"before\n", history)?;
    let wanted = format!(in alloc; "before\nhistory 1\n{requests}end\n")?;
    Ok(printed.as_slice() == wanted.as_bytes())
}

fn is_claim_printed_as(
    alloc: Global,
    explanation: &Option<Explanation>,
    claim: &str,
) -> Result<bool, Fail> {
    let Some(explanation) = explanation else {
        return Err(Fail::from("a claim"));
    };
    let printed = claim_after(alloc, b"explain\n", explanation)?;
    let wanted = format!(in alloc; "explain\n{claim}")?;
    Ok(printed.as_slice() == wanted.as_bytes())
}

// What is there once the history is printed after a front.
fn history_after(alloc: Global, front: &[u8], history: &History) -> Result<Vec<u8>, OutOfMemory> {
    let mut text = Vec::from_slice(alloc, front)?;
    again(|| print_history(history, &mut text))?;
    Ok(text)
}

fn claim_after(
    alloc: Global,
    front: &[u8],
    explanation: &Explanation,
) -> Result<Vec<u8>, OutOfMemory> {
    let mut text = Vec::from_slice(alloc, front)?;
    again(|| print_explanation(explanation, &mut text))?;
    Ok(text)
}

#[test]
fn prints_what_was_read(rt: HostRuntime) -> Result<(), Fail> {
    for (requests, claim) in &PRINTED {
        assert!(rt;
            is_printed_again(rt.alloc(), requests, claim)?,
            "{requests}{claim}"
        );
    }
    Ok(())
}

const NOTED: &str = "history 2
P begin delete a
P reply DELETED
B begin gets a
A begin set a 7 =%20x
B reply HIT 7 =%20x 18446744073709551615
A reply STORED
A begin incr a 5
end
";

#[test]
fn prints_what_was_noted(rt: HostRuntime) -> Result<(), Fail> {
    let text = noted_again(rt.alloc())?;
    assert!(rt; text.as_slice() == NOTED.as_bytes());
    Ok(())
}

fn noted_again(alloc: Global) -> Result<Vec<u8>, Fail> {
    let read = again(|| parse_history(alloc, NOTED.as_bytes()))?;
    Ok(history_after(alloc, b"", &read.0)?)
}

// A text of a mebibyte, each line of which has a key of its own, is read in a moment.
#[test]
fn reads_many_keys(rt: HostRuntime) -> Result<(), Fail> {
    let text = text_with_keys(rt.alloc(), 80000)?;
    assert_eq!(rt; count_keys(rt.alloc(), &text)?, Some(80000));
    Ok(())
}

// How many keys held something, where there is a claim.
fn count_keys(alloc: Global, text: &str) -> Result<Option<usize>, HistoryFault> {
    let read = parse_history(alloc, text.as_bytes())?;
    Ok(count_keys_of(&read.1))
}

fn count_keys_of(explanation: &Option<Explanation>) -> Option<usize> {
    match explanation {
        Some(explanation) => Some(explanation.start.len()),
        None => None,
    }
}

fn text_with_keys(alloc: Global, count: u32) -> Result<String, Fail> {
    let mut text = String::from_str(alloc, "history 1\nexplain\n")?;
    for number in 0..count {
        push_start(alloc, number, &mut text)?;
    }
    text.push_str("end\n")?;
    Ok(text)
}

fn push_start(alloc: Global, number: u32, text: &mut String) -> Result<(), Fail> {
    let line = format!(in alloc; "start {number} 1\n")?;
    Ok(text.push_str(line.as_str())?)
}
