//! Which texts are step lists.

use crate::memory::again;
use mc_history::parse_steps;
use mc_protocol::{Actor, Event, Fault, OutOfMemory, Reply, append_all};
use mc_words::print_reply_words;
use std::alloc::Global;
use std::test::Fail;

// Texts that are step lists, each with its steps as one would write them plainly.
static LISTS: &[(&str, &str)] = &[
    ("steps\nend\n", ""),
    // what a run may take, and what it may not
    (
        "steps\nA begin\nP begin\nP reply NOT_FOUND\nA begin\nA fail 3\nA begin\nB reply NUMBER 6\nend\n",
        "A begin\nP begin\nP reply NOT_FOUND\nA begin\nA fail 3\nA begin\nB reply NUMBER 6\n",
    ),
    // replies of each class
    (
        "steps\nP reply STORED\nA reply NOT_STORED\nB reply EXISTS\nP reply NOT_FOUND\nA reply MISS\nend\n",
        "P reply STORED\nA reply NOT_STORED\nB reply EXISTS\nP reply NOT_FOUND\nA reply MISS\n",
    ),
    (
        "steps\nA reply DELETED\nB reply TOUCHED\nP reply NUMBER 007\nA reply NOT_A_NUMBER\nend\n",
        "A reply DELETED\nB reply TOUCHED\nP reply NUMBER 7\nA reply NOT_A_NUMBER\n",
    ),
    (
        "steps\nA reply HIT 7 =a%2Fb%0a\nB reply HIT 04294967295 = 18446744073709551615\nend\n",
        "A reply HIT 7 =a/b%0a\nB reply HIT 4294967295 = 18446744073709551615\n",
    ),
    // each fault, also with zeros that lead its number
    (
        "steps\nP fail 1\nA fail 2\nB fail 03\nP fail 4\nA fail 5\nB fail 00000000000000000006\nP fail 7\nA fail 8\nend\n",
        "P fail 1\nA fail 2\nB fail 3\nP fail 4\nA fail 5\nB fail 6\nP fail 7\nA fail 8\n",
    ),
    // spaces, comments, empty lines, and ends of lines
    (
        "# a list\n\n  steps \r\n   \nB   begin\r\n# P begin\n P reply  HIT 0  =  \r\nend",
        "B begin\nP reply HIT 0 =\n",
    ),
    ("steps\nend\n# P begin\n\n   \n", ""),
];

fn print_reply(reply: &Reply, out: &mut Vec<u8>) -> Result<(), OutOfMemory> {
    append_all(out, &[b"reply "])?;
    print_reply_words(reply, out)
}

fn print_fault(alloc: Global, fault: Fault, out: &mut Vec<u8>) -> Result<(), Fail> {
    let number = format!(in alloc; "fail {}", fault.number())?;
    Ok(append_all(out, &[number.as_bytes()])?)
}

fn print_event(alloc: Global, event: &Event, out: &mut Vec<u8>) -> Result<(), Fail> {
    match event {
        Event::Begin => Ok(append_all(out, &[b"begin"])?),
        Event::Reply(reply) => Ok(print_reply(reply, out)?),
        Event::Fail(fault) => print_fault(alloc, *fault, out),
    }
}

// The step, on a line.
fn print_step(alloc: Global, actor: Actor, event: &Event, out: &mut Vec<u8>) -> Result<(), Fail> {
    append_all(out, &[actor.word().as_bytes(), b" "])?;
    print_event(alloc, event, out)?;
    Ok(append_all(out, &[b"\n"])?)
}

fn print_steps(alloc: Global, steps: &[(Actor, Event)], out: &mut Vec<u8>) -> Result<(), Fail> {
    for (actor, event) in steps {
        print_step(alloc, *actor, event, out)?;
    }
    Ok(())
}

// Whether these are the steps, one on a line.
fn are_printed_as(alloc: Global, steps: &[(Actor, Event)], wanted: &str) -> Result<bool, Fail> {
    let mut out = Vec::new(alloc);
    print_steps(alloc, steps, &mut out)?;
    Ok(out.as_slice() == wanted.as_bytes())
}

// Whether the text is the list of these steps, of which each is on a line.
fn is_list_of(alloc: Global, text: &str, wanted: &str) -> Result<bool, Fail> {
    let steps = again(|| parse_steps(alloc, text.as_bytes(), 1))?;
    are_printed_as(alloc, steps.as_slice(), wanted)
}

#[test]
fn reads_step_lists(rt: HostRuntime) -> Result<(), Fail> {
    for (text, wanted) in LISTS {
        assert!(rt; is_list_of(rt.alloc(), text, wanted)?, "{text}");
    }
    Ok(())
}
