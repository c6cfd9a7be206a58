//! A script that something may follow: how far it goes. Which fault another text has is shown by `cases/drive/fronts.cases`.

use crate::memory::again;
use crate::printed::text_of;
use mc_script::Script;
use mc_script_text::parse_front;
use std::alloc::Global;
use std::test::Fail;

static HEAD: &str = "script 1
keys a
budget P 2 26
budget A 1 10
budget B 1 10
";

// P stores 5, and both branches add 1.
static SECTIONS: &str = "P\nset a 0 =5\nA\nincr a 1\nB\nincr a 1\n";

// How a script may end, and what may follow it.
static ENDS: &[(&str, &str)] = &[
    ("end\n", ""),
    ("end", ""),
    ("end\r\n", ""),
    ("\n# the end\n\t end \t\r\n", ""),
    ("end\n", "steps\nend\n"),
    ("end\n", "end\n"),
    ("end\n", "end"),
    ("end\n", "\n# what follows\n"),
    ("end\n", "script 1\n"),
    ("# end\n#end\nend\n", "P\nset b 0 =6\n"),
    ("end\r\n", "\r\n\x00\x7f"),
];

// Whether the script that ends the text's front has this length and is printed so.
fn is_front(alloc: Global, text: &str, size: usize, wanted: &str) -> Result<bool, Fail> {
    let front = again(|| parse_front(alloc, text.as_bytes()))?;
    is_read_as(alloc, &front, size, wanted)
}

fn is_read_as(
    alloc: Global,
    front: &(Script, usize),
    size: usize,
    wanted: &str,
) -> Result<bool, Fail> {
    let printed = text_of(alloc, &front.0, b"")?;
    Ok(front.1 == size && printed.as_slice() == wanted.as_bytes())
}

// Whether a script with this end is read up to there, where the others follow.
fn is_read_to_its_end(alloc: Global, end: &str, others: &str) -> Result<bool, Fail> {
    let wanted = format!(in alloc; "{HEAD}{SECTIONS}end\n")?;
    let text = format!(in alloc; "{HEAD}{SECTIONS}{end}{others}")?;
    let size = text.len().saturating_sub(others.len());
    is_front(alloc, &text, size, &wanted)
}

#[test]
fn reads_up_to_the_end(rt: HostRuntime) -> Result<(), Fail> {
    for (end, others) in ENDS {
        assert!(rt;
            is_read_to_its_end(rt.alloc(), end, others)?,
            "{end}{others}"
        );
    }
    Ok(())
}
