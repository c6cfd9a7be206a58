//! The version that is printed of a script, and its flags. Which scripts the versions have room for is shown by
//! `cases/asm/versions.cases`.

use crate::printed::is_printed_as;
use mc_protocol::OutOfMemory;
use mc_script::Version;
use std::alloc::Global;
use std::test::Fail;

// How many flags a script has, how many steps P, A and B have, and the version that is printed of it.
static PRINTED: [(usize, [usize; 3], Version); 6] = [
    (32, [64, 64, 64], Version::One),
    (33, [0, 0, 0], Version::Two),
    (0, [65, 0, 0], Version::Two),
    (0, [0, 65, 0], Version::Two),
    (32, [0, 0, 65], Version::Two),
    (64, [128, 128, 128], Version::Two),
];

// Marks of the first, the 32nd, the 33rd and the last flag.
static MARKED: &str = "get a ?f0 ?f31 ?f32 ?f63
get a !f0 !f31 !f32 !f63
get a +f0 +f31 +f32 +f63
get a -f0 -f31 -f32 -f63
get a ?f63 !f31 +f0 -f32
";

// The first lines of a text of this version, with this number of flags.
fn head_of(alloc: Global, version: &str, flags: usize) -> Result<String, Fail> {
    let mut head = format!(in alloc; "script {version}\nkeys a\n")?;
    if flags > 0 {
        head.push_str("flags")?;
        push_flags(alloc, &mut head, flags)?;
        head.push_str("\n")?;
    }
    head.push_str("budget P 1 10\nbudget A 0 0\nbudget B 0 0\n")?;
    Ok(head)
}

fn push_flags(alloc: Global, line: &mut String, count: usize) -> Result<(), Fail> {
    for flag in 0..count {
        let word = format!(in alloc; " f{flag}")?;
        line.push_str(&word)?;
    }
    Ok(())
}

fn push_sections(text: &mut String, steps: &[usize; 3]) -> Result<(), OutOfMemory> {
    for (name, count) in ["P\n", "A\n", "B\n"].iter().zip(steps) {
        text.push_str(name)?;
        push_halts(text, *count)?;
    }
    text.push_str("end\n")
}

fn push_halts(text: &mut String, count: usize) -> Result<(), OutOfMemory> {
    for _ in 0..count {
        text.push_str("halt\n")?;
    }
    Ok(())
}

fn text_of(alloc: Global, version: &str, flags: usize, steps: &[usize; 3]) -> Result<String, Fail> {
    let mut text = head_of(alloc, version, flags)?;
    push_sections(&mut text, steps)?;
    Ok(text)
}

fn is_printed_in(
    alloc: Global,
    flags: usize,
    steps: &[usize; 3],
    version: Version,
) -> Result<bool, Fail> {
    let text = text_of(alloc, "2", flags, steps)?;
    let wanted = text_of(alloc, version.word(), flags, steps)?;
    is_printed_as(alloc, &text, &wanted)
}

#[test]
fn prints_the_least_version(rt: HostRuntime) -> Result<(), Fail> {
    for (flags, steps, version) in &PRINTED {
        assert!(rt;
            is_printed_in(rt.alloc(), *flags, steps, *version)?,
            "{flags} flags, {steps:?} steps"
        );
    }
    Ok(())
}

fn are_marks_printed(alloc: Global) -> Result<bool, Fail> {
    let head = head_of(alloc, "2", 64)?;
    let text = format!(in alloc; "{head}P\nA\n{MARKED}B\nend\n")?;
    is_printed_as(alloc, &text, &text)
}

#[test]
fn prints_each_flag(rt: HostRuntime) -> Result<(), Fail> {
    assert!(rt; are_marks_printed(rt.alloc())?);
    Ok(())
}
