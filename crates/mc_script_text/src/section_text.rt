//! Reads the lines of a section.

ghost use Rattle.std.specs.Prelude.{◌≡◌, [], Some, None, IfOk, MatchOption, nat_lt};
ghost use Rattle.mc_script_text.specs.Reading as reading;
ghost use Rattle.mc_script.specs.Versions.{steps_limit};

use crate::entry::Entry;
use crate::lines::next_due;
use crate::read_entry::{before_colon, due, read_label, read_step};
use crate::word_fault::WordFault;
use crate::{Expected, ScriptFault, ScriptKind, Sort};
use mc_protocol::{NameSet, WordLine, WordLines};
use mc_script::{Names, Version};
use std::alloc::Global;
use std::marker::Model;

/// A line of a section that was read, with its number. Contracts see the entry.
#[derive(Drop)]
pub(crate) struct Numbered {
    pub(crate) line: u32,
    pub(crate) entry: Entry,
}

impl Model for Numbered {
    ghost use Rattle.mc_script_text.specs.declared.entry.Entry.{Entry};

    ghost Value = { Entry };

    ghost view = { λ n. n.entry };
}

/// Reads the lines of a section of a text of this version, and takes the line after them, which is the word `stop` alone.
pub(crate) fn read_section<'a>(
    alloc: Global,
    version: Version,
    names: &Names,
    lines: &mut WordLines<'a>,
    stop: &[u8],
) -> Result<Vec<Numbered>, ScriptFault>
    ensures { reading.Says (λ entries. (entries.items, lines.new.words)) result
        (reading.entries_in (steps_limit version) names.now stop.now [] 0 [] lines.old.words) }
{
    let mut entries = Vec::new(alloc);
    let mut count = 0;
    let mut labels = NameSet::new(alloc);
    'lines: loop {
        let line = next_due(alloc, lines, ScriptKind::Unended, due(stop))?;
        if line.is_only(stop) {
            return Ok(entries);
        }
        let read = read_numbered(alloc, version, names, count, &mut labels, stop, &line)?;
        count += step_count(&read.entry);
        entries.push(read)?;
    }
}

/// Reads a line as `read_line` does, with its number.
fn read_numbered<'a>(
    alloc: Global,
    version: Version,
    names: &Names,
    count: usize,
    labels: &mut NameSet<'a>,
    stop: &[u8],
    line: &WordLine<'a>,
) -> Result<Numbered, ScriptFault>
    ensures entry { reading.Says (λ read. read) result
        (reading.following (steps_limit version) count labels.old (reading.entry_in names.now line.now.words)) }
    ensures labels { IfOk result (λ read. labels.new ≡ reading.with_label labels.old read) }
{
    match read_line(alloc, version, names, count, labels, stop, line) {
        Ok(entry) => Ok(Numbered {
            line: line.number(),
            entry,
        }),
        Err(fault) => Err(fault.on(line.number())),
    }
}

/// Reads a line after `count` steps and these labels, in a section that the word `stop` ends. The name of a label is added
/// to them.
fn read_line<'a>(
    alloc: Global,
    version: Version,
    names: &Names,
    count: usize,
    labels: &mut NameSet<'a>,
    stop: &[u8],
    line: &WordLine<'a>,
) -> Result<Entry, WordFault>
    ensures entry { reading.Gives result
        (reading.following (steps_limit version) count labels.old (reading.entry_in names.now line.now.words)) }
    ensures labels { IfOk result (λ entry. labels.new ≡ reading.with_label labels.old entry) }
{
    let Some(name) = label_in(line) else {
        return read_step(alloc, names, has_room(version, count), stop, line.words());
    };
    let label = read_label(alloc, name)?;
    if labels.has(name) {
        let expected = Expected::NewName(Sort::Label);
        return Err(WordFault::new(ScriptKind::Duplicate, 0, expected));
    }
    labels.push(name)?;
    Ok(label)
}

fn step_count(entry: &Entry) -> usize
    ensures { result ≡ reading.step_count entry.now }
{
    match entry {
        Entry::Label(_) => 0,
        _ => 1,
    }
}

/// Whether a step may stand after `count` others in a text of this version.
fn has_room(version: Version, count: usize) -> bool
    ensures { result ≡ nat_lt count (steps_limit version) }
{
    count < version.steps_limit()
}

/// The name of the label that the line is, if it is one.
fn label_in<'a>(line: &WordLine<'a>) -> Option<&'a [u8]>
    ensures { MatchOption result (reading.label_of line.now.words ≡ None) (λ name. reading.label_of line.now.words ≡ Some name.now) }
{
    match line.words() {
        [word] => before_colon(*word),
        _ => None,
    }
}
