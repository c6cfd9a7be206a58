//! A history as operations in EDN, as Jepsen and Knossos read them.

use crate::printed::lines_in;
use mc_history::print_history;
use mc_model::History;
use mc_protocol::{OutOfMemory, Separator, append_all, is_word, read_decimal, words_in};
use std::alloc::Global;

// How many processes there may be: one for each number of a client.
const PROCESSES: usize = 64;

// A section of a history or a client of a timeline: a process of the operations.
#[derive(Drop)]
struct Process<'a> {
    number: usize,
    // The line of its request that has no reply yet.
    open: Option<&'a [u8]>,
}

/// Appends a line for each note of a history that keeps them, and then one for each request without a reply.
pub fn append_operations(
    alloc: Global,
    out: &mut Vec<u8>,
    history: &History,
) -> Result<(), OutOfMemory> {
    let mut text = Vec::new(alloc);
    print_history(history, &mut text)?;
    let lines = lines_in(alloc, text.as_slice())?;
    append_lines(alloc, out, lines.as_slice())
}

/// The same of the lines of a history or of a timeline, up to an order that it claims.
pub fn append_lines(alloc: Global, out: &mut Vec<u8>, lines: &[&[u8]]) -> Result<(), OutOfMemory> {
    let mut processes = Vec::new(alloc);
    'numbers: for number in 0..PROCESSES {
        processes.push(Process { number, open: None })?;
    }
    let mut count: usize = 0;
    'lines: for line in lines {
        if is_word(line, b"explain") {
            break;
        }
        if let Some(process) = processes.get_mut(process_of(line)) {
            append_note(alloc, out, count, process, line)?;
            count = count.saturating_add(1);
        }
    }
    'open: for process in &processes {
        if let Some(begin) = process.open {
            append_operation(alloc, out, count, process.number, "info", begin, b"")?;
            count = count.saturating_add(1);
        }
    }
    Ok(())
}

// The number of the process whose note the line is; none has that of another line.
fn process_of(line: &[u8]) -> usize {
    let word = match line.iter().position(|byte| *byte == b' ') {
        Some(place) => line.split_at(place.min(line.len())).0,
        None => line,
    };
    match word {
        b"P" => 0,
        b"A" => 1,
        b"B" => 2,
        _ => match read_decimal(PROCESSES as u64, word) {
            Ok(number) => number as usize,
            Err(_) => PROCESSES,
        },
    }
}

// Appends the operation of a begin or of a reply.
fn append_note<'a>(
    alloc: Global,
    out: &mut Vec<u8>,
    index: usize,
    process: &mut Process<'a>,
    line: &'a [u8],
) -> Result<(), OutOfMemory> {
    match process.open {
        Some(begin) => {
            process.open = None;
            append_operation(alloc, out, index, process.number, "ok", begin, line)
        }
        None => {
            process.open = Some(line);
            append_operation(alloc, out, index, process.number, "invoke", line, b"")
        }
    }
}

// Appends an operation: its values are the key, the arguments of the request, and the words of the reply if there is one.
fn append_operation(
    alloc: Global,
    out: &mut Vec<u8>,
    index: usize,
    process: usize,
    kind: &str,
    begin: &[u8],
    reply: &[u8],
) -> Result<(), OutOfMemory> {
    let begin = words_in(alloc, Separator::Space, begin)?;
    let reply = words_in(alloc, Separator::Space, reply)?;
    if let [_, _, verb, key, values @ ..] = begin.as_slice() {
        let head = format!(in alloc; "{{:process {process}, :type :{kind}, :f :")?;
        append_all(out, &[head.as_bytes(), verb, b", :value ["])?;
        append_string(out, key)?;
        append_values(out, values)?;
        if let [_, _, word, values @ ..] = reply.as_slice() {
            append_all(out, &[b" :", word])?;
            append_values(out, values)?;
        }
        let tail = format!(in alloc; "], :index {index}}}\n")?;
        out.extend_from_slice(tail.as_bytes())?;
    }
    Ok(())
}

// Appends decimals and bodies, each after a space.
fn append_values(out: &mut Vec<u8>, words: &[&[u8]]) -> Result<(), OutOfMemory> {
    'words: for word in words {
        out.push(b' ')?;
        match word {
            [b'=', body @ ..] => append_string(out, body)?,
            number => append_number(out, number)?,
        }
    }
    Ok(())
}

// Appends a number, with the mark of a large one if 63 bits don't hold it.
fn append_number(out: &mut Vec<u8>, number: &[u8]) -> Result<(), OutOfMemory> {
    out.extend_from_slice(number)?;
    if read_decimal(i64::MAX as u64, number).is_err() {
        out.push(b'N')?;
    }
    Ok(())
}

// Appends a string of printable ASCII.
fn append_string(out: &mut Vec<u8>, text: &[u8]) -> Result<(), OutOfMemory> {
    out.push(b'"')?;
    'bytes: for byte in text {
        if *byte == b'"' || *byte == b'\\' {
            out.push(b'\\')?;
        }
        out.push(*byte)?;
    }
    out.push(b'"')?;
    Ok(())
}
