//! What a line asks that is no request of one key with one reply.
use crate::frames::Frame;
use mc_protocol::{Bytes, OutOfMemory, Separator, read_decimal, words_in};
use std::alloc::Global;

/// The most bytes of the block after a line `ms`.
const BLOCK_LIMIT: u64 = 1_073_741_824;

/// What becomes of keys.
#[derive(Debug, Drop)]
pub(crate) enum Effect {
    /// Nothing.
    Nothing,
    /// The timelines of these keys end.
    Ends(Vec<Bytes>),
    /// All timelines end.
    EndsAll,
    /// It isn't understood, so nothing is known of what it does, or of what comes after it.
    Unknown,
}

/// What a line asks.
#[derive(Debug, Drop)]
pub(crate) struct Aside {
    pub(crate) effect: Effect,
    /// How its reply is made.
    pub(crate) frame: Frame,
    /// How many bytes after the line belong to it.
    pub(crate) block: u64,
}

// What a command is, by its word.
#[derive(Clone, Copy)]
enum Command {
    // The reply has many lines, and the command changes no item.
    Lists,
    // The reply has one line, and the command changes no item.
    Tells,
    // It changes all items.
    Flushes,
    // It has a time of expiry, and then keys.
    Fetches,
    // It has one key, and a reply of its own form.
    Meta,
    // The same, with a block after the line.
    MetaStores,
    // It has one key, and a reply of one line.
    Stores,
    // Another one.
    Unknown,
}

static COMMANDS: [(&[u8], Command); 20] = [
    (b"stats", Command::Lists),
    (b"version", Command::Tells),
    (b"verbosity", Command::Tells),
    (b"mn", Command::Tells),
    (b"flush_all", Command::Flushes),
    (b"gat", Command::Fetches),
    (b"gats", Command::Fetches),
    (b"mg", Command::Meta),
    (b"md", Command::Meta),
    (b"ma", Command::Meta),
    (b"ms", Command::MetaStores),
    (b"set", Command::Stores),
    (b"add", Command::Stores),
    (b"replace", Command::Stores),
    (b"append", Command::Stores),
    (b"prepend", Command::Stores),
    (b"cas", Command::Stores),
    (b"touch", Command::Stores),
    (b"quit", Command::Unknown),
    (b"shutdown", Command::Unknown),
];

/// What the line asks, which may end in CR. A request that the reader of requests has refused for its time of expiry or for its
/// length is one that stores.
pub(crate) fn read_aside(alloc: Global, line: &[u8]) -> Result<Aside, OutOfMemory> {
    let text = match line {
        [text @ .., b'\r'] => text,
        _ => line,
    };
    let words = words_in(alloc, Separator::Space, text)?;
    match words.as_slice() {
        [first, others @ ..] => aside_of(alloc, command_of(first), others),
        [] => Ok(unknown()),
    }
}

fn command_of(word: &[u8]) -> Command {
    for (name, command) in &COMMANDS {
        if *name == word {
            return *command;
        }
    }
    Command::Unknown
}

fn unknown() -> Aside {
    Aside {
        effect: Effect::Unknown,
        frame: Frame::Silent,
        block: 0,
    }
}

fn aside_of(alloc: Global, command: Command, words: &[&[u8]]) -> Result<Aside, OutOfMemory> {
    match command {
        Command::Lists => Ok(without_effect(Frame::Lines)),
        Command::Tells => Ok(without_effect(line_unless_noreply(words))),
        Command::Flushes => Ok(flush(words)),
        Command::Fetches => fetch(alloc, words),
        Command::Meta => meta(alloc, words),
        Command::MetaStores => meta_store(alloc, words),
        Command::Stores => store(alloc, words),
        Command::Unknown => Ok(unknown()),
    }
}

fn without_effect(frame: Frame) -> Aside {
    Aside {
        effect: Effect::Nothing,
        frame,
        block: 0,
    }
}

// One line, or none if the last word says so.
fn line_unless_noreply(words: &[&[u8]]) -> Frame {
    match words {
        [.., last] if *last == b"noreply".as_slice() => Frame::Silent,
        _ => Frame::Line,
    }
}

// With a delay it would change items later, at a time that isn't seen.
fn flush(words: &[&[u8]]) -> Aside {
    let is_now = match words {
        [] => true,
        [first] | [first, _] => *first == b"0".as_slice() || *first == b"noreply".as_slice(),
        _ => false,
    };
    if !is_now {
        return unknown();
    }
    Aside {
        effect: Effect::EndsAll,
        frame: line_unless_noreply(words),
        block: 0,
    }
}

fn fetch(alloc: Global, words: &[&[u8]]) -> Result<Aside, OutOfMemory> {
    let [_time, keys @ ..] = words else {
        return Ok(unknown());
    };
    let mut ended = Vec::new(alloc);
    for key in keys {
        ended.push(Bytes::new(Vec::from_slice(alloc, key)?))?;
    }
    Ok(Aside {
        effect: Effect::Ends(ended),
        frame: Frame::Items,
        block: 0,
    })
}

fn store(alloc: Global, words: &[&[u8]]) -> Result<Aside, OutOfMemory> {
    let [key, ..] = words else {
        return Ok(unknown());
    };
    ending_one(alloc, key, line_unless_noreply(words), 0)
}

// A flag `q` may leave the reply out, and with a flag `b` the key is written in another form.
fn meta(alloc: Global, words: &[&[u8]]) -> Result<Aside, OutOfMemory> {
    let [key, flags @ ..] = words else {
        return Ok(unknown());
    };
    if has_other_form(flags) {
        return Ok(unknown());
    }
    ending_one(alloc, key, Frame::Meta, 0)
}

fn meta_store(alloc: Global, words: &[&[u8]]) -> Result<Aside, OutOfMemory> {
    let [key, len, flags @ ..] = words else {
        return Ok(unknown());
    };
    match read_decimal(BLOCK_LIMIT, len) {
        Ok(len) if !has_other_form(flags) => {
            ending_one(alloc, key, Frame::Meta, len.saturating_add(2))
        }
        _ => Ok(unknown()),
    }
}

fn has_other_form(flags: &[&[u8]]) -> bool {
    flags.iter().any(|flag| *flag == b"q".as_slice() || *flag == b"b".as_slice())
}

fn ending_one(alloc: Global, key: &[u8], frame: Frame, block: u64) -> Result<Aside, OutOfMemory> {
    let mut ended = Vec::new(alloc);
    ended.push(Bytes::new(Vec::from_slice(alloc, key)?))?;
    Ok(Aside {
        effect: Effect::Ends(ended),
        frame,
        block,
    })
}
