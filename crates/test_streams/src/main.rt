//! Writes what the reader of requests asks of the bytes on standard input, and compares it however these bytes are cut.
#![tactic(auto)]

mod asks;
mod cuts;
mod text;

use asks::asks_in_pieces;
use cuts::Cuts;
use std::alloc::{AllocError, Global};
use std::io;
use std::io::{Read, Write};

// The most bytes of the drawn pieces.
const MOST: [usize; 7] = [1, 2, 3, 17, 300, 2_100, 70_000];

/// What is asked of the stream in one piece, and the first greatest length of pieces by which another thing is asked.
fn compare(alloc: Global, stream: &[u8]) -> Result<(Vec<u8>, Option<usize>), AllocError> {
    let whole = asks_in_pieces(alloc, stream, Cuts::whole())?;
    for most in MOST {
        if asks_in_pieces(alloc, stream, Cuts::new(most))? != whole {
            return Ok((whole, Some(most)));
        }
    }
    Ok((whole, None))
}

fn main(rt: HostRuntime) -> io::Result<()> {
    let mut stream = Vec::new(rt.alloc());
    rt.reader().read_to_end(&mut stream)?;
    let (asks, other) = compare(rt.alloc(), stream.as_slice())?;
    rt.stdout().write_all(asks.as_slice())?;
    match other {
        Some(most) => println!(rt; "another in pieces of at most {most} bytes"),
        None => println!(rt; "the same in pieces"),
    }
}
