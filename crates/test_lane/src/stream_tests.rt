//! What streams give and take.

use mc_lane::{Broken, MemoryStream, Stream, Wire};
use mc_protocol::OutOfMemory;
use std::alloc::{AllocError, Global};
use std::collections::VecDeque;
use std::io;
use std::io::{Read, Write};
use std::test::Fail;

// Three reads of up to two bytes each: what they answer, and the buffer after each; and what a fourth one answers.
type Reads = ([(Result<usize, Broken>, [u8; 2]); 3], Result<usize, Broken>);

fn reads(alloc: Global, pieces: &[&[u8]]) -> Result<Reads, OutOfMemory> {
    let mut stream = MemoryStream::new(alloc, pieces, 0)?;
    let mut buffer = [0; 2];
    let reads = [
        (stream.read(&mut buffer), buffer),
        (stream.read(&mut buffer), buffer),
        (stream.read(&mut buffer), buffer),
    ];
    Ok((reads, stream.read(&mut buffer)))
}

#[test]
fn gives_piece_by_piece(rt: HostRuntime) -> Result<(), Fail> {
    assert_eq!(rt;
        reads(rt.alloc(), &[b"ab", b"", b"cde"])?,
        ([(Ok(2), *b"ab"), (Ok(2), *b"cd"), (Ok(1), *b"ed")], Ok(0))
    );
    Ok(())
}

// Whether a stream that takes three bytes at a time, and five in all, does so.
fn is_taken(alloc: Global) -> Result<bool, OutOfMemory> {
    let mut stream = MemoryStream::new(alloc, &[], 5)?.with_longest_write(3);
    let writes = [
        stream.write(b"abcd"),
        stream.write(b""),
        stream.write(b"defg"),
        stream.write(b"f"),
    ];
    Ok(
        writes == [Ok(3), Ok(0), Ok(2), Err(Broken)]
            && stream.written_bytes() == b"abcde".as_slice(),
    )
}

#[test]
fn takes_what_it_has_room_for(rt: HostRuntime) -> Result<(), Fail> {
    assert!(rt; is_taken(rt.alloc())?);
    Ok(())
}

// Whether a stream whose second call fails takes and gives bytes before it and after it.
fn is_broken_once(alloc: Global) -> Result<bool, OutOfMemory> {
    let mut stream = MemoryStream::new(alloc, &[b"a"], 5)?.with_failure_at(2);
    let mut buffer = [0; 2];
    let calls = [
        stream.write(b"x"),
        stream.read(&mut buffer),
        stream.write(b"y"),
        stream.read(&mut buffer),
    ];
    Ok(calls == [Ok(1), Err(Broken), Ok(1), Ok(1)] && stream.written_bytes() == b"xy".as_slice())
}

#[test]
fn fails_at_one_call(rt: HostRuntime) -> Result<(), Fail> {
    assert!(rt; is_broken_once(rt.alloc())?);
    Ok(())
}

// Whether what is written to a queue of std is read from it.
fn is_carried(alloc: Global) -> Result<bool, AllocError> {
    // there is room, so that no write is broken for want of memory
    let mut wire = Wire::new(VecDeque::with_capacity(alloc, 3)?);
    let mut buffer = [0; 4];
    let calls = [wire.write(b"abc"), wire.read(&mut buffer)];
    let carried = buffer;
    Ok(calls == [Ok(3), Ok(3)] && carried == *b"abc\0" && wire.read(&mut buffer) == Ok(0))
}

#[test]
fn carries_bytes_of_std(rt: HostRuntime) -> Result<(), Fail> {
    assert!(rt; is_carried(rt.alloc())?);
    Ok(())
}

// A writer that takes nothing, and a reader that was interrupted.
#[derive(Drop)]
struct Stuck;

impl Read for Stuck {
    fn read(&mut self, _buffer: &mut [u8]) -> io::Result<usize> {
        Err(io::Error::from(io::ErrorKind::Interrupted))
    }
}

impl Write for Stuck {
    fn write(&mut self, _bytes: &[u8]) -> io::Result<usize> {
        Ok(0)
    }

    fn flush(&mut self) -> io::Result<()> {
        Ok(())
    }
}

// What two writes and a read answer.
fn calls_of_stuck() -> [Result<usize, Broken>; 3] {
    let mut wire = Wire::new(Stuck);
    let mut buffer = [0; 4];
    [wire.write(b"abc"), wire.write(b""), wire.read(&mut buffer)]
}

#[test]
fn is_broken_where_nothing_is_taken(rt: HostRuntime) {
    assert_eq!(rt; calls_of_stuck(), [Err(Broken), Ok(0), Err(Broken)]);
}
