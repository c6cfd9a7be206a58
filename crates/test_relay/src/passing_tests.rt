//! What is handed on over streams in memory.
ghost use Rattle.std.specs.Prelude.{None};

use mc_lane::MemoryStream;
use mc_relay::{Ear, Passed, pass_on};
use std::alloc::{AllocError, Global};
use std::sync::Wait;
use std::test::Fail;

/// Counts what it hears, and tells none of it.
#[derive(Drop)]
struct Counting {
    bytes: usize,
}

impl Ear for Counting {
    ghost heard = { λ _. None };

    fn hear<R: Wait>(&mut self, _rt: &R, bytes: &[u8]) {
        self.bytes = self.bytes.saturating_add(bytes.len());
    }
}

/// What comes of handing these pieces on to a stream that takes two bytes at once, how many bytes were heard, and what was written.
/// Where `failing` is given, the write with this number fails, counted from 1.
fn handed<R: Wait>(
    rt: &R,
    alloc: Global,
    pieces: &[&[u8]],
    failing: Option<u64>,
) -> Result<(Passed, usize, Vec<u8>), AllocError> {
    let mut from = MemoryStream::new(alloc, pieces, 0)?;
    let mut to = MemoryStream::new(alloc, &[], 64)?.with_longest_write(2);
    if let Some(call) = failing {
        if 0 < call {
            to = to.with_failure_at(call);
        }
    }
    let mut ear = Counting { bytes: 0 };
    let passed = pass_on(rt, alloc, &mut from, &mut to, &mut ear);
    if passed == Passed::Memory {
        return Err(AllocError);
    }
    let written = Vec::from_slice(alloc, to.written_bytes())?;
    Ok((passed, ear.bytes, written))
}

#[test]
fn hands_all_on(rt: HostRuntime) -> Result<(), Fail> {
    let (passed, heard, written) = handed(
        &rt,
        rt.alloc(),
        &[b"get".as_slice(), b" a\r\n", b"\x00\xff"],
        None,
    )?;
    assert!(rt;
        passed == Passed::Ended
            && heard == 9
            && written.as_slice() == b"get a\r\n\x00\xff".as_slice()
    );
    Ok(())
}

#[test]
fn stops_at_a_write_that_fails(rt: HostRuntime) -> Result<(), Fail> {
    let (passed, heard, written) = handed(
        &rt,
        rt.alloc(),
        &[b"get".as_slice(), b" a\r\n", b"more"],
        Some(3),
    )?;
    assert!(rt;
        passed == Passed::WriteFailed && heard == 7 && written.as_slice() == b"get".as_slice()
    );
    Ok(())
}
