//! The selftest.

use mc_answers::Writer;
use mc_command::run_selftest;
use std::alloc::Global;
use std::io::Eprint;
use std::net::{Net, TcpListener, TcpStream};
use std::rt::Clock;
use std::sync::Wait;
use std::thread::Threads;

#[test]
fn selftest_passes(rt: HostRuntime) {
    assert!(rt; passes(&rt, rt.alloc()));
}

// Whether it says that it passes, and ends with status 0.
fn passes<R>(rt: &R, alloc: Global) -> bool
where
    R: Net<Listener = TcpListener, Stream = TcpStream> + Threads + Wait + Clock + Sync + Eprint,
{
    let mut output = Vec::new(alloc);
    let status = run_selftest(rt, alloc, &mut Writer::new(&mut output));
    let expected = b"honest jobs 20 explained 20 unexplained 0 other 0\nracy unexplained\nok\n";
    status == 0 && output.as_slice() == expected.as_slice()
}
