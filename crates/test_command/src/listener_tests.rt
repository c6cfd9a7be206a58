//! `run` against a server in the same process, which answers three connections.

use crate::script::{SCRIPT, is_of_both};
use mc_answers::{Reader, Writer};
use mc_cli::Search;
use mc_command::run_command;
use std::alloc::Global;
use std::io::{Read, Write};
use std::net::{Net, TcpListener, TcpStream};
use std::rt::Clock;
use std::sync::Wait;
use std::test::Fail;
use std::thread::Threads;
use std::{io, thread};

#[test]
fn run_speaks_with_a_listener(rt: HostRuntime) -> Result<(), Fail> {
    let mut output = Vec::new(rt.alloc());
    let ended = run_at_listener(&rt, rt.alloc(), &mut output)?;
    assert_eq!(rt; ended, Some(0));
    assert!(rt; is_of_both(output.as_slice()));
    Ok(())
}

// The status of a run against the server below, and what it writes; or nothing where the server was asked for something else.
fn run_at_listener<R>(rt: &R, alloc: Global, output: &mut Vec<u8>) -> io::Result<Option<u8>>
where
    R: Net<Listener = TcpListener, Stream = TcpStream> + Threads + Wait + Clock + Sync,
{
    let listener = TcpListener::bind(rt, "127.0.0.1:0")?;
    let target = format!(in alloc; "127.0.0.1:{}", listener.local_addr()?.port())?;
    let server = &listener;
    Ok(thread::scope(thread::scope_env(), rt, move |scope| {
        let Ok(started) = scope.spawn(move || serve(server).is_ok()) else {
            return None;
        };
        let how = Search {
            limit: 1_000_000,
            why: false,
        };
        let mut input = Reader::new(SCRIPT.as_bytes());
        let mut output = Writer::new(output);
        let status = run_command(rt, alloc, target.as_str(), how, &mut input, &mut output);
        if started.join(rt) { Some(status) } else { None }
    }))
}

// Takes the connections of P, A and B and answers them, the branches once both of their requests have come.
fn serve(listener: &TcpListener) -> io::Result<()> {
    let (p, _) = listener.accept()?;
    let (a, _) = listener.accept()?;
    let (b, _) = listener.accept()?;
    expect_request(&p, b"delete a\r\n")?;
    (&mut &p).write_all(b"NOT_FOUND\r\n")?;
    expect_request(&p, b"set a 0 0 1\r\n5\r\n")?;
    (&mut &p).write_all(b"STORED\r\n")?;
    expect_request(&a, b"incr a 1\r\n")?;
    expect_request(&b, b"incr a 1\r\n")?;
    (&mut &a).write_all(b"6\r\n")?;
    (&mut &b).write_all(b"7\r\n")
}

// Reads these bytes, or fails.
fn expect_request(stream: &TcpStream, request: &[u8]) -> io::Result<()> {
    let mut read = [0; 32];
    let count = request.len().min(32);
    (&mut &*stream).read_exact(&mut read[..count])?;
    if read[..count].starts_with(request) {
        Ok(())
    } else {
        Err(io::Error::from(io::ErrorKind::InvalidData))
    }
}
