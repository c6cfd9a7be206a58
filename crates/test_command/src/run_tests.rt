//! `run` where there is no server, or none is named.

use crate::script::SCRIPT;
use mc_answers::{Reader, Writer};
use mc_cli::Search;
use mc_command::run_command;
use std::alloc::Global;
use std::io;
use std::net::{Net, TcpListener, TcpStream};
use std::rt::Clock;
use std::sync::Wait;
use std::test::Fail;
use std::thread::Threads;

#[test]
fn run_needs_a_server(rt: HostRuntime) {
    assert!(rt; is_unconnected(&rt, rt.alloc()));
}

// Whether a run at port 0, to which nothing connects, writes that P has no connection, and ends with status 4.
fn is_unconnected<R>(rt: &R, alloc: Global) -> bool
where
    R: Net<Stream = TcpStream> + Threads + Wait + Clock + Sync,
{
    has_no_connection(rt, alloc, "127.0.0.1:0")
}

#[test]
fn a_port_has_no_sign(rt: HostRuntime) -> Result<(), Fail> {
    assert!(rt; is_no_port(&rt, rt.alloc())?);
    Ok(())
}

// Whether nothing connects to a listener whose port has a sign before it.
fn is_no_port<R>(rt: &R, alloc: Global) -> io::Result<bool>
where
    R: Net<Listener = TcpListener, Stream = TcpStream> + Threads + Wait + Clock + Sync,
{
    let listener = TcpListener::bind(rt, "127.0.0.1:0")?;
    let target = format!(in alloc; "127.0.0.1:+{}", listener.local_addr()?.port())?;
    listener.set_nonblocking(true)?;
    let has_none = has_no_connection(rt, alloc, target.as_str());
    Ok(has_none && listener.accept().is_err())
}

// Whether a run at this server writes that P has no connection, and ends with status 4.
fn has_no_connection<R>(rt: &R, alloc: Global, server: &str) -> bool
where
    R: Net<Stream = TcpStream> + Threads + Wait + Clock + Sync,
{
    let mut output = Vec::new(alloc);
    let status = run_command(
        rt,
        alloc,
        server,
        Search {
            limit: 1_000,
            why: false,
        },
        &mut Reader::new(SCRIPT.as_bytes()),
        &mut Writer::new(&mut output),
    );
    status == 4 && output.as_slice() == b"no connection P\n".as_slice()
}
