//! What is handed on of one connection, by two threads.
use crate::client_ear::ClientEar;
use crate::open_streams::Ends;
use crate::server_ear::ServerEar;
use crate::shared::Shared;
use mc_lane::Wire;
use mc_relay::pass_on;
use std::alloc::Global;
use std::io::ErrorKind;
use std::net::{Net, Shutdown, TcpStream, ToSocketAddrs};
use std::sync::Wait;
use std::thread::{Builder, Scope, Threads};
use std::{io, thread};

/// How many bytes the stack of a connection's thread has.
pub(crate) const STACK_BYTES: usize = 262_144;

/// Hands on what a client and the server say, until both directions have ended.
pub(crate) fn carry<R>(rt: &R, alloc: Global, shared: &Shared<'_>, number: u8, client: TcpStream)
where
    R: Net<Stream = TcpStream> + Threads + Wait + Sync,
{
    match connect(rt, shared.recording.server) {
        Ok(server) => hand_on(rt, alloc, shared, number, &client, &server),
        Err(error) => {
            let mut news = shared.news.lock(rt);
            if !news.has_unreached {
                news.has_unreached = true;
                news.unreached = Some(error);
            }
        }
    }
    shared.notebook.lock(rt).close(number);
}

// Hands on both ways, each by a thread.
fn hand_on<R>(
    rt: &R,
    alloc: Global,
    shared: &Shared<'_>,
    number: u8,
    client: &TcpStream,
    server: &TcpStream,
)
where
    R: Threads + Wait + Sync,
{
    let (Ok(near), Ok(far)) = (client.try_clone(), server.try_clone()) else {
        return;
    };
    let ends = Ends {
        client: near,
        server: far,
    };
    shared.streams.lock(rt).put(number, ends);
    thread::scope(thread::scope_env(), rt, |scope| {
        ask_and_answer(rt, alloc, shared, number, client, server, scope)
    });
    shared.streams.lock(rt).remove(number);
}

// Hands on what the server says, and by another thread what the client says. If there is none, nothing is handed on.
fn ask_and_answer<'s, E, R: Wait + Sync>(
    rt: &'s R,
    alloc: Global,
    shared: &'s Shared<'s>,
    number: u8,
    client: &'s TcpStream,
    server: &'s TcpStream,
    scope: &Scope<'s, E>,
) {
    let asking = move || ask(rt, alloc, shared, number, client, server);
    match Builder::new()
        .stack_size(STACK_BYTES)
        .spawn_scoped(scope, asking)
    {
        Ok(_handle) => answer(rt, alloc, shared, number, client, server),
        Err(_) => {
            let _ = client.shutdown(Shutdown::Both);
        }
    }
}

// Hands on what the client says, and then says to the server that nothing more comes.
fn ask<R: Wait>(
    rt: &R,
    alloc: Global,
    shared: &Shared<'_>,
    number: u8,
    client: &TcpStream,
    server: &TcpStream,
) {
    let mut ear = ClientEar::new(alloc, &shared.notebook, number);
    let _ = pass_on(
        rt,
        alloc,
        &mut Wire::new(client),
        &mut Wire::new(server),
        &mut ear,
    );
    let _ = server.shutdown(Shutdown::Write);
}

// Hands on what the server says, and then closes the connection of the client.
fn answer<R: Wait>(
    rt: &R,
    alloc: Global,
    shared: &Shared<'_>,
    number: u8,
    client: &TcpStream,
    server: &TcpStream,
) {
    let mut ear = ServerEar::new(alloc, &shared.notebook, number);
    let _ = pass_on(
        rt,
        alloc,
        &mut Wire::new(server),
        &mut Wire::new(client),
        &mut ear,
    );
    let _ = client.shutdown(Shutdown::Both);
    let _ = server.shutdown(Shutdown::Both);
}

// A connection to the first of the server's addresses that takes one.
fn connect<R: Net<Stream = TcpStream>>(rt: &R, server: &str) -> io::Result<TcpStream> {
    let mut last = io::Error::from(ErrorKind::InvalidInput);
    for address in server.to_socket_addrs(rt)? {
        match TcpStream::connect(rt, address) {
            Ok(stream) => {
                stream.set_nodelay(true)?;
                return Ok(stream);
            }
            Err(error) => last = error,
        }
    }
    Err(last)
}
