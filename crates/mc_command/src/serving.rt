//! The command `serve`, over any stream for output.
ghost use Rattle.std.specs.Prelude.{◌≡◌, ◌<◌, IfOk};
ghost use Rattle.mc_answers.specs.Writing.{WritesRightly};
ghost use Rattle.mc_command.specs.ServeAnswers as answers;

use mc_answers::{InputFault, Sink, Status, write_fault, write_text};
use mc_cli::ServeArgs;
use mc_server::{Caller, FreeBetween, Listened, Racy, Shared, listen};
use std::alloc::{AllocError, Global};
use std::io;
use std::net::{Ipv4Addr, Net, SocketAddr, TcpListener, TcpStream};
use std::rt::Clock;
use std::sync::Wait;
use std::thread::Threads;

// What is written where the port can't be opened.
const NO_LISTENER: &[u8] = b"no listener\n";

/// What standard error is to say beside the answer of `serve`.
#[derive(Drop)]
pub enum Told {
    /// Nothing.
    Nothing,
    /// Why there is no listener.
    NoListener(io::Error),
    /// What came of the connections.
    Connections(Listened),
}

/// Serves the connections that `service` asks for, and answers the exit status, and what standard error is to say beside the answer. It
/// waits for the clients.
pub fn serve_connections<R, O: Sink>(
    rt: &R,
    alloc: Global,
    service: ServeArgs,
    output: &mut O,
) -> (Status, Told)
where
    R: Net<Listener = TcpListener, Stream = TcpStream> + Threads + Wait + Clock + Sync,
    ensures { WritesRightly O.written O.has_failed (answers.Serves service) output.old output.new result.0 }
{
    let (listener, port) = match listen_at(rt, service.port) {
        Ok(found) => found,
        Err(error) => {
            let status = write_text(NO_LISTENER, Status::NoAnswer, output);
            return (status, Told::NoListener(error));
        }
    };
    if service.racy {
        match Racy::new(alloc, FreeBetween) {
            Ok(racy) => serve_all(rt, alloc, service, &listener, port, &racy, output),
            Err(_) => (write_fault(InputFault::OutOfMemory, output), Told::Nothing),
        }
    } else {
        match Shared::new(alloc) {
            Ok(shared) => serve_all(rt, alloc, service, &listener, port, &shared, output),
            Err(_) => (write_fault(InputFault::OutOfMemory, output), Told::Nothing),
        }
    }
}

// A listener at the port of 127.0.0.1, or at a free one where it is 0, and its port.
fn listen_at<R: Net<Listener = TcpListener, Stream = TcpStream>>(
    rt: &R,
    asked: u16,
) -> io::Result<(TcpListener, u16)>
    ensures { IfOk result (λ found. answers.IsPortOf asked found.1) }
{
    let listener = TcpListener::bind(rt, SocketAddr::from((Ipv4Addr::LOCALHOST, asked)))?;
    if asked > 0 {
        return Ok((listener, asked));
    }
    let address = listener.local_addr()?;
    Ok((listener, address.port()))
}

// Says where it listens, and serves as many connections as were asked for.
fn serve_all<R, C: Caller, O: Sink>(
    rt: &R,
    alloc: Global,
    service: ServeArgs,
    listener: &TcpListener,
    port: u16,
    caller: &C,
    output: &mut O,
) -> (Status, Told)
where
    R: Threads + Wait + Clock + Sync,
    requires { answers.IsPortOf service.port port }
    ensures { WritesRightly O.written O.has_failed (answers.Serves service) output.old output.new result.0 }
{
    let Ok(text) = listening_text(alloc, port) else {
        return (write_fault(InputFault::OutOfMemory, output), Told::Nothing);
    };
    let Ok(()) = output.write_all(text.as_slice()) else {
        return (Status::NoAnswer, Told::Nothing);
    };
    let listened = listen(rt, alloc, listener, caller, service.connections);
    let status = status_of(service.connections, listened);
    (status, Told::Connections(listened))
}

fn listening_text(alloc: Global, port: u16) -> Result<Vec<u8>, AllocError>
    ensures { IfOk result (λ text. text.items ≡ answers.listening_text port) }
{
    Ok(format!(in alloc; "listening 127.0.0.1:{port}\n")?.into_bytes())
}

fn status_of(connections: u64, listened: Listened) -> Status
    ensures { result ≡ answers.status_of connections listened }
{
    if listened.accepted == connections {
        Status::Success
    } else {
        Status::NoAnswer
    }
}
