//! Connections of a campaign's jobs, at listeners in the same process.

use mc_connect::{Dialer, Servers, Socket};
use mc_protocol::{Actor, Sections};
use std::alloc::Global;
use std::io::{Eprint, ErrorKind, Read, Write};
use std::net::{Net, TcpListener, TcpStream};
use std::rt::Clock;
use std::sync::Wait;
use std::thread::sleep;
use std::time::Duration;

// Within so many milliseconds what one side sends or ends is there for the other one.
const SOON: u64 = 50;

// What a server does with a connection between two jobs.
#[derive(Clone, Copy)]
enum Deed {
    Nothing,
    End,
    Talk,
}

// What a server does with two of three connections, whether each job is to have new ones, and how many the second job makes.
static BETWEEN: [(Deed, bool, usize); 4] = [
    (Deed::Nothing, false, 0),
    (Deed::End, false, 2),
    (Deed::Talk, false, 2),
    (Deed::Nothing, true, 3),
];

#[test]
fn connections_serve_later_jobs(rt: HostRuntime) {
    for (deed, reconnects, made) in BETWEEN {
        let found = with_dialer(&rt, rt.alloc(), reconnects, Look::After(deed));
        assert_eq!(rt; found, Some([3, made, 0]));
    }
}

// A connection that another section had in the job before serves it, if both have one server: P has A's, A B's, and B P's.
#[test]
fn sections_of_one_server_take_turns(rt: HostRuntime) {
    let found = with_dialer(&rt, rt.alloc(), false, Look::Turns);
    assert_eq!(rt; found, Some([1, 2, 0]));
}

// No byte comes in time to the first job: that is known of this one, and not of the next one, which has the same connections.
#[test]
fn errors_are_those_of_the_job(rt: HostRuntime) {
    let found = with_dialer(&rt, rt.alloc(), false, Look::Errors);
    assert_eq!(rt; found, Some([1, 0, 0]));
}

// At the end the server is asked to close what is kept, and a later job gets none of it.
#[test]
fn kept_connections_end(rt: HostRuntime) {
    let found = with_dialer(&rt, rt.alloc(), false, Look::Quit);
    assert_eq!(rt; found, Some([3, 3, 3]));
}

// A branch with a server of its own keeps that one's connection, and the other two share two.
#[test]
fn a_branch_keeps_its_own_server(rt: HostRuntime) {
    assert_eq!(rt; with_two_servers(&rt, rt.alloc()), Some([2, 1, 1]));
}

// What is looked at.
#[derive(Clone, Copy)]
enum Look {
    After(Deed),
    Turns,
    Errors,
    Quit,
}

// What is found at a listener and a dialer for it.
fn with_dialer<R>(rt: &R, alloc: Global, reconnects: bool, look: Look) -> Option<[usize; 3]>
where
    R: Net<Listener = TcpListener, Stream = TcpStream> + Clock + Wait + Eprint,
{
    let listener = listener(rt)?;
    let server = address(alloc, &listener)?;
    let timeout = Some(Duration::from_millis(1));
    let servers = Servers::one(server.as_str(), timeout, None);
    let dialer = Dialer::new(rt, alloc, servers, reconnects, "");
    match look {
        Look::After(deed) => after(rt, alloc, &listener, &dialer, deed),
        Look::Turns => turns(rt, alloc, &listener, &dialer),
        Look::Errors => errors(&dialer),
        Look::Quit => quit(alloc, &listener, &dialer),
    }
}

// How many connections the first job makes, and the second one.
fn after<R>(
    rt: &R,
    alloc: Global,
    listener: &TcpListener,
    dialer: &Dialer<'_, R>,
    deed: Deed,
) -> Option<[usize; 3]>
where
    R: Net<Listener = TcpListener, Stream = TcpStream> + Clock + Wait + Eprint,
{
    dialer.release(connected(dialer, 0));
    let mut ends = accepted(alloc, listener)?;
    let first = ends.len();
    let (last, before) = (ends.pop(), ends.pop());
    let _kept_open = (act(deed, last), act(deed, before));
    sleep(rt, Duration::from_millis(SOON));
    dialer.release(connected(dialer, 1));
    let second = accepted(alloc, listener)?.len();
    Some([first, second, 0])
}

// Does this with the connection, and hands it back if it is still open.
fn act(deed: Deed, stream: Option<TcpStream>) -> Option<TcpStream> {
    let mut stream = stream?;
    match deed {
        Deed::Nothing => Some(stream),
        Deed::End => None,
        Deed::Talk => {
            let _ = stream.write_all(b"STORED\r\n");
            Some(stream)
        }
    }
}

// Which of the first job's connections P, A and B have in the second one, by their places.
fn turns<R>(
    rt: &R,
    alloc: Global,
    listener: &TcpListener,
    dialer: &Dialer<'_, R>,
) -> Option<[usize; 3]>
where
    R: Net<Listener = TcpListener, Stream = TcpStream> + Clock + Wait + Eprint,
{
    dialer.release(connected(dialer, 0));
    let ends = accepted(alloc, listener)?;
    let Sections { p, a, b } = connected(dialer, 1);
    let _kept_open = (sent(p, b"p"), sent(a, b"a"), sent(b, b"b"));
    sleep(rt, Duration::from_millis(SOON));
    let mut places = [3; 3];
    'ends: for (place, end) in ends.iter().enumerate() {
        match heard(end) {
            Some(b'p') => places[0] = place,
            Some(b'a') => places[1] = place,
            Some(b'b') => places[2] = place,
            _ => {}
        }
    }
    Some(places)
}

// Whether an error of P's is known of the first job, and how many are of the second one.
fn errors<R>(dialer: &Dialer<'_, R>) -> Option<[usize; 3]>
where
    R: Net<Listener = TcpListener, Stream = TcpStream> + Clock + Wait + Eprint,
{
    let mut sockets = connected(dialer, 0);
    if let Some(socket) = &mut sockets.p {
        let _ = socket.read(&mut [0; 1]);
    }
    dialer.release(sockets);
    dialer.release(connected(dialer, 1));
    let Sections { p, a, b } = dialer.take_errors(1);
    let others = usize::from(p.is_some()) + usize::from(a.is_some()) + usize::from(b.is_some());
    let is_late = match dialer.take_errors(0).p {
        Some(error) => error.kind() == ErrorKind::WouldBlock,
        None => false,
    };
    Some([usize::from(is_late), others, 0])
}

// How many connections a job makes, on how many the server is asked to close them, and how many another job makes.
fn quit<R>(alloc: Global, listener: &TcpListener, dialer: &Dialer<'_, R>) -> Option<[usize; 3]>
where
    R: Net<Listener = TcpListener, Stream = TcpStream> + Clock + Wait + Eprint,
{
    dialer.release(connected(dialer, 0));
    let ends = accepted(alloc, listener)?;
    dialer.quit();
    let asked = ends.iter().filter(|end| heard(end) == Some(b'q')).count();
    dialer.release(connected(dialer, 1));
    let later = accepted(alloc, listener)?.len();
    Some([ends.len(), asked, later])
}

// How many connections P's server and A's have taken in three jobs, and how many of A's hear what A sends in the last job.
fn with_two_servers<R>(rt: &R, alloc: Global) -> Option<[usize; 3]>
where
    R: Net<Listener = TcpListener, Stream = TcpStream> + Clock + Wait + Eprint,
{
    let (of_p, of_a) = (listener(rt)?, listener(rt)?);
    let (server, own) = (address(alloc, &of_p)?, address(alloc, &of_a)?);
    let mut servers = Servers::one(server.as_str(), None, None);
    servers.a = Some(own.as_str());
    let dialer = Dialer::new(rt, alloc, servers, false, "");
    taken(rt, alloc, &dialer, &of_p, &of_a)
}

fn taken<R>(
    rt: &R,
    alloc: Global,
    dialer: &Dialer<'_, R>,
    of_p: &TcpListener,
    of_a: &TcpListener,
) -> Option<[usize; 3]>
where
    R: Net<Listener = TcpListener, Stream = TcpStream> + Clock + Wait + Eprint,
{
    dialer.release(connected(dialer, 0));
    dialer.release(connected(dialer, 1));
    let Sections { p, a, b } = connected(dialer, 2);
    let _kept_open = (p, sent(a, b"a"), b);
    sleep(rt, Duration::from_millis(SOON));
    let (to_p, to_a) = (accepted(alloc, of_p)?, accepted(alloc, of_a)?);
    let hear = to_a.iter().filter(|end| heard(end) == Some(b'a')).count();
    Some([to_p.len(), to_a.len(), hear])
}

// The connections of a job.
fn connected<R>(dialer: &Dialer<'_, R>, job: u64) -> Sections<Option<Socket<TcpStream>>>
where
    R: Net<Listener = TcpListener, Stream = TcpStream> + Clock + Wait + Eprint,
{
    Sections {
        p: dialer.connect(job, Actor::P),
        a: dialer.connect(job, Actor::A),
        b: dialer.connect(job, Actor::B),
    }
}

// The connection, if there is one, on which these bytes were sent.
fn sent(socket: Option<Socket<TcpStream>>, bytes: &[u8]) -> Option<Socket<TcpStream>> {
    let mut socket = socket?;
    let _ = socket.write_all(bytes);
    Some(socket)
}

// The first byte that is there of the connection, if there is one.
fn heard(stream: &TcpStream) -> Option<u8> {
    let mut read = [0; 8];
    let mut stream = stream;
    let _ = stream.set_nonblocking(true);
    match stream.read(&mut read) {
        Ok(count) if count > 0 => Some(read[0]),
        _ => None,
    }
}

// A listener whose `accept` doesn't wait.
fn listener<R: Net<Listener = TcpListener, Stream = TcpStream>>(rt: &R) -> Option<TcpListener> {
    let listener = TcpListener::bind(rt, "127.0.0.1:0").ok()?;
    let _ = listener.set_nonblocking(true);
    Some(listener)
}

fn address(alloc: Global, listener: &TcpListener) -> Option<String> {
    let address = listener.local_addr().ok()?;
    format!(in alloc; "127.0.0.1:{}", address.port()).ok()
}

// The connections that the listener has, ten at most, and that weren't accepted yet.
fn accepted(alloc: Global, listener: &TcpListener) -> Option<Vec<TcpStream>> {
    let mut streams = Vec::with_capacity(alloc, 10).ok()?;
    'streams: for _ in 0..10 {
        match listener.accept() {
            Ok((stream, _)) => {
                let _ = streams.push(stream);
            }
            Err(_) => return Some(streams),
        }
    }
    Some(streams)
}
