//! What `record` is asked: a recording of what clients and a server say to each other.

use mc_answers::{Sink, Status};
use mc_cli::RecordArgs;
use mc_connect::{Unreached, has_port};
use mc_record::{Count, LeftOut, Page, Recorded, Recording, record};
use std::alloc::Global;
use std::fs::File;
use std::io;
use std::io::{Eprint, ErrorKind, Seek, SeekFrom, Write};
use std::net::{Ipv4Addr, Net, SocketAddr, TcpListener, TcpStream};
use std::rt::{Clock, Files};
use std::sync::Wait;
use std::thread::Threads;
use std::time::Duration;

// The last line of a recording. A file has it at any time: the lines that come next are written over it.
const END: &[u8] = b"end\n";

// What takes the recording, the file or the output, and what takes the evidence.
#[derive(Drop)]
struct Paper<'a, 'b, 'c, 'd, R, W: Drop, O, F> {
    rt: &'a R,
    server: &'b str,
    alloc: Global,
    file: Option<W>,
    // Whether the file has the last line, and whether it can have it before the end.
    has_end: bool,
    can_seek: bool,
    output: &'c mut O,
    faults: &'d mut F,
}

impl<R: Eprint, W: Write + Seek + Drop, O: Sink, F: Sink> Page
    for Paper<'_, '_, '_, '_, R, W, O, F> {
    fn put(&mut self, text: &[u8]) -> bool {
        let Some(file) = &mut self.file else {
            return self.output.write_all(text).is_ok();
        };
        let written = if self.can_seek {
            write_ended(self.alloc, file, text, self.has_end)
        } else {
            file.write_all(text)
        };
        match written {
            Ok(()) => {
                self.has_end = true;
                true
            }
            Err(error) => {
                // There is nowhere else to say that this could not be said.
                let _ = eprintln!(self.rt; "mcrace: --out: {error}");
                false
            }
        }
    }

    fn tell(&mut self, evidence: &[u8]) {
        // There is nowhere else to say that this could not be said.
        let _ = eprintln!(self.rt; "mcrace: no order explains a key:");
        let _ = self.faults.write_all(evidence);
    }

    fn tell_unreached(&mut self, error: &io::Error) {
        // There is nowhere else to say that this could not be said.
        let _ = eprintln!(self.rt; "mcrace: {}: {error}", self.server);
    }
}

/// Records what clients and the server say, and answers the exit status.
pub fn record_server<R, O: Sink, F: Sink>(
    rt: &R,
    args: &RecordArgs<'_>,
    output: &mut O,
    faults: &mut F,
) -> u8
where
    R: Net<Listener = TcpListener, Stream = TcpStream>
        + Threads
        + Wait
        + Clock
        + Sync
        + Eprint
        + Files
        + AllocGlobal,
{
    let Some(listener) = listener_of(rt, args) else {
        return Status::NoAnswer.number();
    };
    let mut file = match file_of(rt, args) {
        Ok(file) => file,
        Err(error) => {
            // There is nowhere else to say that this could not be said.
            let _ = eprintln!(rt; "mcrace: --out: {error}");
            return Status::NoAnswer.number();
        }
    };
    let recording = Recording {
        server: args.server,
        connections: args.connections,
        time: args.time.map(Duration::from_millis),
        judges: args.judge,
    };
    let can_seek = match &mut file {
        Some(file) => file.seek(SeekFrom::Start(0)).is_ok(),
        None => false,
    };
    let mut paper = Paper {
        rt,
        server: args.server,
        alloc: rt.alloc(),
        file,
        has_end: false,
        can_seek,
        output,
        faults,
    };
    let ended = record(rt, rt.alloc(), &listener, recording, &mut paper);
    match ended {
        Ok(recorded) => {
            tell_totals(rt, args.judge, &recorded);
            status_of(&recorded).number()
        }
        Err(error) => {
            // There is nowhere else to say that this could not be said.
            let _ = eprintln!(rt; "mcrace: {error}");
            Status::NoAnswer.number()
        }
    }
}

// Writes the text and a last line after it, by one call, over the last line that is there.
fn write_ended<W: Write + Seek>(
    alloc: Global,
    file: &mut W,
    text: &[u8],
    has_end: bool,
) -> io::Result<()> {
    let mut lines = Vec::from_slice(alloc, text)?;
    if text != END && !text.ends_with(b"\nend\n") {
        lines.extend_from_slice(END)?;
    }
    if has_end {
        file.seek(SeekFrom::Current(-4))?;
    }
    file.write_all(lines.as_slice())
}

// A listener at the port, which is told. If there is none, or the server has no port, that is told.
fn listener_of<R>(rt: &R, args: &RecordArgs<'_>) -> Option<TcpListener>
where
    R: Net<Listener = TcpListener, Stream = TcpStream> + Eprint,
{
    if !has_port(args.server) {
        let error = io::Error::from(ErrorKind::InvalidInput);
        let unreached = Unreached {
            server: args.server,
            error,
        };
        // There is nowhere else to say that this could not be said.
        let _ = eprintln!(rt; "mcrace: {unreached}");
        return None;
    }
    match listen_at(rt, args.port) {
        Ok((listener, port)) => {
            // There is nowhere else to say that this could not be said.
            let _ = eprintln!(rt; "mcrace: listening 127.0.0.1:{port}");
            Some(listener)
        }
        Err(error) => {
            // There is nowhere else to say that this could not be said.
            let _ = eprintln!(rt; "mcrace: 127.0.0.1:{}: {error}", args.port);
            None
        }
    }
}

fn listen_at<R>(rt: &R, port: u16) -> io::Result<(TcpListener, u16)>
where
    R: Net<Listener = TcpListener, Stream = TcpStream>,
{
    let listener = TcpListener::bind(rt, SocketAddr::from((Ipv4Addr::LOCALHOST, port)))?;
    let address = listener.local_addr()?;
    Ok((listener, address.port()))
}

// The file that `--out` names, of which nothing is left that was in it.
fn file_of<R: Files>(rt: &R, args: &RecordArgs<'_>) -> io::Result<Option<R::File>> {
    match args.out {
        Some(path) => Ok(Some(File::create(rt, path)?)),
        None => Ok(None),
    }
}

fn status_of(recorded: &Recorded) -> Status {
    if recorded.judged.unexplained.timelines > 0 {
        Status::Unexplained
    } else if recorded.is_whole {
        Status::Success
    } else {
        Status::NoAnswer
    }
}

// Says on standard error what came of the recording.
fn tell_totals<R: Eprint>(rt: &R, judges: bool, recorded: &Recorded) {
    // There is nowhere else to say that this could not be said.
    let _ = eprintln!(rt;
        "mcrace: accepted {} refused {}",
        recorded.accepted, recorded.refused
    );
    let noted = recorded.noted;
    let _ = eprintln!(rt;
        "mcrace: noted {} requests in {} timelines",
        noted.requests, noted.timelines
    );
    if recorded.pipelined > 0 {
        // There is nowhere else to say that this could not be said.
        let _ = eprintln!(rt;
            "mcrace: pipelined {}: sent while their connection waited for a reply",
            recorded.pipelined
        );
    }
    if judges {
        tell_count(rt, "explained", recorded.judged.explained);
        tell_count(rt, "unexplained", recorded.judged.unexplained);
        tell_count(rt, "undecided", recorded.judged.undecided);
    }
    tell_left_out(rt, &recorded.left_out);
    if !recorded.is_whole {
        // There is nowhere else to say that this could not be said.
        let _ = eprintln!(rt;
            "mcrace: not all was written: the output failed, or memory was short"
        );
    }
}

fn tell_count<R: Eprint>(rt: &R, name: &str, count: Count) {
    // There is nowhere else to say that this could not be said.
    let _ = eprintln!(rt;
        "mcrace: {name} {} requests in {} timelines",
        count.requests, count.timelines
    );
}

// Says why requests were left out, a line for each reason.
fn tell_left_out<R: Eprint>(rt: &R, left_out: &LeftOut) {
    for (count, why) in left_out.reasons() {
        if count > 0 {
            // There is nowhere else to say that this could not be said.
            let _ = eprintln!(rt; "mcrace: left out {count}: {why}");
        }
    }
}
