//! Recording over TCP: connections are accepted, each is handed on by two threads, and what is noted is written while they run.
use crate::carrying::{STACK_BYTES, carry};
use crate::judge_thread::{judge_all, judge_rest};
use crate::judging::{Count, Judged};
use crate::left_out::LeftOut;
use crate::notebook::{CONNECTIONS_LIMIT, Notebook};
use crate::open_streams::OpenStreams;
use crate::shared::{News, Recording, Shared};
use std::alloc::Global;
use std::net::{Net, TcpListener, TcpStream};
use std::rt::Clock;
use std::sync::{Mutex, Wait};
use std::thread::{Builder, Scope, Threads};
use std::time::{Duration, Instant};
use std::{io, thread};

/// How long it is waited between two looks at what is there, in milliseconds.
const PAUSE: u64 = 2;

/// How long text is held back before it is written, in milliseconds.
const LONGEST_HELD: u64 = 250;

/// What takes the text of the recording, and what is told of it.
pub trait Page {
    /// Writes all the bytes, keeps none of them back, and answers whether that was done.
    fn put(&mut self, text: &[u8]) -> bool;

    /// Tells the evidence of the first timeline that nothing explains.
    fn tell(&mut self, evidence: &[u8]);

    /// Tells why the server couldn't be reached, the first time that it couldn't.
    fn tell_unreached(&mut self, error: &io::Error);
}

/// What came of a recording.
#[derive(Clone, Copy)]
pub struct Recorded {
    /// How many connections were handed on.
    pub accepted: u64,
    /// How many were closed at once: there were 64 already, or no thread could be made.
    pub refused: u64,
    /// Whether all of the text was written, and memory sufficed for it.
    pub is_whole: bool,
    pub noted: Count,
    /// How many requests were sent before the reply to an earlier one of their connection had begun.
    pub pipelined: u64,
    pub left_out: LeftOut,
    pub judged: Judged,
}

/// Records what the clients of the listener and the server say to each other, until the time is over or all connections have ended.
pub fn record<R, P: Page>(
    rt: &R,
    alloc: Global,
    listener: &TcpListener,
    recording: Recording<'_>,
    page: &mut P,
) -> io::Result<Recorded>
where
    R: Net<Listener = TcpListener, Stream = TcpStream> + Threads + Wait + Clock + Sync,
{
    listener.set_nonblocking(true)?;
    let shared = Shared {
        recording,
        notebook: Mutex::new(Notebook::new(alloc, recording.judges)?),
        streams: Mutex::new(OpenStreams::new(alloc, CONNECTIONS_LIMIT)?),
        news: Mutex::new(News {
            judged: Judged::none(),
            found: None,
            has_found: false,
            unreached: None,
            has_unreached: false,
            is_last: false,
        }),
    };
    let begun = Instant::now(rt)?;
    let (accepted, refused, is_written) = thread::scope(thread::scope_env(), rt, |scope| {
        run(rt, alloc, listener, &shared, begun, page, scope)
    });
    if recording.judges {
        // none is left if the thread was there
        judge_rest(rt, alloc, &shared);
    }
    let is_written = is_written && write_out(rt, &shared, page);
    tell_news(rt, &shared, page);
    let noted = shared.notebook.lock(rt).noted();
    let pipelined = shared.notebook.lock(rt).pipelined();
    let left_out = shared.notebook.lock(rt).left_out();
    let unjudged = shared.notebook.lock(rt).unjudged();
    let is_short = shared.notebook.lock(rt).is_short();
    let mut judged = shared.news.lock(rt).judged;
    judged.undecided.add_all(unjudged);
    Ok(Recorded {
        accepted,
        refused,
        is_whole: is_written && !is_short,
        noted,
        pipelined,
        left_out,
        judged,
    })
}

// Accepts connections, and writes what is noted, until all is over.
fn run<'s, E, R, P: Page>(
    rt: &'s R,
    alloc: Global,
    listener: &TcpListener,
    shared: &'s Shared<'s>,
    begun: Instant,
    page: &mut P,
    scope: &Scope<'s, E>,
) -> (u64, u64, bool)
where
    R: Net<Listener = TcpListener, Stream = TcpStream> + Threads + Wait + Clock + Sync,
{
    let mut accepted = 0u64;
    let mut refused = 0u64;
    let mut is_written = true;
    let mut flushed = begun;
    start_judge(rt, alloc, shared, scope);
    for _ in rt.forever() {
        let is_late = is_past(rt, begun, shared.recording.time);
        let is_full = shared
            .recording
            .connections
            .is_some_and(|most| most <= accepted);
        if is_late {
            shared.streams.lock(rt).shut_all();
        }
        if (is_late || is_full) && shared.streams.lock(rt).are_none() {
            break;
        }
        let came = !is_late && !is_full;
        match if came { accept(listener) } else { None } {
            Some(stream) => {
                if take(rt, alloc, shared, stream, scope) {
                    accepted = accepted.saturating_add(1);
                } else {
                    refused = refused.saturating_add(1);
                }
            }
            None => thread::sleep(rt, Duration::from_millis(PAUSE)),
        }
        if is_past(rt, flushed, Some(Duration::from_millis(LONGEST_HELD))) {
            is_written = is_written && write_out(rt, shared, page);
            tell_news(rt, shared, page);
            flushed = Instant::now(rt).unwrap_or(flushed);
        }
    }
    shared.notebook.lock(rt).finish();
    shared.news.lock(rt).is_last = true;
    (accepted, refused, is_written)
}

// Whether this much time has passed since then. If there is no clock, it has.
fn is_past<R: Clock>(rt: &R, since: Instant, time: Option<Duration>) -> bool {
    let Some(time) = time else {
        return false;
    };
    match since.elapsed(rt) {
        Ok(passed) => time <= passed,
        Err(_) => true,
    }
}

// A connection that is there to be accepted.
fn accept(listener: &TcpListener) -> Option<TcpStream> {
    let (stream, _address) = listener.accept().ok()?;
    stream.set_nonblocking(false).ok()?;
    // replies that are small go out at once; where that is refused they come later
    let _ = stream.set_nodelay(true);
    Some(stream)
}

// Hands a connection on by threads of its own, if there is a number for it and a thread.
fn take<'s, E, R>(
    rt: &'s R,
    alloc: Global,
    shared: &'s Shared<'s>,
    client: TcpStream,
    scope: &Scope<'s, E>,
) -> bool
where
    R: Net<Listener = TcpListener, Stream = TcpStream> + Threads + Wait + Clock + Sync,
{
    let Some(number) = shared.notebook.lock(rt).open() else {
        return false;
    };
    shared.streams.lock(rt).begin();
    let carrying = move || {
        carry(rt, alloc, shared, number, client);
        shared.streams.lock(rt).end();
    };
    match Builder::new()
        .stack_size(STACK_BYTES)
        .spawn_scoped(scope, carrying)
    {
        Ok(_handle) => true,
        Err(_) => {
            shared.notebook.lock(rt).close(number);
            shared.streams.lock(rt).end();
            false
        }
    }
}

// Writes the text that was noted, and answers whether that was done.
fn write_out<R: Wait, P: Page>(rt: &R, shared: &Shared<'_>, page: &mut P) -> bool {
    let text = shared.notebook.lock(rt).take_text();
    text.is_empty() || page.put(text.as_slice())
}

// Tells what was found, and why the server couldn't be reached.
fn tell_news<R: Wait, P: Page>(rt: &R, shared: &Shared<'_>, page: &mut P) {
    let (found, unreached) = {
        let mut news = shared.news.lock(rt);
        (news.found.take(), news.unreached.take())
    };
    if let Some(found) = found {
        page.tell(found.as_slice());
    }
    if let Some(error) = unreached {
        page.tell_unreached(&error);
    }
}

// Judges timelines as they end, if they are to be judged.
fn start_judge<'s, E, R: Wait + Clock + Sync>(
    rt: &'s R,
    alloc: Global,
    shared: &'s Shared<'s>,
    scope: &Scope<'s, E>,
) {
    if !shared.recording.judges {
        return;
    }
    // without a thread they are judged at the end
    let _ = Builder::new()
        .stack_size(STACK_BYTES)
        .spawn_scoped(scope, move || judge_all(rt, alloc, shared));
}
