//! The descriptors of the standard streams, where they were closed when the program started.
use std::io;
use std::net::Net;
use std::os::fd::{AsRawFd, OwnedFd};

/// The descriptor of standard input.
pub const STANDARD_INPUT: i32 = 0;

/// The descriptor of standard output.
pub const STANDARD_OUTPUT: i32 = 1;

// The descriptor of standard error.
const STANDARD_ERROR: i32 = 2;

// The number of the system's error EBADF: there is no such descriptor.
const BAD_DESCRIPTOR: i32 = 9;

/// What takes the place of each standard stream that was closed, for as long as this is kept. So no socket that is opened afterwards gets
/// its descriptor, and no server is sent what is meant for standard output or standard error. What takes the place is a socket that
/// nothing connects, which neither gives nor takes any byte: a read or a write of it fails.
#[derive(Drop)]
pub struct HeldDescriptors {
    sockets: [Option<OwnedFd>; 3],
    // Why a read or a write of a stream fails that was closed.
    closed: io::Error,
}

impl HeldDescriptors {
    /// Holds the descriptors of the standard streams that are closed.
    pub fn new<R: Net>(rt: &R) -> Self {
        let first = socket_at_standard(rt);
        let second = if first.is_some() {
            socket_at_standard(rt)
        } else {
            None
        };
        let third = if second.is_some() {
            socket_at_standard(rt)
        } else {
            None
        };
        HeldDescriptors {
            sockets: [first, second, third],
            closed: io::Error::from_raw_os_error(BAD_DESCRIPTOR),
        }
    }

    /// Why the stream over this descriptor failed, if it did: where it was closed, that there is no such descriptor.
    pub fn reason<'a>(
        &'a self,
        descriptor: i32,
        error: Option<&'a io::Error>,
    ) -> Option<&'a io::Error> {
        if error.is_some() && self.holds(descriptor) {
            Some(&self.closed)
        } else {
            error
        }
    }

    // Whether the descriptor was closed.
    fn holds(&self, descriptor: i32) -> bool {
        let [first, second, third] = &self.sockets;
        is_at(first.as_ref(), descriptor)
            || is_at(second.as_ref(), descriptor)
            || is_at(third.as_ref(), descriptor)
    }
}

// A socket at the descriptor of a standard stream, if one of them is closed: the system gives the lowest that is free. One that it puts
// elsewhere is closed at once.
fn socket_at_standard<R: Net>(rt: &R) -> Option<OwnedFd> {
    let socket = rt.unix_socket().ok()?;
    if socket.as_raw_fd() <= STANDARD_ERROR {
        Some(socket)
    } else {
        None
    }
}

fn is_at(socket: Option<&OwnedFd>, descriptor: i32) -> bool {
    match socket {
        Some(socket) => socket.as_raw_fd() == descriptor,
        None => false,
    }
}
