//! Whether anything is there of a connection that isn't read.
use libc::net::{POLLIN, poll};
use libc::types::pollfd;
use std::os::fd::AsRawFd;

// Waits for nothing.
const AT_ONCE: i32 = 0;

/// Whether nothing is there of the connection, as far as is seen: no byte has come, the server holds it open, and no call of it has
/// failed. The system is asked once, and nothing is read.
pub(crate) fn is_quiet<S: AsRawFd>(stream: &S) -> bool {
    let mut asked = [pollfd {
        fd: stream.as_raw_fd(),
        events: POLLIN,
        revents: 0,
    }];
    poll(&mut asked, AT_ONCE) == 0
}
