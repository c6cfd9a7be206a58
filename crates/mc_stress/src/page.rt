//! What the program gives to rounds: connections, and what takes their answer.
use crate::evidence::Evidence;
use mc_connect::Connection;
use mc_lane::{Lane, Stream};
use mc_model::{Note, Sent};
use std::io;
use std::time::Duration;

/// What connects clients to the server that is tested.
pub trait Network {
    /// What each of them gets.
    type Connection: Connection;

    /// A new connection of the client.
    ///
    /// # Errors
    ///
    /// Why there is none.
    fn connect(&mut self, client: u8) -> io::Result<Self::Connection>;
}

/// Where the answer and remarks are written.
pub trait Page {
    /// Writes all the bytes, keeps none of them back, and answers whether that was done.
    fn put(&mut self, text: &[u8]) -> bool;

    /// Tells how many rounds were judged, and how many of these are unexplained.
    fn count(&mut self, rounds: u64, unexplained: u64);

    /// Tells what was noted in the round with this number. It is over, and isn't judged yet. Rounds that weren't played are left out.
    fn tell_played(&mut self, round: u64, notes: &[(u8, Note)]);

    /// Hands out the evidence of the round with this number, the first that nothing explains, just before its text is written. This
    /// happens at most once: with `keep_going` as soon as the round is judged, otherwise at the end.
    fn tell_unexplained(&mut self, round: u64, evidence: Evidence);

    /// Tells why a client got no connection.
    fn tell_unreached(&mut self, error: &io::Error);

    /// Tells how a client failed in the round with this number, or what came after its last reply. It had sent these requests over the
    /// lane, and `error` is why a call of its connection failed, if one did.
    fn tell_client<S: Stream>(
        &mut self,
        round: u64,
        client: u8,
        sent: &[Sent],
        lane: &Lane<S>,
        error: Option<io::Error>,
    );

    /// Tells that no round follows the one with this number, since the server may still act on a request of it, and no other keys can
    /// be had.
    fn tell_stop(&mut self, round: u64);

    /// Tells how long clients waited for rounds to be judged.
    fn tell_wait(&mut self, time: Duration);
}
