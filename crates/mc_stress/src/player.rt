//! The clients of rounds, which play one round after another.

use crate::outcome::Outcome;
use crate::page::{Network, Page};
use crate::playing::{Round, RoundError, play_round};
use crate::requests::sent_by;
use crate::settings::Stress;
use itoa::Buffer;
use mc_connect::{Connection, Socket};
use mc_lane::{Lane, Wire};
use mc_protocol::{Bytes, Fault, KEY_BYTES_LIMIT, OutOfMemory, append_all};
use mc_rounds::keys_of;
use mc_settings::Namespace;
use std::alloc::{AllocError, Global};
use std::sync::Wait;
use std::thread::Threads;

/// The most bytes that a client may receive in a round.
const RECEIVED_LIMIT: u32 = 16_777_216;

/// The clients of rounds.
#[derive(Drop)]
pub(crate) struct Player<'p, 'a, C> {
    alloc: Global,
    stress: &'p Stress<'a>,
    keys: Vec<Bytes>,
    /// How many names the keys had.
    names: u64,
    /// Whether the server may still act on a request of an earlier round on these keys.
    is_unsettled: bool,
    /// The connection of each client, if it may serve the next round.
    sockets: Vec<Option<Socket<C>>>,
}

impl<'p, 'a, C: Connection> Player<'p, 'a, C> {
    /// Clients without connections.
    ///
    /// # Errors
    ///
    /// That memory ran out.
    pub(crate) fn new(alloc: Global, stress: &'p Stress<'a>) -> Result<Self, OutOfMemory> {
        let mut sockets = Vec::new(alloc);
        'clients: for _ in 0..stress.plan.clients {
            sockets.push(None)?;
        }
        Ok(Player {
            alloc,
            stress,
            keys: keys_of(alloc, stress.plan.keys, stress.name.as_ref())?,
            names: 1,
            is_unsettled: false,
            sockets,
        })
    }

    /// Puts the keys under a name that no round had, if the last round asks for that, and answers whether another round may follow.
    pub(crate) fn make_ready(&mut self) -> Result<bool, OutOfMemory> {
        if !self.is_unsettled {
            return Ok(true);
        }
        self.names = self.names.saturating_add(1);
        let keys = self.keys_under(self.names)?;
        match keys {
            Some(keys) => {
                self.keys = keys;
                self.is_unsettled = false;
                Ok(true)
            }
            None => Ok(false),
        }
    }

    // The keys with the number, after the name if there is one, in front; none if they are too long.
    fn keys_under(&self, number: u64) -> Result<Option<Vec<Bytes>>, OutOfMemory> {
        let mut number_text = Buffer::new();
        let digits = number_text.format(number).as_bytes();
        let mut text = Vec::new(self.alloc);
        if let Some(name) = &self.stress.name {
            append_all(&mut text, &[name.as_slice(), b"-"])?;
        }
        append_all(&mut text, &[digits])?;
        let Some(name) = Namespace::new(text.as_slice()) else {
            return Ok(None);
        };
        let keys = keys_of(self.alloc, self.stress.plan.keys, Some(&name))?;
        let are_short = keys
            .iter()
            .all(|key| key.as_slice().len() <= KEY_BYTES_LIMIT);
        Ok(are_short.then_some(keys))
    }

    /// Plays the round with this number.
    ///
    /// # Errors
    ///
    /// That memory ran out.
    pub(crate) fn play<R: Threads + Wait + Sync, N: Network<Connection = C>, P: Page>(
        &mut self,
        rt: &R,
        number: u64,
        network: &mut N,
        page: &mut P,
    ) -> Result<Outcome<Wire<Socket<C>>>, OutOfMemory> {
        if let Some(client) = self.connect(network, page) {
            return Ok(Outcome::NoConnection(client));
        }
        let lanes = self.take_lanes()?;
        // until all is known of the round
        self.is_unsettled = true;
        let plan = &self.stress.plan;
        match play_round(rt, self.alloc, plan, number, self.keys.as_slice(), lanes) {
            Ok(round) => self.end(number, round, page),
            Err(RoundError::OutOfMemory) => Err(AllocError),
            Err(RoundError::NoThread) => Ok(Outcome::NotPlayed),
        }
    }

    // Gives each client a connection, unless it has one that is idle. Answers the first that gets none.
    fn connect<N: Network<Connection = C>, P: Page>(
        &mut self,
        network: &mut N,
        page: &mut P,
    ) -> Option<u8> {
        let mut client = 0u8;
        'sockets: for socket in self.sockets.iter_mut() {
            let is_idle = match socket {
                Some(socket) => socket.is_idle(self.alloc),
                None => false,
            };
            if !is_idle {
                match network.connect(client) {
                    Ok(connection) => *socket = Some(Socket::new(connection)),
                    Err(error) => {
                        *socket = None;
                        page.tell_unreached(&error);
                        return Some(client);
                    }
                }
            }
            client = client.saturating_add(1);
        }
        None
    }

    // A new lane over each connection.
    fn take_lanes(&mut self) -> Result<Vec<Lane<Wire<Socket<C>>>>, OutOfMemory> {
        let mut lanes = Vec::new(self.alloc);
        'sockets: for socket in self.sockets.iter_mut() {
            if let Some(socket) = socket.take() {
                lanes.push(Lane::new(self.alloc, Wire::new(socket), RECEIVED_LIMIT))?;
            }
        }
        Ok(lanes)
    }

    // Keeps the connections that may serve the next round, and tells how clients failed.
    fn end<P: Page>(
        &mut self,
        number: u64,
        mut round: Round<Wire<Socket<C>>>,
        page: &mut P,
    ) -> Result<Outcome<Wire<Socket<C>>>, OutOfMemory> {
        page.tell_played(number, round.notes.as_slice());
        let mut has_failed = false;
        'clients: for one in round.played.iter_mut() {
            let client = one.client;
            let socket = one.lane.close().map(Wire::into_inner);
            has_failed = has_failed || one.ended.is_some();
            if one.ended.is_none() && one.lane.taken() == one.lane.got().len() {
                if let Some(slot) = self.sockets.get_mut(usize::from(client)) {
                    *slot = socket;
                }
            } else {
                let error = match &socket {
                    Some(socket) => socket.error(),
                    None => None,
                };
                let sent = sent_by(self.alloc, client, round.notes.as_slice())?;
                page.tell_client(number, client, sent.as_slice(), &one.lane, error);
            }
        }
        self.is_unsettled = has_failed;
        if has_failed {
            self.drop_sockets();
        }
        Ok(Outcome::Played(round))
    }

    // The next round has new connections.
    fn drop_sockets(&mut self) {
        'sockets: for socket in self.sockets.iter_mut() {
            *socket = None;
        }
    }
}
