//! Which servers are connected, and within which times.
ghost use Rattle.std.specs.Prelude.{◌≡◌, None};

use mc_protocol::Actor;
use std::time::Duration;

/// The servers of a run or of a campaign's jobs, each HOST:PORT, and the times within which they connect and answer.
#[derive(Clone, Copy, Debug, Drop)]
pub struct Servers<'a> {
    /// The server of P, and of a branch that has none of its own.
    pub server: &'a str,
    /// A's server, if it isn't P's.
    pub a: Option<&'a str>,
    /// B's server, if it isn't P's.
    pub b: Option<&'a str>,
    /// The longest that one connect to one address, one read or one write may take, if there is a limit.
    pub timeout: Option<Duration>,
    /// How long each server may be tried again.
    pub wait: Option<Duration>,
}

impl<'a> Servers<'a> {
    /// One server for all sections.
    pub fn one(server: &'a str, timeout: Option<Duration>, wait: Option<Duration>) -> Self
        ensures { result ≡ record { server = server.entry; a = None; b = None; timeout = timeout; wait = wait } }
    {
        Servers {
            server,
            a: None,
            b: None,
            timeout,
            wait,
        }
    }

    // The server of the section.
    pub(crate) fn of(&self, section: Actor) -> &'a str {
        self.own(section).unwrap_or(self.server)
    }

    // The server that the section has for itself.
    pub(crate) fn own(&self, section: Actor) -> Option<&'a str> {
        match section {
            Actor::P => None,
            Actor::A => self.a,
            Actor::B => self.b,
        }
    }
}
