//! The numbers of clients in the timeline that is written.
ghost use Rattle.std.specs.Prelude.{◌<◌, IfSome};

use mc_timeline::CLIENTS_LIMIT;

/// What a number is used for.
#[derive(Clone, Copy, PartialEq, Eq)]
enum Use {
    /// Nothing: any connection may take it.
    Free,
    /// The connection has it, and it waits for no reply.
    Idle(u8),
    /// A request of the connection has it, and waits for its reply.
    Waiting(u8),
    /// Its last request never gets its reply.
    Lost,
}

/// The numbers of clients. A connection keeps those that it took, until it ends; a number that waits for a reply then is never
/// given again.
#[derive(Drop)]
pub(crate) struct Numbers {
    uses: [Use; CLIENTS_LIMIT],
}

impl Numbers {
    /// All are free.
    pub(crate) fn new() -> Self {
        Numbers {
            uses: [Use::Free; CLIENTS_LIMIT],
        }
    }

    /// A number for a request of the connection: the least of its own that waits for nothing, or the least that is free.
    pub(crate) fn take(&mut self, connection: u8) -> Option<u8>
        ensures { IfSome result (λ number. number < 64) }
    {
        let number = self.find(Use::Idle(connection)).or(self.find(Use::Free))?;
        self.uses[number as usize] = Use::Waiting(connection);
        Some(number)
    }

    /// The reply to the number's request has come.
    pub(crate) fn answer(&mut self, number: u8) {
        if let Some(found) = self.uses.get_mut(number as usize) {
            if let Use::Waiting(connection) = *found {
                *found = Use::Idle(connection);
            }
        }
    }

    /// The connection has ended.
    pub(crate) fn end(&mut self, connection: u8) {
        for found in &mut self.uses {
            if *found == Use::Idle(connection) {
                *found = Use::Free;
            } else if *found == Use::Waiting(connection) {
                *found = Use::Lost;
            }
        }
    }

    // The least number that is used so.
    fn find(&self, wanted: Use) -> Option<u8>
        ensures { IfSome result (λ number. number < 64) }
    {
        for number in 0..CLIENTS_LIMIT as u8 {
            if self.uses[number as usize] == wanted {
                return Some(number);
            }
        }
        None
    }
}
