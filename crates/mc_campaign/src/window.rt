//! The messages of a campaign's jobs that came before their turn.

use crate::message::JobMessage;
use crate::{Campaign, Watcher};
use crossbeam_channel::Receiver;
use mc_lane::Stream;
use mc_protocol::OutOfMemory;
use std::alloc::Global;
use std::sync::Wait;

/// At most this many jobs have begun or may begin beyond those that were kept.
pub(crate) const MOST_AHEAD: u64 = 64;

/// The messages that came, each in the place of its job modulo their number.
#[derive(Drop)]
pub(crate) struct Window<'a, S: Stream> {
    messages: Vec<Option<JobMessage<'a, S>>>,
}

impl<'a, S: Stream + Send> Window<'a, S> {
    /// No message has come.
    pub(crate) fn new(alloc: Global) -> Result<Self, OutOfMemory> {
        let mut messages = Vec::new(alloc);
        'places: for _ in 0..MOST_AHEAD {
            messages.push(None)?;
        }
        Ok(Window { messages })
    }

    /// The message of the job in this place, once it has come; or nothing where no worker is left that could send it. The watcher is
    /// called with each message that comes meanwhile.
    pub(crate) fn wait_for<R: Wait, W: Watcher<S>>(
        &mut self,
        rt: &R,
        results: &Receiver<JobMessage<'a, S>>,
        campaign: Campaign<'a>,
        place: u64,
        watcher: &mut W,
    ) -> Option<JobMessage<'a, S>> {
        'messages: for _ in rt.forever() {
            if let Some(message) = self.take(place) {
                return Some(message);
            }
            let Ok(message) = results.recv(rt) else {
                return None;
            };
            watcher.ended(message.job(), message.outcome());
            self.put(campaign, message);
        }
        unreachable!()
    }

    fn take(&mut self, place: u64) -> Option<JobMessage<'a, S>> {
        self.messages.get_mut((place % MOST_AHEAD) as usize)?.take()
    }

    fn put(&mut self, campaign: Campaign<'a>, message: JobMessage<'a, S>) {
        let place = message.job().wrapping_sub(campaign.first);
        if let Some(found) = self.messages.get_mut((place % MOST_AHEAD) as usize) {
            drop(found.replace(message));
        }
    }
}
