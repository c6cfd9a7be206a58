//! What one client asks in one round.
ghost use Rattle.std.specs.Prelude.{◌≡◌, IfOk, OnErr, OnOk};
ghost use Rattle.mc_rounds.specs.Clients as spec;

use crate::Plan;
use crate::draws::generator_of;
use crate::wish::{Wish, draw_wish};
use mc_protocol::{Bytes, OutOfMemory, Reply, Request, Verb};
use mc_settings::Mix;
use rand_pcg::Lcg64Xsh32;
use std::alloc::Global;
use std::marker::Model;

/// What one client asks in one round, request by request. Contracts see what it has left to draw, and the numbers that it heard.
#[derive(Debug, Drop)]
pub struct Client {
    mix: Mix,
    left: u16,
    generator: Lcg64Xsh32,
    // of each key the last number that was heard
    heard: Vec<Option<u64>>,
    // the key of its last request, if that was a gets
    asked: Option<usize>,
}

impl Model for Client {
    ghost use Rattle.mc_rounds.specs.Clients.{Asking};

    ghost Value = { Asking };

    ghost view = { λ c. record {
      mix = c.mix;
      left = c.left;
      generator = c.generator;
      heard = c.heard.items;
      asked = c.asked;
    } };
}

impl Client {
    /// The client before its first request of the round.
    pub fn new(alloc: Global, plan: &Plan, round: u64, client: u8) -> Result<Client, OutOfMemory>
        ensures { IfOk result (λ asking. asking ≡ spec.start_of plan.now round client) }
    {
        Ok(Client {
            mix: plan.mix,
            left: plan.requests,
            generator: generator_of(plan.seed, round, client),
            heard: vec![in alloc; None; usize::from(plan.keys)]?,
            asked: None,
        })
    }

    /// The next request on one of the keys; none after the last, or if there are no keys. Want of memory changes nothing.
    pub fn next(&mut self, alloc: Global, keys: &[Bytes]) -> Result<Option<Request>, OutOfMemory>
        ensures asked { IfOk result (λ asked. (asked, self.new) ≡ spec.next_of keys.now self.old) }
        ensures err { OnErr result (self.new ≡ self.old) }
    {
        if self.left == 0 || keys.is_empty() {
            return Ok(None);
        }
        let mut generator = self.generator.clone()?;
        let wish = draw_wish(alloc, self.mix, keys.len(), &mut generator)?;
        let index = wish.key;
        let request = request_of(alloc, keys[index].copy(alloc)?, self.number_of(index), wish);
        self.left -= 1;
        self.generator = generator;
        self.asked = if request.verb == Verb::Gets {
            Some(index)
        } else {
            None
        };
        Ok(Some(request))
    }

    // The last number that was heard of a key.
    fn number_of(&self, key: usize) -> Option<u64>
        ensures { result ≡ spec.number_of self.now.heard key }
    {
        match self.heard.get(key) {
            Some(number) => *number,
            None => None,
        }
    }

    /// Takes the number that a reply to its last request shows, if that was a gets.
    pub fn hear(&mut self, reply: &Reply)
        ensures { self.new ≡ spec.hearing reply.now self.old }
    {
        if let Reply::Hit {
            cas: Some(number),
            ..
        } = reply
        {
            if let Some(key) = self.asked {
                if key < self.heard.len() {
                    self.heard[key] = Some(*number);
                }
            }
        }
    }
}

// The request of a wish on this key, of which this number was heard last.
fn request_of(alloc: Global, key: Bytes, heard: Option<u64>, wish: Wish) -> Request
    ensures { result ≡ spec.request_of key heard wish }
{
    let Wish {
        verb,
        flags,
        body,
        amount,
        ..
    } = wish;
    match verb {
        Verb::Cas => match heard {
            Some(number) => Request {
                verb,
                key,
                flags,
                body,
                number,
            },
            None => Request {
                verb: Verb::Gets,
                key,
                flags: 0,
                body: Bytes::new(Vec::new(alloc)),
                number: 0,
            },
        },
        _ => Request {
            verb,
            key,
            flags,
            body,
            number: amount,
        },
    }
}
