//! Code that is run repeatedly, under other keys where an earlier run left a request without a reply.
//!
//! The server may act on such a request at any time. What a later run of the same keys received might have no explanation then, though
//! nothing is wrong.
ghost use Rattle.std.specs.Prelude.{◌≡◌, None, Some, IfOk, true};
ghost use Rattle.std.specs.Arc.{arc_value};
ghost use Rattle.std.specs.{declared.alloc.Global.Global, declared.sync.Arc.Arc};
ghost use Rattle.mc_model.specs.History as histories;
ghost use Rattle.mc_sound.specs.Checked.{Checked};
ghost use Rattle.mc_command.specs.RepeatAnswers as answers;
ghost use Rattle.mc_command.specs.Renaming.{code_of};

use crate::run::Played;
use crate::target_code::{Unplayed, put_code_under};
use mc_model::{History, Sent};
use mc_protocol::Actor;
use mc_settings::Namespace;
use mc_sound::Checked;
use std::alloc::{AllocError, Global};
use std::rt::Clock;
use std::sync::Arc;

// How many characters a name has.
const NAME_LENGTH: usize = 8;

// The characters of names. There are 32.
const CHARACTERS: &[u8; 32] = b"abcdefghijklmnopqrstuvwxyz234567";

/// Under which name the code of the next run is put.
#[derive(Drop)]
pub struct Renaming {
    /// The code under the last name, if there was one.
    under: Option<Arc<Checked, Global>>,
    // The number that the next name spells. It begins with the microseconds since 1970, and a run takes more than one, so the names of
    // any two runs on a machine differ for twelve days.
    next: u64,
}

impl Renaming {
    /// No name is there so far.
    pub fn new<R: Clock>(rt: &R) -> Self
        ensures { result.under ≡ None }
    {
        let next = match rt.since_1970() {
            Ok(time) => u64::try_from(time.as_micros()).unwrap_or(0),
            Err(_) => 0,
        };
        Renaming { under: None, next }
    }

    /// What is played of this code: the code itself, or it under the last name.
    pub fn code<'a>(&'a self, written: &'a Arc<Checked, Global>) -> &'a Arc<Checked, Global>
        ensures { (arc_value result.now).code ≡ code_of self.now.under (arc_value written.now).code }
    {
        match &self.under {
            Some(under) => under,
            None => written,
        }
    }

    /// Puts the code under a name that no run had, and answers whether one fits its keys.
    pub fn rename(&mut self, alloc: Global, written: &Checked) -> Result<bool, AllocError>
        ensures renamed { IfOk result (λ fits. fits ≡ true → (under : Arc Checked Global) × (self.new.under ≡ Some under)
            × answers.IsUnderSome written.now.code (arc_value under).code) }
    {
        let characters = name_of(self.next);
        self.next = self.next.wrapping_add(1);
        let Some(name) = Namespace::new(&characters) else {
            return Ok(false);
        };
        match put_code_under(alloc, written, &name) {
            Ok(under) => {
                self.under = Some(Arc::new(alloc, under)?);
                Ok(true)
            }
            Err(Unplayed::OutOfMemory) => Err(AllocError),
            Err(Unplayed::Refused(_) | Unplayed::KeyTooLong(_)) => Ok(false),
        }
    }
}

// The last forty bits of the number as a name, of five bits a character.
fn name_of(number: u64) -> [u8; NAME_LENGTH] {
    let mut name = [0; NAME_LENGTH];
    let mut rest = number;
    for character in name.iter_mut().rev() {
        *character = CHARACTERS[(rest % 32) as usize];
        rest /= 32;
    }
    name
}

/// Whether the server may still act on a request of the run, as far as that is known.
pub fn leaves_request(played: &Played) -> bool
    ensures { result ≡ answers.leaves_request played.now }
{
    match played {
        Played::Ended(_, history, _, _) => !is_answered(history),
        Played::NotRun => true,
        Played::NoConnection(_) => false,
    }
}

// Each request has a reply.
fn is_answered(history: &History) -> bool
    ensures { result ≡ answers.is_answered history.now }
{
    are_answered(history.sent(Actor::P))
        && are_answered(history.sent(Actor::A))
        && are_answered(history.sent(Actor::B))
}

fn are_answered(sent: &[Sent]) -> bool
    ensures { result ≡ histories.are_answered sent.now }
{
    sent.iter().all(|one| one.reply.is_some())
}
