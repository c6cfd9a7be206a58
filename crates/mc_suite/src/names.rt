//! Names that keys are put under, so that two tests at once share none.

use mc_command::seed_by;
use mc_generate::draw;
use mc_settings::Namespace;
use rand_pcg::Pcg32;
use std::alloc::{AllocError, Global};
use std::rt::Clock;

// The characters of a name. Each has five bits, all have 65.
const LENGTH: usize = 13;

const CHARACTERS: &[u8; 32] = b"abcdefghijklmnopqrstuvwxyz234567";

/// The most bytes of a name that the line gives. With it, the name here and two dashes the key of a generated script has 40 bytes at most.
pub const LONGEST_NAME: usize = 16;

// The generator's sequence.
const SEQUENCE: u64 = 117;

/// The name that keys are put under now.
#[derive(Drop)]
pub(crate) struct Names {
    generator: Pcg32,
    characters: [u8; LENGTH],
    /// How many names there were before it.
    pub(crate) count: u64,
}

impl Names {
    /// The first name, drawn by the clock.
    pub(crate) fn new<R: Clock>(rt: &R) -> Names {
        let mut names = Names {
            generator: Pcg32::new(seed_by(rt), SEQUENCE),
            characters: [b'a'; LENGTH],
            count: 0,
        };
        names.draw();
        names
    }

    /// Draws another name.
    pub(crate) fn renew(&mut self) {
        self.count = self.count.saturating_add(1);
        self.draw();
    }

    fn draw(&mut self) {
        'characters: for character in self.characters.iter_mut() {
            *character = CHARACTERS[(draw(&mut self.generator, 32) % 32) as usize];
        }
    }

    /// The name, and behind it the one that was given.
    pub(crate) fn with(
        &self,
        alloc: Global,
        given: Option<&Namespace<'_>>,
    ) -> Result<Vec<u8>, AllocError> {
        let mut name = Vec::from_slice(alloc, &self.characters)?;
        if let Some(given) = given {
            name.push(b'-')?;
            name.extend_from_slice(given.as_slice())?;
        }
        Ok(name)
    }

    /// The name.
    pub(crate) fn name(&self) -> Option<Namespace<'_>> {
        Namespace::new(&self.characters)
    }
}
