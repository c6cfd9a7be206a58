//! What answers whether smaller scripts are still unexplained.

use mc_generate::Tester;
use mc_protocol::{Actor, OutOfMemory};
use mc_sound::Checked;
use std::alloc::AllocError;

/// Gives these answers in turn, and finds no memory after the last.
#[derive(Drop)]
pub(crate) struct Answers<'a> {
    pub(crate) answers: &'a [bool],
    pub(crate) asked: usize,
}

impl Tester for Answers<'_> {
    fn unexplained(&mut self, _checked: &Checked) -> Result<bool, OutOfMemory> {
        let answer = self.answers.get(self.asked);
        self.asked = self.asked.saturating_add(1);
        match answer {
            Some(answer) => Ok(*answer),
            None => Err(AllocError),
        }
    }
}

/// Says that code is unexplained whose sections P, A and B have at least these numbers of instructions.
#[derive(Drop)]
pub(crate) struct Needs {
    pub(crate) instructions: [usize; 3],
}

impl Tester for Needs {
    fn unexplained(&mut self, checked: &Checked) -> Result<bool, OutOfMemory> {
        let code = checked.code();
        let [p, a, b] = self.instructions;
        Ok(
            p <= code.section(Actor::P).len()
                && a <= code.section(Actor::A).len()
                && b <= code.section(Actor::B).len(),
        )
    }
}
