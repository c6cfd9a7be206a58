//! One value for each section of a run.

ghost use Rattle.std.specs.Prelude.{◌≡◌};
ghost use Rattle.mc_protocol.specs.Sections as sections;

use crate::Actor;

/// A value for each section of a run: what one section has, or what is known of it.
#[derive(Clone, Copy, Debug, Drop)]
pub struct Sections<T> {
    /// The prefix's.
    pub p: T,
    /// The first branch's.
    pub a: T,
    /// The second branch's.
    pub b: T,
}

impl<T> Sections<T> {
    /// The section's value.
    pub fn get(&self, actor: Actor) -> &T
        ensures { result.now ≡ sections.section_of self.now actor }
    {
        match actor {
            Actor::P => &self.p,
            Actor::A => &self.a,
            Actor::B => &self.b,
        }
    }
}
