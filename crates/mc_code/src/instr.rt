//! Instructions, and the calls that they make.
ghost use Rattle.std.specs.Prelude.{◌≡◌};
ghost use Rattle.mc_code.specs.Paths as paths;

use crate::CLASS_COUNT;
use mc_protocol::Class;

/// An instruction of a section. A place in a section is the index of an instruction.
#[derive(Clone, Copy, Debug, PartialEq, Eq)]
pub enum Instr {
    /// Sends a request, and waits for its reply.
    Send {
        /// The index of the request's template.
        template: u8,
        /// The place to which a reply of each class leads, in the order of the classes: `Stored` is the first, and
        /// `NotNumber` the last.
        next: [u8; CLASS_COUNT],
    },
    /// Gives the variable with this index the number that the section's last reply showed.
    Bind(u8),
    /// Goes to this place.
    Goto(u8),
    /// Ends the section.
    Halt,
}

/// A request that a section sends.
#[derive(Clone, Copy, Debug, PartialEq, Eq)]
pub struct Call {
    /// The index of the template.
    pub template: u8,
    /// The number of a `cas`, an `incr` or a `decr`: the template's own, or that of its variable. Otherwise 0.
    pub number: u64,
}

/// The place to which a reply of the class leads after a send with these places.
pub fn entry(next: &[u8; CLASS_COUNT], class: Class) -> u8
    ensures { result ≡ paths.entry_of next.now class }
{
    next[usize::from(class.index())]
}
