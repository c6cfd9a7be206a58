//! Numbers and times as a person reads them.

use std::fmt::{Display, Error, Formatter, Write};
use std::time::Duration;

/// A number with a comma between each three digits.
#[derive(Clone, Copy)]
pub(crate) struct Grouped(pub(crate) u64);

impl Display for Grouped {
    fn fmt<W: Write>(&self, f: &mut Formatter<W>) -> Result<(), Error> {
        let number = self.0;
        let (thousands, rest) = (number / 1000 % 1000, number % 1000);
        let millions = number / 1_000_000;
        if millions > 0 {
            write!(f, "{millions},{thousands:03},{rest:03}")
        } else if thousands > 0 {
            write!(f, "{thousands},{rest:03}")
        } else {
            write!(f, "{rest}")
        }
    }
}

/// A time in seconds, with one place.
#[derive(Clone, Copy)]
pub(crate) struct Tenths(pub(crate) Duration);

impl Display for Tenths {
    fn fmt<W: Write>(&self, f: &mut Formatter<W>) -> Result<(), Error> {
        let tenths = self.0.as_millis() / 100;
        write!(f, "{}.{} s", tenths / 10, tenths % 10)
    }
}

/// A time in milliseconds, with one place.
#[derive(Clone, Copy)]
pub(crate) struct Milliseconds(pub(crate) Duration);

impl Display for Milliseconds {
    fn fmt<W: Write>(&self, f: &mut Formatter<W>) -> Result<(), Error> {
        let tenths = self.0.as_micros() / 100;
        write!(f, "{}.{} ms", tenths / 10, tenths % 10)
    }
}
