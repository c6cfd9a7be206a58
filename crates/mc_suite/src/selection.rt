//! Which races are tried.

use crate::race::{Race, race_named};

/// The races that `--only` and `--skip` name, with commas between.
#[derive(Clone, Copy, Drop)]
pub(crate) struct Selection<'a> {
    pub(crate) only: Option<&'a str>,
    pub(crate) skip: Option<&'a str>,
}

impl Selection<'_> {
    /// Whether this race is tried.
    pub(crate) fn has(&self, race: &Race) -> bool {
        let is_wanted = match self.only {
            Some(names) => is_among(race.name, names),
            None => true,
        };
        let is_left_out = match self.skip {
            Some(names) => is_among(race.name, names),
            None => false,
        };
        is_wanted && !is_left_out
    }
}

fn is_among(name: &str, names: &str) -> bool {
    names.split(',').any(|one| one == name)
}

/// The first of these names, with commas between, that no race has.
pub fn unknown_race(names: &str) -> Option<&str> {
    names.split(',').find(|name| race_named(name).is_none())
}
