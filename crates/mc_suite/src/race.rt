//! What a test asks a server: scripts of races, and one for each verb alone.

use crate::alone::VERBS_ALONE;
use crate::races::RACES;

/// A race, with the scripts that show it.
pub(crate) struct Race {
    pub(crate) name: &'static str,
    /// What a server that has it does wrong.
    pub(crate) sentence: &'static str,
    /// The verbs that its scripts ask, with a space between.
    pub(crate) verbs: &'static str,
    pub(crate) scripts: &'static [&'static str],
}

impl Race {
    /// Whether its scripts ask this verb.
    pub(crate) fn asks(&self, verb: &str) -> bool {
        self.verbs.split(' ').any(|asked| asked == verb)
    }
}

/// What is asked of a verb without a race.
pub(crate) struct Alone {
    pub(crate) verb: &'static str,
    pub(crate) script: &'static str,
}

/// Each race, in the order of their names. Only this function names the table: each that does takes long to prove.
pub(crate) fn races() -> &'static [Race] {
    RACES
}

/// What is asked of each verb. Only this function names the table.
pub(crate) fn verbs_alone() -> &'static [Alone] {
    VERBS_ALONE
}

/// The race of this name.
pub(crate) fn race_named(name: &str) -> Option<&'static Race> {
    races().iter().find(|race| race.name == name)
}
