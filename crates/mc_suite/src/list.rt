//! The races as a person reads them: their names, and their scripts.

use crate::race::{race_named, races};
use crate::text::push_all;
use std::alloc::{AllocError, Global};

/// A paragraph for each race: its name, what a server that has it does wrong, and the verbs of its scripts.
///
/// # Errors
///
/// That there is no memory.
pub fn list_text(alloc: Global) -> Result<String, AllocError> {
    let mut text = String::new(alloc);
    'races: for race in races() {
        let row = [race.name, "\n  ", race.sentence, "\n  ", race.verbs, "\n"];
        push_all(&mut text, &row)?;
    }
    Ok(text)
}

/// The scripts of the race of this name, one after another, if there is such a race.
///
/// # Errors
///
/// That there is no memory.
pub fn scripts_text(alloc: Global, name: &str) -> Result<Option<String>, AllocError> {
    let Some(race) = race_named(name) else {
        return Ok(None);
    };
    let mut text = String::new(alloc);
    'scripts: for (index, script) in race.scripts.iter().enumerate() {
        let before = if index > 0 { "\n# " } else { "# " };
        push_all(
            &mut text,
            &[before, race.name, ": ", race.sentence, "\n", script],
        )?;
    }
    Ok(Some(text))
}
