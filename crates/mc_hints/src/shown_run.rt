//! Which step of a script asked for each reply of the run that shows why its code isn't sound.

use mc_protocol::{Actor, Class};
use mc_script::{Script, Step};

/// The step that asked for the reply with this index in the run, by its index among the steps of its section. The first replies of a run
/// are to the deletes of the keys before P's steps, and no step asked for those.
pub fn asking_step(script: &Script, run: &[(Actor, Class)], index: usize) -> Option<usize> {
    let (section, _) = run.get(index)?;
    let mut step = request_from(script, *section, 0)?;
    for (actor, class) in run.iter().take(index).skip(script.keys().len()) {
        if actor == section {
            let place = place_after(script, *section, step, *class);
            step = request_from(script, *section, place)?;
        }
    }
    Some(step)
}

// The first request that the section comes to from this place, by its index among the steps.
fn request_from(script: &Script, section: Actor, place: usize) -> Option<usize> {
    let mut at = place;
    // Each step leads further down, so there are no more of them.
    for _ in script.steps(section) {
        match script.steps(section).get(at)? {
            Step::Send { .. } => return Some(at),
            Step::Bind(_) => at = at.saturating_add(1),
            Step::Goto(label) => at = script.labels(section).get(*label)?.place,
            Step::Halt => return None,
        }
    }
    None
}

// Where the section goes on after the step's request was answered by a reply of this class.
fn place_after(script: &Script, section: Actor, step: usize, class: Class) -> usize {
    let label = match script.steps(section).get(step) {
        Some(Step::Send { jumps, .. }) => label_on(jumps.as_slice(), class),
        _ => None,
    };
    match label.and_then(|label| script.labels(section).get(label)) {
        Some(label) => label.place,
        None => step.saturating_add(1),
    }
}

/// The label to which a reply of this class leads, by its index.
pub fn label_on(jumps: &[(Class, usize)], class: Class) -> Option<usize> {
    let (_, label) = jumps.iter().find(|(of, _)| *of == class)?;
    Some(*label)
}
