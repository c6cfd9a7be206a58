//! What happens in three sections of sound code: the world that follows it, event by event.
//!
//! Below it stand `mc_protocol`, which has the events, `mc_script`, `mc_code`, `mc_sound`, `mc_machine` and `mc_model`. A section's log is
//! its calls with their replies (`specs/Logs.antt`); a world has the log of each section, and the notes of all events that it took, in
//! order (`specs/Worlds.antt`). Which events it takes, what each does, and what the fold of a list of events is, stands in
//! `specs/Steps.antt`; that each fold is safe, whatever the events are, in `specs/Safety.antt`; and the history of a world in
//! `specs/Histories.antt`. The crate above uses `World::step` and `drive`, whose worlds are such folds, and `World::replay`, which leads
//! a world by its notes once more. The text of a list of events stands in `mc_history`.
#![tactic(auto)]

mod driving;
mod ending;
mod history;
mod laws;
mod replaying;
mod section;
mod step_refusal;
mod world;

pub use driving::drive;
pub use ending::Ending;
pub use laws::{
    ends_once, folds_are_recorded, folds_are_safe, folds_are_within_room, folds_once, folds_repeat,
};
pub use mc_protocol::Event;
pub use step_refusal::StepRefusal;
pub use world::World;
