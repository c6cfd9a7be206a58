//! What follows from the definitions of worlds and folds, whatever the code and the events are.
ghost use Rattle.mc_core.specs.Laws as law;

/// The fold of the notes of a fold is the same world, and refuses none of them.
pub fn folds_repeat()
    ensures { law.FoldsRepeat }
{}

/// A list of events has one fold.
pub fn folds_once()
    ensures { law.FoldsOnce }
{}

/// A section stands in one way.
pub fn ends_once()
    ensures { law.EndsOnce }
{}

/// The sections of a fold in sound code run without a wrong, find the flags as they need them in every merge, stay within their
/// budgets, and do nothing after a fault.
pub fn folds_are_safe()
    ensures { law.FoldsAreSafe }
{}

/// A fold in sound code has no more calls and notes than a world has room for.
pub fn folds_are_within_room()
    ensures { law.FoldsAreWithinRoom }
{}

/// What is recorded of a fold in sound code spells its sections, and is a history.
pub fn folds_are_recorded()
    ensures { law.FoldsAreRecorded }
{}
