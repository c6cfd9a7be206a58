//! What follows for the cuts of a history. Each function here does nothing: its contract is a law, which callers cite.
ghost use Rattle.mc_why.specs.CutLaws as laws;

/// A cut of a history is a history.
pub fn cuts_are_histories()
    ensures { laws.CutsAreHistories }
{}

/// The cut after the last place is the whole history.
pub fn last_cut_is_whole()
    ensures { laws.LastCutIsWhole }
{}

/// Where notes are kept, each cut of a history that has an explanation has one.
pub fn cuts_are_explained()
    ensures { laws.CutsAreExplained }
{}

/// There is at most one place from which on nothing explains a history.
pub fn places_are_one()
    ensures { laws.PlacesAreOne }
{}

/// Where notes are kept, a reply stands at the place from which on nothing explains a history.
pub fn replies_stand_at_places()
    ensures { laws.RepliesStandAtPlaces }
{}
