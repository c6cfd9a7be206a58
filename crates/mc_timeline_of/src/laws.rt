//! Histories that keep their notes, and the timelines of the same notes. Each function here does nothing: its contract is a law,
//! which callers cite.
ghost use Rattle.mc_timeline_of.specs.SameExplanations.{ExplainedAlike, ExplanationsAreTheSame};
ghost use Rattle.mc_timeline_of.specs.{SameNotes.HistoriesAreTimelines, SameVerdicts.VerdictsAgree};

/// The notes of a history are a timeline: P, A and B are the clients 0, 1 and 2.
pub fn histories_are_timelines()
    ensures { HistoriesAreTimelines }
{}

/// An explanation explains a history exactly if, with its sections as clients, it explains the timeline of the same notes.
pub fn explanations_are_the_same()
    ensures { ExplanationsAreTheSame }
{}

/// A history has an explanation exactly if the timeline of the same notes has one.
pub fn explained_alike()
    ensures { ExplainedAlike }
{}

/// No search of a history says explained where a search of the timeline of the same notes says unexplained, or the other way round.
pub fn verdicts_agree()
    ensures { VerdictsAgree }
{}
