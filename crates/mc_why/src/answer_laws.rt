//! What follows for the moves of an explanation. Each function here does nothing: its contract is a law, which callers cite.
ghost use Rattle.mc_why.specs.AnswerLaws as laws;

/// What a cache holds after the first moves of an explanation is what it holds after as many steps of the replay that explains the
/// history.
pub fn moves_are_replayed()
    ensures { laws.MovesAreReplayed }
{}

/// Each request of the order that explains a history is its section's next one after the moves before it.
pub fn turns_come_next()
    ensures { laws.TurnsComeNext }
{}
