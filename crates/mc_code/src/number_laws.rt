//! What follows from the definition of runs for the numbers that variables have, whatever the code is.
ghost use Rattle.mc_code.specs.NumberLaws.{EdgesLeadAlike, KindsFollowEdges, NumbersWereShown};

/// The cas unique that a variable has was there at the start, or a `gets` of its key showed it.
pub fn numbers_were_shown()
    ensures { NumbersWereShown }
{}

/// In code that leads forwards the kinds of numbers follow from what is sent and the classes of the replies.
pub fn kinds_follow_edges()
    ensures { KindsFollowEdges }
{}

/// Where a run leads, other replies of the same classes lead too, from variables of the same kinds to such variables.
pub fn edges_lead_alike()
    ensures { EdgesLeadAlike }
{}
