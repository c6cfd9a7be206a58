//! What follows from the rules of a history. Each function here does nothing: its contract is a law, which callers cite.
ghost use Rattle.mc_model.specs.HistoryLaws as laws;

/// A history without its last request is a history.
#[tactic(auto, using(crate::proofs::Prefixes::history_before))]
pub fn prefixes_are_histories()
    ensures { laws.PrefixesAreHistories }
{}

/// The requests before any place of a history are a history.
#[tactic(auto, using(crate::proofs::Prefixes::history_before_place))]
pub fn places_end_histories()
    ensures { laws.PlacesEndHistories }
{}

/// A request has no fault exactly if it is not late and the sections with it are a history.
#[tactic(auto, using(crate::proofs::Faults::no_fault, crate::proofs::Faults::no_fault_of))]
pub fn faultless_make_histories()
    ensures { laws.FaultlessMakeHistories }
{}

/// Sections that have a first fault are no history.
pub fn faulty_are_no_histories()
    ensures { laws.FaultyAreNoHistories }
{}

/// Sections that are no history have a first fault.
#[tactic(auto, using(crate::proofs::FirstFaults::first_fault))]
pub fn others_have_a_first_fault()
    ensures { laws.OthersHaveAFirstFault }
{}

/// Sections have at most one first fault.
pub fn first_faults_are_one()
    ensures { laws.FirstFaultsAreOne }
{}
