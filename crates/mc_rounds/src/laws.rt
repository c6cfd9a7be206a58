//! What holds of the requests of all rounds.
ghost use Rattle.mc_rounds.specs.Laws.{RequestsFit, SeedsTellRequests};

/// Each request of a client is on one of the keys, its body has at most 8 bytes, words spell it, and the number of a `cas` was heard.
pub fn requests_fit()
    ensures { RequestsFit }
{}

/// Whatever a client hears, the same seed gives the same requests, but that a `cas` has a number that was heard, or is a `gets`.
pub fn seeds_tell_requests()
    ensures { SeedsTellRequests }
{}
