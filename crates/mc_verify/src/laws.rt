//! What follows from the definition of a counterexample, whatever the code is.
ghost use Rattle.mc_verify.specs.Shown.{ShownIsFault};

/// What a list of replies shows is a fault of the code.
pub fn shown_is_fault()
    ensures { ShownIsFault }
{}
