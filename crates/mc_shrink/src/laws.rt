//! What follows from the definition of the parts of a timeline, whatever the code is.
ghost use Rattle.mc_shrink.specs.Parts.{PartsAreExplained};

/// If a timeline has an explanation, so has what is left of it without requests whose replies say that they changed nothing.
pub fn parts_are_explained()
    ensures { PartsAreExplained }
{}
