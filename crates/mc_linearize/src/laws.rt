//! What follows from the definitions of explanations, whatever the code is.
ghost use Rattle.mc_linearize.specs.SearchLaws.{HopelessIsUnexplained};

/// Nothing explains a timeline on one key if no moves lead to an end, whether something was at the key at the start or not. The moves
/// give no numbers: an item is marked with the number that a `gets` showed of it.
pub fn hopeless_is_unexplained()
    ensures { HopelessIsUnexplained }
{}
