//! What follows from where a machine stands, whatever the code is.
ghost use Rattle.mc_machine.specs.Laws.{EndsStartBranches, OutstandingIsNamed};

/// A branch may start from the numbers that P has at its end.
#[tactic(auto, using(crate::proofs::Standing::ends_start_branches))]
pub fn ends_start_branches()
    ensures { EndsStartBranches }
{}

/// An outstanding call names a template of the code.
#[tactic(auto, using(crate::proofs::Standing::outstanding_is_named))]
pub fn outstanding_is_named()
    ensures { OutstandingIsNamed }
{}
