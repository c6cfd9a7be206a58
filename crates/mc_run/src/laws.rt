//! Laws of runs.
ghost use Rattle.mc_run.specs.Laws as law;

/// In a run the branches have begun, unless P failed.
pub fn branches_begin_unless_p_fails()
    ensures { law.BranchesBeginUnlessPFails }
{}
