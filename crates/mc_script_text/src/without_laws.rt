//! What is so of a script less one of its steps.

ghost use Rattle.mc_script_text.specs.WithoutStep.{StepsLeaveTheOtherLines};

/// A script less a step has the lines of the script but for that of the step.
pub fn steps_leave_the_other_lines()
    ensures { StepsLeaveTheOtherLines }
{}
