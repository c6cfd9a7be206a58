//! What follows from the definition of a step list's text, whatever the code is.
ghost use Rattle.mc_history.specs.StepText.{SpellsOneStepList};

/// A text spells at most one step list.
pub fn texts_spell_one_step_list()
    ensures { SpellsOneStepList }
{}
