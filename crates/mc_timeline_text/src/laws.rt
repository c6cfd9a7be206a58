//! What follows from the definition of a timeline's text, whatever the code is.
ghost use Rattle.mc_timeline_text.specs.TimelineTexts.{SpellsOneTimeline};

/// A text spells at most one timeline, with at most one explanation.
pub fn texts_spell_one_timeline()
    ensures { SpellsOneTimeline }
{}
