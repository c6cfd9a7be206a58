//! Laws of the texts of scripts.

ghost use Rattle.mc_script_text.specs.{FrontText.FrontsSpellOneScript, ScriptText.SpellsOneScript};

/// A text spells at most one script.
pub fn texts_spell_one_script()
    ensures { SpellsOneScript }
{}

/// At most one front of a text, up to and with a line `end`, spells a script, and it spells one.
pub fn fronts_spell_one_script()
    ensures { FrontsSpellOneScript }
{}
