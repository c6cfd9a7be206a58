//! What is so of every printed script.

ghost use Rattle.mc_script_text.specs.PrintedScript.{PrintedScriptsAreSpelled, PrintedScriptsAreReadAgain};

/// A script is spelled by the text that is printed of it.
pub fn printed_scripts_are_spelled()
    ensures { PrintedScriptsAreSpelled }
{}

/// A script that is read from the text that was printed of one is the same.
pub fn printed_scripts_are_read_again()
    ensures { PrintedScriptsAreReadAgain }
{}
