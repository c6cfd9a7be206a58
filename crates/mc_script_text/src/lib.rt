//! The text of scripts: how it is read and printed, and what is wrong with a text that spells no script.
//!
//! Below it stand `mc_protocol` and `mc_script`. The crates above use what script a text spells (`specs/ScriptText.antt`), what
//! script the front of a text spells, if something may follow it (`specs/FrontText.antt`), and the text that is printed of a
//! script (`specs/PrintedScript.antt`), also of one less a step (`specs/WithoutStep.antt`).
#![tactic(auto)]

mod declarations;
mod entry;
mod fault;
mod fields;
mod front;
mod lines;
mod marks;
mod misread;
mod print_laws;
mod print_marks;
mod print_script;
mod print_section;
mod read_entry;
mod resolve;
mod section_text;
mod step_lines;
mod text;
mod text_laws;
mod without_laws;
mod word_fault;
mod words;

pub use fault::{ScriptFault, ScriptKind};
pub use front::parse_front;
pub use misread::{Expected, Misread, Sort};
pub use print_laws::{printed_scripts_are_read_again, printed_scripts_are_spelled};
pub use print_script::print;
pub use step_lines::StepLines;
pub use text::{parse, parse_lines};
pub use text_laws::{fronts_spell_one_script, texts_spell_one_script};
pub use without_laws::steps_leave_the_other_lines;
