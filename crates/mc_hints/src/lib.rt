//! What a person reads of a refused input: why it is refused, and on request the line at fault with a caret, and what was expected there.
//!
//! Below it stand the readers of histories, scripts, step lists and images, and `mc_verify`: a `Refused` is what one of these found.
//! The crate above uses one contract: `refusal_with_hint` writes the text of the refusal (`specs/Refusals.antt`), and after it the hint
//! that it is given. A hint is what `hint` answers: it is empty unless it is asked for, and of its words nothing is promised.
#![tactic(auto)]

mod caret;
mod hints;
mod history_sentence;
mod refusal;
mod refused;
mod script_sentence;
mod sentence;
mod shown_run;
mod spot;
mod unsound;

pub use hints::hint;
pub use refusal::refusal_with_hint;
pub use refused::{LoadFault, Refused};
