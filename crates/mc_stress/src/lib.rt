//! Rounds of many clients at a server, and the verdicts on them.
#![tactic(auto)]

mod agreement;
mod desk;
mod evidence;
mod laws;
mod meeting;
mod outcome;
mod page;
mod part;
mod played;
mod player;
mod playing;
mod requests;
mod settings;
mod stressing;
mod totals;

pub use agreement::agreed;
pub use evidence::{Evidence, Report, judge_round};
pub use laws::closed_lanes_send_nothing;
pub use outcome::{RoundClass, Standing};
pub use page::{Network, Page};
pub use played::Played;
pub use playing::{Round, RoundError, play_round};
pub use requests::sent_by;
pub use settings::{Judging, Stress};
pub use stressing::play_rounds;
