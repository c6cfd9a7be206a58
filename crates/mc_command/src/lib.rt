//! Runs against servers: of a script, once or repeatedly, of a campaign's jobs, and of a selftest; and a server of the program's own.
//!
//! Below it stand `mc_answers`, with streams, statuses and the code of inputs, `mc_run`, which runs code over three lanes, `mc_campaign`
//! and `mc_server`. `mc_connect` makes connections: over its `Network` `run_target` answers a line of `run`, and tells a `RunObserver` of
//! each run; `run_command` is that for one run at a server alone, over TCP. `serve_connections` answers a line of `serve`,
//! `run_campaign_at` one of `campaign`, and `run_selftest` one of `selftest`. What each writes is right, whatever a server answers
//! (`specs/RepeatAnswers.antt`, `specs/CampaignReports.antt`, `specs/ServeAnswers.antt`, `specs/SelftestAnswers.antt`).
#![tactic(auto)]

mod both_read;
mod campaigning;
mod evidence;
mod gathered;
mod job_connector;
mod job_totals;
mod keeping;
mod lanes;
mod meeting;
mod overlap;
mod playing;
mod progress;
mod renaming;
mod repeated;
mod repeating;
mod replies;
mod reports;
mod run;
mod run_teller;
mod selftest;
mod servers;
mod serving;
mod showing;
mod shrinking;
mod statistics;
mod tally;
mod target_code;
mod totals;
mod watching;

pub use campaigning::run_campaign_at;
pub use evidence::failure_text;
pub use keeping::play_kept;
pub use meeting::seed_by;
pub use playing::{run_command, run_target};
pub use progress::Progress;
pub use renaming::leaves_request;
pub use replies::Replies;
pub use run::{Played, Remarks};
pub use run_teller::{RunObserver, RunTeller, Unobserved};
pub use selftest::run_selftest;
pub use servers::servers_of;
pub use serving::{Told, serve_connections};
pub use statistics::Statistics;
