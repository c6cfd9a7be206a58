//! Campaigns: the jobs that workers run, what they came to, and what is written of that.
//!
//! Below it stand `mc_generate`, which makes the code of a job, and `mc_run`, by which the job is run. The crates above use what a job
//! may come to (`specs/Outcomes.antt`), how its branches meet (`specs/Meetings.antt`), what is written of a report and the exit status
//! after it (`specs/ReportText.antt`, `specs/ReportStatus.antt`).
#![tactic(auto)]

mod bounds;
mod campaign;
mod connector;
mod exit_status;
mod job;
mod keeper;
mod lateness;
mod meeting;
mod meeting_laws;
mod message;
mod outcome;
mod report_lines;
mod report_text;
mod running;
mod standing;
mod turns;
mod watcher;
mod window;
mod workers;

pub use bounds::Bounds;
pub use campaign::{Campaign, CampaignError};
pub use connector::Connector;
pub use exit_status::{job_status, report_status};
pub use job::{RECEIVED_LIMIT, play_job};
pub use keeper::{Keeper, Results};
pub use mc_generate::{GenFault, Tester, generate, generate_script, shrink};
pub use meeting::draw_meet;
pub use meeting_laws::lots_are_shared;
pub use outcome::{JobOutcome, JobResult, Report};
pub use report_lines::ReportLines;
pub use report_text::{print_brief_report, print_report};
pub use standing::Standing;
pub use watcher::{Unwatched, Watcher};
pub use workers::{run_campaign, run_jobs};
