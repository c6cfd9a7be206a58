//! What the commands print, in the forms that other tools read: JSON, EDN and JUnit's XML.
//!
//! Below it stand `mc_history`, which reads and prints the texts of histories, and the kit's writer of JSON. The crates above give it a
//! text that was printed: `convert` finds a history in it, and the others take it, or a timeline, as a command wrote it. So a form says
//! nothing that the text doesn't say. That each call is safe and ends is all that is proved; what the forms have is tested.
#![tactic(auto)]

mod campaign;
mod converted;
mod edn;
mod escape;
mod excerpt;
mod history_json;
mod jobs;
mod json_text;
mod junit;
mod printed;
mod refusal_json;
mod run_json;

pub use campaign::{CampaignArguments, campaign_json};
pub use converted::{Converted, Form, convert, convert_timeline, report_json};
pub use escape::escaped;
pub use excerpt::{Excerpt, find_history};
pub use junit::campaign_junit;
