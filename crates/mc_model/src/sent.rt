//! What a section sends and receives.
use mc_protocol::{Reply, Request};

/// A request that a section sent, and its reply if one came.
#[derive(Debug, Drop)]
pub struct Sent {
    pub request: Request,
    pub reply: Option<Reply>,
}
