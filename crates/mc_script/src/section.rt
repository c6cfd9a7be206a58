//! The sections of a script: budgets, and labels.

use crate::Step;
use mc_protocol::Bytes;
use std::marker::Model;

/// What a section may send at most.
#[derive(Clone, Copy, Debug, PartialEq, Eq)]
pub struct Budget {
    /// Requests, the clearing deletes of the prefix among them.
    pub requests: u32,
    /// Bytes of requests.
    pub bytes: u32,
}

/// The name of a place in a section.
#[derive(Debug, Drop)]
pub struct Label {
    pub name: Bytes,
    /// How many of the section's steps stand before it.
    pub place: usize,
}

/// One section of a script. Contracts see both vectors as lists.
#[derive(Debug, Drop)]
pub struct Section {
    /// The most that it may send.
    pub budget: Budget,
    /// In the order in which they stand.
    pub steps: Vec<Step>,
    /// In the order of the text.
    pub labels: Vec<Label>,
}

impl Model for Section {
    ghost use Rattle.mc_script.specs.Script as spec;

    ghost Value = { spec.Section };

    ghost view = { λ s. record { budget = s.budget; steps = s.steps.items; labels = s.labels.items } };
}
