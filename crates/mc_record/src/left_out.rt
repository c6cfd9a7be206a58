//! Which requests weren't noted.

/// How many requests were left out, and why.
#[derive(Clone, Copy)]
pub struct LeftOut {
    /// Their keys had no timeline, and they didn't start one.
    pub not_started: u64,
    /// Retrievals of several keys.
    pub several_keys: u64,
    /// Those that have no reply.
    pub without_reply: u64,
    /// Those that a timeline has no words for: a time of expiry, a long body, or another command.
    pub other: u64,
    /// Those that a timeline with them would have been none: a cas by a number that wasn't shown, or one request too many.
    pub against_rules: u64,
    /// There was no client's number left.
    pub without_number: u64,
}

impl LeftOut {
    /// How many were left out for each reason, and the reason in words.
    pub fn reasons(&self) -> [(u64, &'static str); 6] {
        [
            (self.not_started, "the key hadn't started"),
            (self.several_keys, "a get of several keys"),
            (self.without_reply, "no reply"),
            (self.other, "another command, an expiry or a long body"),
            (self.against_rules, "against the rules of a history"),
            (self.without_number, "no client number was left"),
        ]
    }

    /// None.
    pub(crate) fn none() -> Self {
        LeftOut {
            not_started: 0,
            several_keys: 0,
            without_reply: 0,
            other: 0,
            against_rules: 0,
            without_number: 0,
        }
    }
}

/// Why a request is left out.
#[derive(Clone, Copy)]
pub(crate) enum Reason {
    NotStarted,
    SeveralKeys,
    WithoutReply,
    Other,
    AgainstRules,
    WithoutNumber,
}

impl LeftOut {
    /// One more was left out.
    pub(crate) fn add(&mut self, reason: Reason) {
        let count = match reason {
            Reason::NotStarted => &mut self.not_started,
            Reason::SeveralKeys => &mut self.several_keys,
            Reason::WithoutReply => &mut self.without_reply,
            Reason::Other => &mut self.other,
            Reason::AgainstRules => &mut self.against_rules,
            Reason::WithoutNumber => &mut self.without_number,
        };
        *count = count.saturating_add(1);
    }
}
