//! Timelines that ended.
use mc_model::Note;
use mc_protocol::Bytes;
use mc_timeline::Timeline;

/// A timeline of one key that ended. Its requests have the key's name in the text.
#[derive(Drop)]
pub(crate) struct Piece {
    /// The number in the key's name: 17 if it is `k17`.
    pub(crate) name: u64,
    pub(crate) key: Bytes,
    pub(crate) timeline: Timeline,
}

impl Piece {
    /// How many requests it has.
    pub(crate) fn requests(&self) -> u64 {
        let mut count = 0u64;
        for (_client, note) in self.timeline.notes() {
            if let Note::Begin(_) = note {
                count = count.saturating_add(1);
            }
        }
        count
    }
}
