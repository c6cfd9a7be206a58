//! Judges what was recorded, beside what goes on.
use crate::piece::Piece;
use crate::shared::Shared;
use std::alloc::Global;
use std::rt::Clock;
use std::sync::Wait;
use std::thread;
use std::time::Duration;

/// How long it is waited before the next look at what is there, in milliseconds.
const PAUSE: u64 = 2;

/// Judges timelines until no other comes.
pub(crate) fn judge_all<R: Wait + Clock>(rt: &R, alloc: Global, shared: &Shared<'_>) {
    for _ in rt.forever() {
        let is_last = shared.news.lock(rt).is_last;
        judge_rest(rt, alloc, shared);
        if is_last {
            return;
        }
        thread::sleep(rt, Duration::from_millis(PAUSE));
    }
}

/// Judges the timelines that have ended.
pub(crate) fn judge_rest<R: Wait>(rt: &R, alloc: Global, shared: &Shared<'_>) {
    for _ in rt.forever() {
        let piece = shared.notebook.lock(rt).take_piece();
        match piece {
            Some(piece) => judge_one(rt, alloc, shared, &piece),
            None => return,
        }
    }
}

// Judges one timeline. Nobody else writes what was judged.
fn judge_one<R: Wait>(rt: &R, alloc: Global, shared: &Shared<'_>, piece: &Piece) {
    let (mut judged, has_found) = {
        let news = shared.news.lock(rt);
        (news.judged, news.has_found)
    };
    let found = judged.judge(alloc, piece, !has_found);
    let mut news = shared.news.lock(rt);
    news.judged = judged;
    if found.is_some() {
        news.has_found = true;
        news.found = found;
    }
}
