//! Laws of calls on lanes.
ghost use Rattle.mc_lane.specs.Laws as law;

/// A call on an open lane answers the reply that was received whole, and no other: it says neither that what came is no reply,
/// nor that no whole reply came. Only where the request was not written, or where there was no memory, is it not answered.
pub fn whole_reply_is_answered()
    ensures { law.WholeReplyIsAnswered }
{}
