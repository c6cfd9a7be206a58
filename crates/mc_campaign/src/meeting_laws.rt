//! What is so of the lots by which runs meet.
ghost use Rattle.mc_campaign.specs.Meetings.{LatenessIsShared, MeetingsAreShared};

/// Of eight lots six meet before each request and two before none, where it is drawn, and in either case half of them run A on the new
/// thread. Of four lots two have no late branch, one has A, and one B.
pub fn lots_are_shared()
    ensures meetings { MeetingsAreShared }
    ensures lateness { LatenessIsShared }
{}
