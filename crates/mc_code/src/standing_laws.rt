//! What follows from the definitions of where a section stands and which calls it makes, whatever the code is.
ghost use Rattle.mc_code.specs.StandingLaws.{CallsOnce, CallsOpen, CallsStand, LeavesOnce, RightRunsAreCalled};

/// P leaves the same variables each time that it is done after the same exchanges.
pub fn leaves_once()
    ensures { LeavesOnce }
{}

/// After the same exchanges a section makes the same call.
pub fn calls_once()
    ensures { CallsOnce }
{}

/// What a section has sent, and the call that it is about to make, are those of a path to a send.
pub fn calls_open()
    ensures { CallsOpen }
{}

/// After the calls that a section makes, and their replies, it stands somewhere.
pub fn calls_stand()
    ensures { CallsStand }
{}

/// Where a section comes to nothing wrong, it makes a call for each of its exchanges.
pub fn right_runs_are_called()
    ensures { RightRunsAreCalled }
{}
