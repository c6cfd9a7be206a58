//! What follows from the definitions of calls on lanes.
ghost use Rattle.mc_stress.specs.Laws.{ClosedLanesSendNothing};

/// A call on a closed lane sends and receives nothing.
pub fn closed_lanes_send_nothing()
    ensures { ClosedLanesSendNothing }
{}
