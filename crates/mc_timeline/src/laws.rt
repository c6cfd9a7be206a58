//! What follows from the definitions of timelines and explanations, whatever the code is.
ghost use Rattle.mc_timeline.specs.Laws.{
  Locality,
  LocalityOfTimelines,
  RestrictionsAreTimelines,
  RestrictionsKeepOrder,
  TimelinesAreInOrder,
};
ghost use Rattle.mc_timeline.specs.{Queues.OnlyTheNextMatter, Queues.TimelinesAreWalked, Walks.LinearizationsAreWalks};

/// Operations have an explanation exactly if those on each of their keys have one.
pub fn locality()
    ensures { Locality }
{}

/// A timeline has an explanation exactly if its restriction to each of its keys has one (Herlihy and Wing, 1990).
pub fn locality_of_timelines()
    ensures { LocalityOfTimelines }
{}

/// A timeline is in order: a client begins a request only if it waits for no reply, and gets one only if it waits.
pub fn timelines_are_in_order()
    ensures { TimelinesAreInOrder }
{}

/// The restriction of a timeline to a key is a timeline.
pub fn restrictions_are_timelines()
    ensures { RestrictionsAreTimelines }
{}

/// The restriction to a key of notes that are in order is in order.
pub fn restrictions_keep_order()
    ensures { RestrictionsKeepOrder }
{}

/// The linearizations are the orders in which each operation in turn began before any of those that are left was answered.
pub fn linearizations_are_walks()
    ensures { LinearizationsAreWalks }
{}

/// If each client sends one request after another, an order is a linearization exactly if each operation in turn is the next of
/// its client, and began before the next operation of any client was answered.
pub fn only_the_next_matter()
    ensures { OnlyTheNextMatter }
{}

/// The linearizations of a timeline are the orders in which each operation in turn is the next of its client, and began before
/// the next operation of any client was answered.
pub fn timelines_are_walked()
    ensures { TimelinesAreWalked }
{}
