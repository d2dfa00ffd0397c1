//! The law of mergings: a collector's answer doesn't depend on the order in which the planners' messages
//! arrive.

ghost use Rattle.plan_collect.specs.Merging.{AcceptsMergings};

/// States the law of mergings: in whatever order the messages of all planners arrive, a new collector accepts
/// them all and is complete, or it rejects one with `TooMany`. No other error comes.
///
/// The function does nothing: its contract is the law.
pub fn accepts_every_merging()
    ensures { AcceptsMergings }
{}
