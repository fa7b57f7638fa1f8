//! Laws of walks, each on a function that does nothing: call it, and its clause is a fact of the call.
ghost use Rattle.switch_engine.specs.OneWalk.{WalksAreOne};
ghost use Rattle.switch_engine.specs.Plain.{PlainWalks};

/// Two walks of one packet through flows of which those that match and are unbeaten have equal actions: with equal choices they have
/// equal effects and leave equal zones, and they have equal lengths.
pub fn one_walk()
    ensures { WalksAreOne }
{}

/// A walk through flows without actions on connections, addresses or headers and without patches leaves the zones as they were,
/// and is a plain one.
pub fn plain_walks()
    ensures { PlainWalks }
{}
