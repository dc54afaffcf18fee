//! Laws: each holds of all listings.

ghost use Rattle.ospf_inspect.specs.Laws.{WaysArrive};

/// A path that `path_text` prints, from a router that has a route for the address, arrives at the
/// prefix of this route, at its cost: no other router is without a route, and no path turns.
pub fn ways_arrive()
    ensures { WaysArrive }
{}
