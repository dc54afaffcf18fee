//! Laws of elections and interfaces, each proved as what a function that does nothing ensures.

ghost use Rattle.ospf_neighbour.specs.Interface.Laws.{OneResult, OrderDoesNotMatter, OwnBesideOthers, OwnMayBeElected};

/// The order of the candidates does not matter.
pub fn order_does_not_matter()
    ensures { OrderDoesNotMatter }
{}

/// An election has one result.
pub fn has_one_result()
    ensures { OneResult }
{}

/// A router and others, whose Router IDs rise and are not its own, are what `elect` asks for.
pub fn own_stands_beside_others()
    ensures { OwnBesideOthers }
{}

/// The router itself, and others whose Router IDs rise and are not its own, are
/// candidates that `Iface::event` takes.
pub fn own_may_be_elected()
    ensures { OwnMayBeElected }
{}
