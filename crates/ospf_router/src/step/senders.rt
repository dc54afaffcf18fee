//! Laws of the sender of a packet that is not dropped: each holds of all
//! links, neighbours and packets.

ghost use Rattle.ospf_router.specs.AreaStep.Senders.{SendersAreNeighbours, NotDroppedIsTaken};

/// A sender that its address finds, and that has the packet's Router ID, is
/// the neighbour of that Router ID.
pub fn senders_are_neighbours()
    ensures { SendersAreNeighbours }
{}

/// A packet that is not dropped has what it needs: room for a new neighbour, or the
/// neighbour in the state that accepts it.
pub fn not_dropped_is_taken()
    ensures { NotDroppedIsTaken }
{}
