//! Laws: each holds of all routers.

ghost use Rattle.ospf_area.specs.Laws.{ChangesOne, DelayedNeighbours, FloodReaches, FloodsTakeTheirKey, FloodedNeighbours, KeepsGreatest, LsasAreSent, MarksOne, ReleaseTakesItsKey, ReleasedNeighbours, RequestsAreFilled, ShortAreSent, StayShort, TurnedNeighbours, TurnsTakeNothing};

/// What a release does to each neighbour.
pub fn released_neighbours()
    ensures { ReleasedNeighbours }
{}

/// What a flood does to each neighbour.
pub fn flooded_neighbours()
    ensures { FloodedNeighbours }
{}

/// A change is one of a single neighbour.
pub fn changes_one()
    ensures { ChangesOne }
{}

/// What LoadingDone and the next Requests do to each neighbour.
pub fn turned_neighbours()
    ensures { TurnedNeighbours }
{}

/// An acknowledgement that waits changes no neighbour.
pub fn delayed_neighbours()
    ensures { DelayedNeighbours }
{}

/// A release takes all instances of its key off all lists, and none of another.
pub fn release_takes_its_key()
    ensures { ReleaseTakesItsKey }
{}

/// A flood removes no instance of another key from a list.
pub fn flood_takes_its_key()
    ensures { FloodsTakeTheirKey }
{}

/// LoadingDone and Requests leave all that waits for an acknowledgement.
pub fn turns_take_nothing()
    ensures { TurnsTakeNothing }
{}

/// Whom a flooded LSA reaches.
pub fn flood_reaches()
    ensures { FloodReaches }
{}

/// The greatest number of each of the router's own keys is kept.
pub fn keeps_greatest()
    ensures { KeepsGreatest }
{}

/// A mark is one of a single key.
pub fn marks_one()
    ensures { MarksOne }
{}

/// A packet of at most `ospf_base::LARGEST_PACKET` bytes goes out.
pub fn short_are_sent()
    ensures { ShortAreSent }
{}

/// An LSA of at most `ospf_base::LARGEST_LSA` bytes goes out in an Update of its own.
pub fn lsas_are_sent()
    ensures { LsasAreSent }
{}

/// A Request asks for as many headers as fit the MTU.
pub fn requests_are_filled()
    ensures { RequestsAreFilled }
{}

/// What happens to a database leaves each of its LSAs at most `ospf_base::LARGEST_LSA` bytes
/// long, if what is installed is.
pub fn stay_short()
    ensures { StayShort }
{}
