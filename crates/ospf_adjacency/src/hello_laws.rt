//! Laws of Hellos, timers and AdjOK?: each holds of all links, neighbours and Hellos.

ghost use Rattle.ospf_adjacency.specs.HelloLaws.{PutsOne, HelloGoes, TimersGo, AdjOkGoes, NeighboursStayOfLink, ElectionsComeAbout};

/// A neighbour that is put in is found, and each other as before.
pub fn puts_one()
    ensures { PutsOne }
{}

/// By a Hello each neighbour keeps its lists or loses them, none enters
/// Exchange, and a new one has no lists.
pub fn hello_goes()
    ensures { HelloGoes }
{}

/// The timers do to neighbours what a Hello does by `hello_goes`.
pub fn timers_go()
    ensures { TimersGo }
{}

/// AdjOK? does to neighbours what a Hello does by `hello_goes`.
pub fn adj_ok_goes()
    ensures { AdjOkGoes }
{}

/// The neighbours stay in rising Router ID, and none is the router itself.
pub fn neighbours_stay_of_link()
    ensures { NeighboursStayOfLink }
{}

/// An election becomes due only in a state in which one takes place.
pub fn elections_come_about()
    ensures { ElectionsComeAbout }
{}
