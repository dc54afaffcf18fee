//! What the types of a router's state guarantee, as the laws of its parts need it.

ghost use Rattle.std.specs.Prelude.{◌≡◌, Some, option_copied};
ghost use Rattle.ospf_lsdb.specs.Database.{IsDatabase};
ghost use Rattle.ospf_neighbour.specs.Neighbour.{NeighbourValue};
ghost use Rattle.ospf_neighbour.specs.Neighbours.{neighbour_of};
ghost use Rattle.ospf_adjacency.specs.Laws.{HasNoneBelow};
ghost use Rattle.ospf_router.specs.AreaStep.Invariants.{NoneWaitsBelow};

use ospf_area::Area;
use ospf_base::RouterId;
use ospf_neighbour::Neighbour;

/// The database is one.
pub fn database_is_one(area: &Area)
    ensures { IsDatabase area.now.database }
{
    // For the proof.
    let _entries = area.database.entries();
}

/// Nothing waits for the acknowledgement of a neighbour on a link while that is below
/// Exchange (RFC 2328, section 10.1).
pub fn none_waits_below(area: &Area, link: usize, router: RouterId)
    ensures { NoneWaitsBelow area.now link router }
{
    if let Some(link) = area.links.get(link) {
        none_waits_among(link.neighbours.all(), router);
    }
}

// Nor for one of these.
fn none_waits_among(all: &[Neighbour], router: RouterId)
    ensures { (n : NeighbourValue) → neighbour_of all.now router ≡ Some n → HasNoneBelow n }
{
    if let Some(neighbour) = neighbour_by(all, router) {
        none_waits(neighbour);
    }
}

// The neighbour of a Router ID.
fn neighbour_by(all: &[Neighbour], router: RouterId) -> Option<&Neighbour>
    ensures { option_copied result ≡ neighbour_of all.now router }
{
    all.iter().find(|n| n.router().0 == router.0)
}

// Nothing waits below Exchange.
fn none_waits(neighbour: &Neighbour)
    ensures { HasNoneBelow neighbour.now }
{
    // For the proof.
    let _exchanges = neighbour.is_exchanging();
}
