//! Why a router drops a datagram.

ghost use Rattle.std.specs.Prelude.{◌≡◌};
ghost use Rattle.ospf_router.specs.AreaStep.Step.Event.{Datagram};
ghost use Rattle.ospf_journal.specs.Causes.{cause_of};
ghost use Rattle.ospf_router.specs.AreaStep.Drops.{dropped_by};

use ospf_area::{Area, context_of, local_of};
use ospf_base::Addr;
use ospf_router::Router;
use ospf_router::step::{Dropped, receive};

/// Why a router drops a datagram that came from `source` on a link and is for `destination`, as its
/// step does: the first cause that applies (RFC 2328, section 8.2). `None` where it takes it, and
/// where it has stopped. Nothing changes, and no memory is taken.
pub fn dropped_of(
    router: &Router,
    link: usize,
    source: Addr,
    destination: Addr,
    bytes: &[u8],
) -> Option<Dropped>
    ensures { result ≡ cause_of (Datagram link source destination bytes.now) router.now.area }
{
    match router.area() {
        Some(area) => dropped_in(area, link, source, destination, bytes),
        None => None,
    }
}

// The same of a router that runs.
fn dropped_in(
    area: &Area,
    link: usize,
    source: Addr,
    destination: Addr,
    bytes: &[u8],
) -> Option<Dropped>
    ensures { result ≡ dropped_by (Datagram link source destination bytes.now) area.now }
{
    let Some(there) = area.links.get(link) else {
        return Some(Dropped::Packet);
    };
    let local = local_of(context_of(area), there);
    let neighbours = there.neighbours.all();
    match receive(
        bytes,
        source,
        destination,
        &there.iface,
        neighbours,
        area.area,
        local,
    ) {
        Ok(_packet) => None,
        Err(dropped) => Some(dropped),
    }
}
