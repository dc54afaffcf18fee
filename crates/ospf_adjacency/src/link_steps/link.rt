//! A link as the parts of a step work on it.

ghost use Rattle.std.specs.Prelude.{◌≡◌, ◌||◌, []};
ghost use Rattle.ospf_neighbour.specs.Neighbours.{AreNeighbours};

use ospf_area::AreaLink;
use ospf_neighbour::Neighbour;
use ospf_neighbour::iface::Iface;
use std::alloc::Global;
use std::mem;

// Takes the neighbours out of a link, to work on them.
pub(crate) fn take_out(link: &mut AreaLink, alloc: Global) -> Vec<Neighbour>
    ensures neighbours { result.items ≡ link.old.neighbours }
    ensures rest { link.new ≡ record link.old { neighbours = [] } }
    ensures rising { AreNeighbours link.old.neighbours }
{
    let neighbours = &mut link.neighbours;
    mem::replace(&mut neighbours.all, Vec::new(alloc))
}

// Puts them back, and whether an election is due.
pub(crate) fn put_back(link: &mut AreaLink, all: Vec<Neighbour>, elects: bool)
    requires { AreNeighbours all.items }
    ensures { link.new ≡ record link.old { neighbours = all.items; elects = elects } }
{
    let neighbours = &mut link.neighbours;
    neighbours.all = all;
    link.elects = elects;
}

// The interface of a link.
pub(crate) fn iface_of(link: &AreaLink) -> Iface
    ensures { result ≡ link.now.iface }
{
    link.iface
}

// Whether an election is due on a link, by what was before or by this.
pub(crate) fn is_due(link: &AreaLink, elects: bool) -> bool
    ensures { result ≡ link.now.elects || elects }
{
    link.elects || elects
}
