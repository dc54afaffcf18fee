//! A listing as a drawing.

ghost use Rattle.std.specs.Fmt.{WritesOnOk};
ghost use Rattle.std.specs.Prelude.{flat_map};
ghost use Rattle.ospf_lsa.specs.Lsa.{IsRouterLsa, links_of};
ghost use Rattle.ospf_inspect.specs.AreaDrawing.Graph.{lsa_lines, network_lines, drawn_router_lines, stopped_line};

use crate::drawing::arrows::write_walk;
use crate::drawing::boxes::{write_network, write_router, write_stopped};
use crate::drawing::edges::{write_attached, write_links};
use ospf_base::{Kind, RouterId};
use ospf_lsa::{Attached, Listing, Lsa, LsaView};
use std::fmt::{self, Display, Formatter, Write};

// How all is laid out: boxes that lie apart, and lines that lead round them; what has no line of
// its own is plain text.
const HEAD: &str =
    "graph area {\n  graph [layout=neato, overlap=false, splines=true, sep=\"+30\", outputorder=edgesfirst];\n  node [shape=plaintext, style=filled, fillcolor=white];\n";

/// A listing, to be printed as a graph in the language of Graphviz: a box a router, with its stub
/// networks, and a box a transit network, and a line a link between them, in the order of the
/// listing (RFC 2328, section 2.1).
#[derive(Clone, Copy)]
pub struct Graph<'a> {
    pub listing: &'a Listing,
    /// Routers that do not run, which are grey.
    pub stopped: &'a [RouterId],
    /// The routers that a walk met, in its order: a red arrow leads from each to the next.
    pub walked: &'a [RouterId],
}

/// A link is one line with the cost at each end. Of several links between two routers those in one
/// subnet are one; where that is not known each end has a line with its cost. A link to what has no
/// link back is dashed and has an arrow; what has no LSA is plain text.
impl<'a> Display for Graph<'a> {
    ghost use Rattle.std.specs.Prelude.{Some};
    ghost use Rattle.ospf_inspect.specs.AreaDrawing.Graph.{graph_text};

    ghost output = { λ graph. Some
        (graph_text graph.listing.now graph.stopped.now graph.walked.now) };

    fn fmt<W: Write>(&self, f: &mut Formatter<W>) -> fmt::Result {
        f.write_str(HEAD)?;
        write_lsas(f, self.listing, self.listing.lsas())?;
        write_all_stopped(f, self.stopped)?;
        write_walk(f, self.walked)?;
        f.write_str("}\n")
    }
}

// The lines of LSAs.
fn write_lsas<W: Write>(f: &mut Formatter<W>, listing: &Listing, lsas: &[Lsa]) -> fmt::Result
    ensures { WritesOnOk W.Write.write_str_gives f.old result
        (flat_map (lsa_lines listing.now) lsas.now) f.new }
{
    for lsa in lsas {
        write_lsa(f, listing, lsa)?;
    }
    Ok(())
}

// The lines of an LSA.
fn write_lsa<W: Write>(f: &mut Formatter<W>, listing: &Listing, lsa: &Lsa) -> fmt::Result
    ensures { WritesOnOk W.Write.write_str_gives f.old result (lsa_lines listing.now lsa.now)
        f.new }
{
    let view = lsa.view();
    let key = view.key();
    match view.kind() {
        Kind::Router => write_router_lsa(f, listing, key.router, &view),
        Kind::Network => write_network_lsa(f, listing, key.id, view.mask(), view.attached()),
    }
}

// The lines of a router and its links.
fn write_router_lsa<W: Write>(
    f: &mut Formatter<W>,
    listing: &Listing,
    router: RouterId,
    lsa: &LsaView,
) -> fmt::Result
    requires { IsRouterLsa lsa.now }
    ensures { WritesOnOk W.Write.write_str_gives f.old result
        (drawn_router_lines listing.now router.0 (links_of lsa.now)) f.new }
{
    write_router(f, router, lsa.links())?;
    write_links(f, listing, router, lsa)
}

// The lines of a network and the routers that it names.
fn write_network_lsa<W: Write>(
    f: &mut Formatter<W>,
    listing: &Listing,
    id: u32,
    mask: u32,
    routers: Attached,
) -> fmt::Result
    ensures { WritesOnOk W.Write.write_str_gives f.old result
        (network_lines listing.now id mask routers.entry) f.new }
{
    write_network(f, id, mask)?;
    write_attached(f, listing, id, routers)
}

// The lines of routers that do not run.
fn write_all_stopped<W: Write>(f: &mut Formatter<W>, routers: &[RouterId]) -> fmt::Result
    ensures { WritesOnOk W.Write.write_str_gives f.old result (flat_map stopped_line routers.now)
        f.new }
{
    for router in routers {
        write_stopped(f, *router)?;
    }
    Ok(())
}
