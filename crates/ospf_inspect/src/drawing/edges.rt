//! The lines between the boxes of a drawing.

ghost use Rattle.std.specs.Fmt.{WritesOnOk};
ghost use Rattle.ospf_lsa.specs.Lsa.{IsRouterLsa, links_of};
ghost use Rattle.ospf_inspect.specs.AreaDrawing.Graph.{attached_line, attached_lines, both_line, drawn_link_line, drawn_link_lines, lone_line, point_line, transit_line};

use crate::drawing::ends::{leads_back, link_back, links_to_network, names_router};
use crate::drawing::nodes::{NetworkNode, RouterNode};
use ospf_base::RouterId;
use ospf_lsa::{Attached, Link, LinkKind, Listing, LsaView};
use std::fmt::{self, Formatter, Write};

// The lines of a router's links.
pub(crate) fn write_links<W: Write>(
    f: &mut Formatter<W>,
    listing: &Listing,
    router: RouterId,
    lsa: &LsaView,
) -> fmt::Result
    requires { IsRouterLsa lsa.now }
    ensures { WritesOnOk W.Write.write_str_gives f.old result
        (drawn_link_lines listing.now router.0 (links_of lsa.now) (links_of lsa.now)) f.new }
{
    for link in lsa.links() {
        write_link(f, listing, router, lsa, link)?;
    }
    Ok(())
}

// The lines of the routers that a network names.
pub(crate) fn write_attached<W: Write>(
    f: &mut Formatter<W>,
    listing: &Listing,
    network: u32,
    routers: Attached,
) -> fmt::Result
    ensures { WritesOnOk W.Write.write_str_gives f.old result
        (attached_lines listing.now network routers.entry) f.new }
{
    for router in routers {
        write_named(f, listing, network, router)?;
    }
    Ok(())
}

// The line of a link of a router's LSA.
fn write_link<W: Write>(
    f: &mut Formatter<W>,
    listing: &Listing,
    router: RouterId,
    lsa: &LsaView,
    link: Link,
) -> fmt::Result
    requires { IsRouterLsa lsa.now }
    ensures { WritesOnOk W.Write.write_str_gives f.old result (drawn_link_line listing.now router.0
        (links_of lsa.now) link) f.new }
{
    match link.kind {
        LinkKind::PointToPoint => {
            let leads = leads_back(listing, RouterId(link.id), router);
            let back = link_back(listing, router, lsa, &link);
            write_point(f, router, link, leads, back)
        }
        LinkKind::Transit => {
            let both = names_router(listing, link.id, router);
            write_transit(f, router, link, both)
        }
        LinkKind::Stub | LinkKind::Virtual => Ok(()),
    }
}

// The line of a link to a router, which leads back or does not, by its other end.
fn write_point<W: Write>(
    f: &mut Formatter<W>,
    router: RouterId,
    link: Link,
    leads: bool,
    back: Option<Link>,
) -> fmt::Result
    ensures { WritesOnOk W.Write.write_str_gives f.old result (point_line router.0 link leads back)
        f.new }
{
    match back {
        Some(back) => write_joined(f, router, link, back.metric),
        None => write_lone(f, router, link, leads),
    }
}

// The line of a link whose other end is not known, at this end.
fn write_lone<W: Write>(
    f: &mut Formatter<W>,
    router: RouterId,
    link: Link,
    leads: bool,
) -> fmt::Result
    ensures { WritesOnOk W.Write.write_str_gives f.old result (lone_line router.0 link leads)
        f.new }
{
    let (from, to, cost) = (RouterNode(router.0), RouterNode(link.id), link.metric);
    if leads {
        writeln!(f, "  {from} -- {to} [taillabel={cost}];")
    } else {
        writeln!(
            f,
            "  {from} -- {to} [taillabel={cost}, dir=forward, style=dashed];"
        )
    }
}

// The line of a link that both routers advertise, once.
fn write_joined<W: Write>(
    f: &mut Formatter<W>,
    router: RouterId,
    link: Link,
    back: u16,
) -> fmt::Result
    ensures { WritesOnOk W.Write.write_str_gives f.old result (both_line router.0 link back) f.new }
{
    if router.0 > link.id {
        return Ok(());
    }
    let (from, to, cost) = (RouterNode(router.0), RouterNode(link.id), link.metric);
    writeln!(f, "  {from} -- {to} [taillabel={cost}, headlabel={back}];")
}

// The line of a link to a transit network, which names its router or does not.
fn write_transit<W: Write>(
    f: &mut Formatter<W>,
    router: RouterId,
    link: Link,
    both: bool,
) -> fmt::Result
    ensures { WritesOnOk W.Write.write_str_gives f.old result (transit_line router.0 link both)
        f.new }
{
    let (from, to, cost) = (RouterNode(router.0), NetworkNode(link.id), link.metric);
    if both {
        writeln!(f, "  {from} -- {to} [taillabel={cost}];")
    } else {
        writeln!(
            f,
            "  {from} -- {to} [taillabel={cost}, dir=forward, style=dashed];"
        )
    }
}

// The line of a router that a network names, unless the router has a link there.
fn write_named<W: Write>(
    f: &mut Formatter<W>,
    listing: &Listing,
    network: u32,
    router: RouterId,
) -> fmt::Result
    ensures { WritesOnOk W.Write.write_str_gives f.old result
        (attached_line listing.now network router) f.new }
{
    let (from, to) = (NetworkNode(network), RouterNode(router.0));
    if links_to_network(listing, router, network) {
        Ok(())
    } else {
        writeln!(f, "  {from} -- {to} [dir=forward, style=dashed];")
    }
}
