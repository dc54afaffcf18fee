//! What is shown of a router.

ghost use Rattle.std.specs.Prelude.{◌≡◌, ◌++◌, IfErr, IfOk, OnErr, OnOk, Some, flat_map, string_bytes};
ghost use Rattle.std.specs.Io.KnownBytes.{Appends};
ghost use Rattle.ospf_files.specs.Streams.{IsBegun, IsOutputCut};
ghost use Rattle.ospf_views.specs.Shown.{floor_alone_line, heading, link_neighbour_lines, listed_line, listing_lines, neighbour_line, neighbours_lines, view_lines};

use crate::shown::{ListedShown, NeighbourShown};
use ospf_base::{MOST_INTERFACES, RouterId};
use ospf_files::{FailedStreams, Failure, print_routes};
use ospf_lsa::Lsa;
use ospf_neighbour::Neighbour;
use ospf_router::Router;
use ospf_script::{FloorShown, View};
use std::alloc::{AllocError, Global};
use std::io::Write;

/// Writes what is shown of a router.
///
/// `Failure` where memory runs out or the stream fails: then a beginning of it was written.
pub fn write_view<O: Write>(
    alloc: Global,
    view: View,
    router: &Router,
    out: &mut O,
    streams: &mut FailedStreams,
) -> Result<(), Failure>
    ensures written { OnOk result
        (Appends (O.contents out.old) (O.contents out.new) (view_lines view router.now)) }
    ensures begun { OnErr result
        (IsBegun (O.contents out.old) (O.contents out.new) (view_lines view router.now)) }
    ensures cut { IfErr result (IsOutputCut streams.new) }
{
    match view {
        View::Neighbours => write_neighbours(alloc, router, out, streams),
        View::Listing => write_listing(alloc, router, out, streams),
        View::Table => print_routes(alloc, router.table().routes(), out, streams),
        View::Floor => write_floor(alloc, router, out, streams),
    }
}

/// Adds what is shown of a router to a text.
///
/// `AllocError` where memory runs out: then a beginning of it was added.
pub fn add_view(
    text: &mut Vec<u8>,
    view: View,
    router: &Router,
    alloc: Global,
) -> Result<(), AllocError>
    ensures ok { OnOk result (text.new.items ≡ text.old.items ++ view_lines view router.now) }
    ensures err { OnErr result
        (IsBegun (Some text.old.items) (Some text.new.items) (view_lines view router.now)) }
{
    let mut streams = FailedStreams::none();
    match write_view(alloc, view, router, text, &mut streams) {
        Ok(()) => Ok(()),
        Err(_) => Err(AllocError),
    }
}

/// The line above what is shown of a router: what it is, of which router, and what a line contains.
///
/// `AllocError` where memory runs out.
pub fn heading(alloc: Global, view: View, router: RouterId) -> Result<String, AllocError>
    ensures { IfOk result (λ line. string_bytes line ≡ heading view router) }
{
    match view {
        View::Neighbours => format!(in alloc; "neighbours of {router}: link, Router ID, state\n"),
        View::Listing => format!(in alloc;
            "listing of {router}: kind, Link State ID, Advertising Router, number, checksum\n"
        ),
        View::Table => format!(in alloc; "table of {router}: prefix, cost, next hops\n"),
        View::Floor => format!(in alloc; "floor of {router}\n"),
    }
}

// Writes the neighbours of a router, by link and Router ID.
fn write_neighbours<O: Write>(
    alloc: Global,
    router: &Router,
    out: &mut O,
    streams: &mut FailedStreams,
) -> Result<(), Failure>
    ensures written { OnOk result
        (Appends (O.contents out.old) (O.contents out.new) (neighbours_lines router.now)) }
    ensures begun { OnErr result
        (IsBegun (O.contents out.old) (O.contents out.new) (neighbours_lines router.now)) }
    ensures cut { IfErr result (IsOutputCut streams.new) }
{
    for link in 0..MOST_INTERFACES {
        write_link(alloc, link, router.neighbours(link), out, streams)?;
    }
    Ok(())
}

// Writes the neighbours of a link.
fn write_link<O: Write>(
    alloc: Global,
    link: usize,
    neighbours: &[Neighbour],
    out: &mut O,
    streams: &mut FailedStreams,
) -> Result<(), Failure>
    ensures written { OnOk result
        (Appends (O.contents out.old) (O.contents out.new) (link_neighbour_lines link
        neighbours.now)) }
    ensures begun { OnErr result
        (IsBegun (O.contents out.old) (O.contents out.new) (link_neighbour_lines link
        neighbours.now)) }
    ensures cut { IfErr result (IsOutputCut streams.new) }
{
    for neighbour in neighbours {
        write_neighbour(alloc, link, neighbour, out, streams)?;
    }
    Ok(())
}

// Writes a neighbour of a link.
fn write_neighbour<O: Write>(
    alloc: Global,
    link: usize,
    neighbour: &Neighbour,
    out: &mut O,
    streams: &mut FailedStreams,
) -> Result<(), Failure>
    ensures written { OnOk result
        (Appends (O.contents out.old) (O.contents out.new) (neighbour_line link neighbour.now)) }
    ensures begun { OnErr result
        (IsBegun (O.contents out.old) (O.contents out.new) (neighbour_line link neighbour.now)) }
    ensures cut { IfErr result (IsOutputCut streams.new) }
{
    let line = neighbour_line(alloc, link, neighbour)?;
    streams.write(out, &line)
}

// The line of a neighbour of a link.
fn neighbour_line(alloc: Global, link: usize, neighbour: &Neighbour) -> Result<String, AllocError>
    ensures { IfOk result (λ line. string_bytes line ≡ neighbour_line link neighbour.now) }
{
    let shown = NeighbourShown {
        link,
        router: neighbour.router(),
        state: neighbour.state(),
    };
    format!(in alloc; "{shown}\n")
}

// Writes the LSAs that a router lists.
fn write_listing<O: Write>(
    alloc: Global,
    router: &Router,
    out: &mut O,
    streams: &mut FailedStreams,
) -> Result<(), Failure>
    ensures written { OnOk result
        (Appends (O.contents out.old) (O.contents out.new) (listing_lines router.now)) }
    ensures begun { OnErr result
        (IsBegun (O.contents out.old) (O.contents out.new) (listing_lines router.now)) }
    ensures cut { IfErr result (IsOutputCut streams.new) }
{
    let listing = router.listing(alloc)?;
    write_listed(alloc, listing.lsas(), out, streams)
}

// Writes LSAs that are listed.
fn write_listed<O: Write>(
    alloc: Global,
    lsas: &[Lsa],
    out: &mut O,
    streams: &mut FailedStreams,
) -> Result<(), Failure>
    ensures written { OnOk result
        (Appends (O.contents out.old) (O.contents out.new) (flat_map listed_line lsas.now)) }
    ensures begun { OnErr result
        (IsBegun (O.contents out.old) (O.contents out.new) (flat_map listed_line lsas.now)) }
    ensures cut { IfErr result (IsOutputCut streams.new) }
{
    for lsa in lsas {
        write_lsa(alloc, lsa, out, streams)?;
    }
    Ok(())
}

// Writes an LSA that is listed.
fn write_lsa<O: Write>(
    alloc: Global,
    lsa: &Lsa,
    out: &mut O,
    streams: &mut FailedStreams,
) -> Result<(), Failure>
    ensures written { OnOk result
        (Appends (O.contents out.old) (O.contents out.new) (listed_line lsa.now)) }
    ensures begun { OnErr result
        (IsBegun (O.contents out.old) (O.contents out.new) (listed_line lsa.now)) }
    ensures cut { IfErr result (IsOutputCut streams.new) }
{
    let line = listed_line(alloc, lsa)?;
    streams.write(out, &line)
}

// The line of an LSA that is listed.
fn listed_line(alloc: Global, lsa: &Lsa) -> Result<String, AllocError>
    ensures { IfOk result (λ line. string_bytes line ≡ listed_line lsa.now) }
{
    let shown = ListedShown(lsa.view().instance());
    format!(in alloc; "{shown}\n")
}

// Writes the floor of a router's numbers.
fn write_floor<O: Write>(
    alloc: Global,
    router: &Router,
    out: &mut O,
    streams: &mut FailedStreams,
) -> Result<(), Failure>
    ensures written { OnOk result
        (Appends (O.contents out.old) (O.contents out.new) (floor_alone_line router.now)) }
    ensures begun { OnErr result
        (IsBegun (O.contents out.old) (O.contents out.new) (floor_alone_line router.now)) }
    ensures cut { IfErr result (IsOutputCut streams.new) }
{
    let line = floor_line(alloc, router)?;
    streams.write(out, &line)
}

// The line of the floor of a router's numbers.
fn floor_line(alloc: Global, router: &Router) -> Result<String, AllocError>
    ensures { IfOk result (λ line. string_bytes line ≡ floor_alone_line router.now) }
{
    let shown = FloorShown(router.floor());
    format!(in alloc; "{shown}\n")
}
