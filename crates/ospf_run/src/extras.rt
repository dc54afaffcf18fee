//! What is printed of a router besides its table and a lookup.

ghost use Rattle.std.specs.Prelude.{◌≡◌, IfErr, IfOk, OnErr, OnOk, flat_map, string_bytes};
ghost use Rattle.std.specs.Io.KnownBytes.{Appends};
ghost use Rattle.ospf_files.specs.Streams.{IsBegun, IsOutputCut};
ghost use Rattle.ospf_run.specs.Printed.{drops_of, extra_lines, floor_line, floor_lines, viewed_lines};

use crate::lsdb::print_lsdb;
use crate::outcome::{Drops, Extras};
use ospf_base::RouterId;
use ospf_files::{FailedStreams, Failure};
use ospf_journal::drop_lines;
use ospf_router::Router;
use ospf_script::{FloorShown, View};
use ospf_views::write_view;
use std::alloc::{AllocError, Global};
use std::io::Write;

/// Prints the extras of a router that are wanted: its neighbours, its listing, its LSDB, what it
/// dropped, and the floor of its numbers.
pub(crate) fn print_extras<O: Write>(
    alloc: Global,
    id: RouterId,
    router: &Router,
    extras: &Extras,
    out: &mut O,
    streams: &mut FailedStreams,
) -> Result<(), Failure>
    ensures printed { OnOk result
        (Appends (O.contents out.old) (O.contents out.new) (extra_lines extras.now id router.now)) }
    ensures begun { OnErr result
        (IsBegun (O.contents out.old) (O.contents out.new) (extra_lines extras.now id router.now)) }
    ensures cut { IfErr result (IsOutputCut streams.new) }
{
    print_viewed(
        alloc,
        extras.neighbours,
        View::Neighbours,
        router,
        out,
        streams,
    )?;
    print_viewed(alloc, extras.listing, View::Listing, router, out, streams)?;
    print_lsdb(alloc, extras.lsdb, router, out, streams)?;
    print_drops(alloc, id, &extras.drops, out, streams)?;
    print_floor(alloc, router, extras.floor, out, streams)
}

// Prints this view of a router, if it is wanted.
fn print_viewed<O: Write>(
    alloc: Global,
    is_wanted: bool,
    view: View,
    router: &Router,
    out: &mut O,
    streams: &mut FailedStreams,
) -> Result<(), Failure>
    ensures printed { OnOk result
        (Appends (O.contents out.old) (O.contents out.new) (viewed_lines is_wanted view
        router.now)) }
    ensures begun { OnErr result
        (IsBegun (O.contents out.old) (O.contents out.new) (viewed_lines is_wanted view
        router.now)) }
    ensures cut { IfErr result (IsOutputCut streams.new) }
{
    if !is_wanted {
        return Ok(());
    }
    write_view(alloc, view, router, out, streams)
}

// Prints what a router dropped, out of the drops of all routers.
fn print_drops<O: Write>(
    alloc: Global,
    router: RouterId,
    drops: &[Drops],
    out: &mut O,
    streams: &mut FailedStreams,
) -> Result<(), Failure>
    ensures printed { OnOk result
        (Appends (O.contents out.old) (O.contents out.new) (flat_map (drops_of router) drops.now)) }
    ensures begun { OnErr result
        (IsBegun (O.contents out.old) (O.contents out.new) (flat_map (drops_of router) drops.now)) }
    ensures cut { IfErr result (IsOutputCut streams.new) }
{
    for one in drops {
        print_drop(alloc, router, one, out, streams)?;
    }
    Ok(())
}

// Prints what was dropped, if this router dropped it.
fn print_drop<O: Write>(
    alloc: Global,
    router: RouterId,
    drops: &Drops,
    out: &mut O,
    streams: &mut FailedStreams,
) -> Result<(), Failure>
    ensures printed { OnOk result
        (Appends (O.contents out.old) (O.contents out.new) (drops_of router drops.now)) }
    ensures begun { OnErr result
        (IsBegun (O.contents out.old) (O.contents out.new) (drops_of router drops.now)) }
    ensures cut { IfErr result (IsOutputCut streams.new) }
{
    if drops.router != router {
        return Ok(());
    }
    let lines = drop_lines(alloc, &drops.links)?;
    streams.write(out, &lines)
}

// Prints the floor of a router's numbers, if it is wanted.
fn print_floor<O: Write>(
    alloc: Global,
    router: &Router,
    is_wanted: bool,
    out: &mut O,
    streams: &mut FailedStreams,
) -> Result<(), Failure>
    ensures printed { OnOk result
        (Appends (O.contents out.old) (O.contents out.new) (floor_lines is_wanted router.now)) }
    ensures begun { OnErr result
        (IsBegun (O.contents out.old) (O.contents out.new) (floor_lines is_wanted router.now)) }
    ensures cut { IfErr result (IsOutputCut streams.new) }
{
    if !is_wanted {
        return Ok(());
    }
    let line = floor_line(alloc, router)?;
    streams.write(out, &line)
}

// Formats the line of the floor of a router's numbers.
fn floor_line(alloc: Global, router: &Router) -> Result<String, AllocError>
    ensures { IfOk result (λ line. string_bytes line ≡ floor_line router.now) }
{
    let line = format!(in alloc; "floor {}\n", FloorShown(router.floor()))?;
    Ok(line)
}
