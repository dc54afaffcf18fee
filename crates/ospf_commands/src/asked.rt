//! What lines ask of routers, and what is printed.

ghost use Rattle.std.specs.Prelude.{◌≡◌, IfErr, IfOk, OnErr, string_bytes};
ghost use Rattle.ospf_files.specs.Streams.{IsOutputCut};
ghost use Rattle.ospf_commands.specs.Asked.{AreDatagramsShown, AreDropsShown, AreLsasBelow, AreLsasShown, IsTextSaid, IsViewShown, IsWalked, IsWhyAnswered, IsWhyHeadlineAnswered, lsas_heading};
ghost use Rattle.ospf_commands.specs.Printed.{IsPrinted, IsPrintedBegun};

use crate::premise::disagreement;
use crate::show::{said_line, write_walked};
use crate::simulation::Simulation;
use ospf_base::{Addr, RouterId};
use ospf_files::{FailedStreams, Failure};
use ospf_inspect::lsas_text;
use ospf_journal::drop_lines;
use ospf_router::Router;
use ospf_script::View;
use ospf_views::{datagram_lines, why_headline_line, why_lines, write_shown};
use ospf_world::WorldFault;
use std::alloc::{AllocError, Global};
use std::io::Write;

// How many datagrams are shown if the line does not say.
const MOST_DATAGRAMS: u64 = 16;

// Prints a text. If that fails, a beginning of it was written.
pub(crate) fn say<O: Write>(
    text: &String,
    out: &mut O,
    alloc: Global,
    streams: &mut FailedStreams,
) -> Result<Result<(), WorldFault>, Failure>
    ensures said { IfOk result (λ answer. IsPrinted (IsTextSaid text.now) answer
        (O.contents out.old) (O.contents out.new)) }
    ensures begun { OnErr result
        (IsPrintedBegun (IsTextSaid text.now) (O.contents out.old) (O.contents out.new)) }
    ensures cut { IfErr result (IsOutputCut streams.new) }
{
    let line = said_line(alloc, text)?;
    streams.write(out, &line)?;
    Ok(Ok(()))
}

// Prints a view of a running router; if that fails, a beginning of it.
pub(crate) fn show<O: Write>(
    simulation: &Simulation,
    view: View,
    router: RouterId,
    out: &mut O,
    alloc: Global,
    streams: &mut FailedStreams,
) -> Result<Result<(), WorldFault>, Failure>
    ensures shown { IfOk result (λ answer. IsPrinted (IsViewShown view router simulation.now) answer
        (O.contents out.old) (O.contents out.new)) }
    ensures begun { OnErr result (IsPrintedBegun (IsViewShown view router simulation.now)
        (O.contents out.old) (O.contents out.new)) }
    ensures cut { IfErr result (IsOutputCut streams.new) }
{
    match simulation.world.router(router) {
        Ok(lent) => {
            let shown = (view, router);
            write_shown(alloc, simulation.is_labelled, shown, lent, out, streams)?;
            Ok(Ok(()))
        }
        Err(fault) => Ok(Err(fault)),
    }
}

// Prints a walk, if there is one, and remembers it; if that fails, prints a beginning of it.
pub(crate) fn show_walk<O: Write>(
    simulation: &mut Simulation,
    ends: (RouterId, Addr),
    choices: &[u32],
    out: &mut O,
    alloc: Global,
    streams: &mut FailedStreams,
) -> Result<Result<(), WorldFault>, Failure>
    ensures walked { IfOk result (λ answer. IsPrinted
        (IsWalked ends.0 ends.1 choices.now simulation.old simulation.new) answer
        (O.contents out.old) (O.contents out.new)) }
    ensures begun { OnErr result (IsPrintedBegun
        (IsWalked ends.0 ends.1 choices.now simulation.old simulation.new)
        (O.contents out.old) (O.contents out.new)) }
    ensures cut { IfErr result (IsOutputCut streams.new) }
    ensures world { simulation.new.world ≡ simulation.old.world }
{
    let (from, address) = ends;
    match simulation.world.walk(from, address, choices, alloc) {
        Ok(walk) => {
            let written = write_walked(alloc, simulation.is_labelled, ends, &walk, out, streams);
            simulation.walk = Some(walk);
            written?;
            Ok(Ok(()))
        }
        Err(fault) => Ok(Err(fault)),
    }
}

// Prints what a link, or a router on it, waits for, and why it would drop the packet that arrived
// last, if there is such a link. If that fails, a beginning of it was written.
pub(crate) fn show_why<O: Write>(
    simulation: &Simulation,
    place: (RouterId, usize),
    neighbour: Option<RouterId>,
    out: &mut O,
    alloc: Global,
    streams: &mut FailedStreams,
) -> Result<Result<(), WorldFault>, Failure>
    ensures explained { IfOk result (λ answer. IsPrinted
        (IsWhyAnswered place.0 place.1 neighbour simulation.now) answer
        (O.contents out.old) (O.contents out.new)) }
    ensures begun { OnErr result (IsPrintedBegun
        (IsWhyAnswered place.0 place.1 neighbour simulation.now)
        (O.contents out.old) (O.contents out.new)) }
    ensures cut { IfErr result (IsOutputCut streams.new) }
{
    let lent = match simulation.world.router(place.0) {
        Ok(lent) => lent,
        Err(fault) => return Ok(Err(fault)),
    };
    match why_lines(&simulation.world, lent, place, neighbour, alloc)? {
        Some(lines) => {
            streams.write(out, &lines)?;
            Ok(Ok(()))
        }
        None => Ok(Err(WorldFault::NoLink)),
    }
}

// Prints whether the premise of the headline holds for a running router, or why not; if that fails,
// a beginning of it.
pub(crate) fn show_premise<O: Write>(
    simulation: &Simulation,
    router: RouterId,
    out: &mut O,
    alloc: Global,
    streams: &mut FailedStreams,
) -> Result<Result<(), WorldFault>, Failure>
    ensures answered { IfOk result (λ answer. IsPrinted
        (IsWhyHeadlineAnswered router simulation.now) answer
        (O.contents out.old) (O.contents out.new)) }
    ensures begun { OnErr result (IsPrintedBegun (IsWhyHeadlineAnswered router simulation.now)
        (O.contents out.old) (O.contents out.new)) }
    ensures cut { IfErr result (IsOutputCut streams.new) }
{
    let found = match disagreement(&simulation.world, router, alloc) {
        Ok(found) => found,
        Err(fault) => return Ok(Err(fault)),
    };
    let line = why_headline_line(alloc, router, &found)?;
    streams.write(out, &line)?;
    Ok(Ok(()))
}

// Prints the last datagrams that a round offers to a running router; if that fails, a beginning of
// it.
pub(crate) fn show_datagrams<O: Write>(
    simulation: &Simulation,
    router: RouterId,
    most: Option<u64>,
    out: &mut O,
    alloc: Global,
    streams: &mut FailedStreams,
) -> Result<Result<(), WorldFault>, Failure>
    ensures shown { IfOk result (λ answer. IsPrinted
        (AreDatagramsShown router most simulation.now) answer
        (O.contents out.old) (O.contents out.new)) }
    ensures begun { OnErr result (IsPrintedBegun (AreDatagramsShown router most simulation.now)
        (O.contents out.old) (O.contents out.new)) }
    ensures cut { IfErr result (IsOutputCut streams.new) }
{
    let lent = match simulation.world.router(router) {
        Ok(lent) => lent,
        Err(fault) => return Ok(Err(fault)),
    };
    let most = most.unwrap_or(MOST_DATAGRAMS);
    let lines = datagram_lines(&simulation.world, lent, router, most, alloc)?;
    streams.write(out, &lines)?;
    Ok(Ok(()))
}

// Prints what a running router dropped since its start; if that fails, a beginning of it.
pub(crate) fn show_drops<O: Write>(
    simulation: &Simulation,
    router: RouterId,
    out: &mut O,
    alloc: Global,
    streams: &mut FailedStreams,
) -> Result<Result<(), WorldFault>, Failure>
    ensures shown { IfOk result (λ answer. IsPrinted (AreDropsShown router simulation.now) answer
        (O.contents out.old) (O.contents out.new)) }
    ensures begun { OnErr result (IsPrintedBegun (AreDropsShown router simulation.now)
        (O.contents out.old) (O.contents out.new)) }
    ensures cut { IfErr result (IsOutputCut streams.new) }
{
    let slot = match simulation.world.slot(router) {
        Some(slot) => slot,
        None => return Ok(Err(WorldFault::NoRouter)),
    };
    if !slot.runs() {
        return Ok(Err(WorldFault::NotRunning));
    }
    let lines = drop_lines(alloc, slot.drops())?;
    streams.write(out, &lines)?;
    Ok(Ok(()))
}

// Prints the contents of the LSAs that a running router lists; if that fails, a beginning of it.
pub(crate) fn show_lsas<O: Write>(
    simulation: &Simulation,
    router: RouterId,
    out: &mut O,
    alloc: Global,
    streams: &mut FailedStreams,
) -> Result<Result<(), WorldFault>, Failure>
    ensures shown { IfOk result (λ answer. IsPrinted (AreLsasShown router simulation.now) answer
        (O.contents out.old) (O.contents out.new)) }
    ensures begun { OnErr result (IsPrintedBegun (AreLsasShown router simulation.now)
        (O.contents out.old) (O.contents out.new)) }
    ensures cut { IfErr result (IsOutputCut streams.new) }
{
    let lent = match simulation.world.router(router) {
        Ok(lent) => lent,
        Err(fault) => return Ok(Err(fault)),
    };
    let Ok(lines) = lsa_lines(alloc, simulation.is_labelled, router, lent) else {
        return Ok(Err(WorldFault::Memory { stopped: false }));
    };
    streams.write(out, &lines)?;
    Ok(Ok(()))
}

// Formats the contents of the LSAs that a router lists, below a heading if labels are on.
fn lsa_lines(
    alloc: Global,
    is_labelled: bool,
    id: RouterId,
    router: &Router,
) -> Result<String, AllocError>
    ensures { IfOk result (λ lines. AreLsasBelow is_labelled id router.now.area
        (string_bytes lines)) }
{
    let listing = router.listing(alloc)?;
    let lines = lsas_text(alloc, &listing)?;
    if !is_labelled {
        return Ok(lines);
    }
    let mut labelled = lsas_heading(alloc, id)?;
    labelled.push_str(&lines)?;
    Ok(labelled)
}

// Formats the heading.
fn lsas_heading(alloc: Global, router: RouterId) -> Result<String, AllocError>
    ensures { IfOk result (λ line. string_bytes line ≡ lsas_heading router) }
{
    format!(in alloc; "lsas of {router}: what each LSA says\n")
}
