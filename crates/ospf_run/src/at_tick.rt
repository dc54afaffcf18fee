//! Tables that are printed while routers run.

ghost use Rattle.std.specs.Prelude.{◌≡◌, IfErr, IfOk, OnErr, OnOk, string_bytes};
ghost use Rattle.std.specs.Io.KnownBytes.{Appends};
ghost use Rattle.ospf_files.specs.Streams.{IsBegun, IsOutputCut};
ghost use Rattle.ospf_run.specs.Printed.{at_tick_line, at_tick_lines};

use ospf_base::RouterId;
use ospf_files::{FailedStreams, Failure, print_routes};
use ospf_router::Router;
use std::alloc::{AllocError, Global};
use std::io::Write;

/// Prints the Router ID of a router, how many ticks it has taken, and its routes, and flushes them.
///
/// `Failure` if memory runs out or the stream fails: then a beginning of it was printed.
pub fn print_at_tick<O: Write>(
    alloc: Global,
    id: RouterId,
    tick: u64,
    router: &Router,
    out: &mut O,
    streams: &mut FailedStreams,
) -> Result<(), Failure>
    ensures printed { OnOk result
        (Appends (O.contents out.old) (O.contents out.new) (at_tick_lines id tick router.now)) }
    ensures begun { OnErr result
        (IsBegun (O.contents out.old) (O.contents out.new) (at_tick_lines id tick router.now)) }
    ensures cut { IfErr result (IsOutputCut streams.new) }
{
    let line = at_tick_line(alloc, id, tick)?;
    streams.write(out, &line)?;
    print_routes(alloc, router.table().routes(), out, streams)?;
    streams.flush(out)
}

// Formats the line of a router that has taken this many ticks.
fn at_tick_line(alloc: Global, id: RouterId, tick: u64) -> Result<String, AllocError>
    ensures { IfOk result (λ line. string_bytes line ≡ at_tick_line id tick) }
{
    let line = format!(in alloc; "router {id} tick {tick}\n")?;
    Ok(line)
}
