//! Lines that show routes: those of a routing table, and what a lookup in the
//! shared table found for an address.

ghost use Rattle.std.specs.Prelude.{◌≡◌, IfErr, IfOk, OnErr, OnOk, string_bytes};
ghost use Rattle.std.specs.Io.KnownBytes.{Appends};
ghost use Rattle.ospf_files.specs.Streams.{IsBegun, IsOutputCut};
ghost use Rattle.ospf_files.specs.Shown.{lookup_line, routes_text};

use crate::status::Failure;
use crate::streams::FailedStreams;
use ospf_base::Addr;
use ospf_fib::{Answer, Found};
use ospf_graph::Route;
use std::alloc::{AllocError, Global};
use std::io::Write;

/// Prints routes in their order, a line each, which standard output may keep until it is flushed.
/// Where that fails, with `Memory` or `Output`, a beginning of the lines was written.
pub fn print_routes<O: Write>(
    alloc: Global,
    routes: &[Route],
    out: &mut O,
    streams: &mut FailedStreams,
) -> Result<(), Failure>
    ensures printed { OnOk result (Appends (O.contents out.old) (O.contents out.new)
        (routes_text routes.now)) }
    ensures begun { OnErr result (IsBegun (O.contents out.old) (O.contents out.new)
        (routes_text routes.now)) }
    ensures cut { IfErr result (IsOutputCut streams.new) }
{
    let mut line = String::new(alloc);
    for route in routes {
        line.clear();
        writeln!(line, "{route}")?;
        streams.write(out, &line)?;
    }
    Ok(())
}

/// Prints the line of an address that was looked up: the prefix, the cost and the hop that were
/// found for it, or `none`. Where that fails, with `Memory` or `Output`, a beginning of the line
/// was written.
pub fn print_lookup<O: Write>(
    alloc: Global,
    address: Addr,
    answer: Option<Answer>,
    out: &mut O,
    streams: &mut FailedStreams,
) -> Result<(), Failure>
    ensures printed { OnOk result (Appends (O.contents out.old) (O.contents out.new)
        (lookup_line address.0 answer)) }
    ensures begun { OnErr result (IsBegun (O.contents out.old) (O.contents out.new)
        (lookup_line address.0 answer)) }
    ensures cut { IfErr result (IsOutputCut streams.new) }
{
    let line = lookup_text(alloc, address, answer)?;
    streams.write(out, &line)
}

// The line of an address that was looked up.
fn lookup_text(alloc: Global, address: Addr, answer: Option<Answer>) -> Result<String, AllocError>
    ensures { IfOk result (λ line. string_bytes line ≡ lookup_line address.0 answer) }
{
    match answer {
        Some(answer) => format!(in alloc; "{}\n", Found { address, answer }),
        None => format!(in alloc; "lookup {address} none\n"),
    }
}
