//! What is shown of a router, below a line that says what it is.

ghost use Rattle.std.specs.Prelude.{IfErr, OnErr, OnOk};
ghost use Rattle.std.specs.Io.KnownBytes.{Appends};
ghost use Rattle.ospf_files.specs.Streams.{IsBegun, IsOutputCut};
ghost use Rattle.ospf_views.specs.Shown.{heading, shown_lines};

use crate::views::{heading, write_view};
use ospf_base::RouterId;
use ospf_files::{FailedStreams, Failure};
use ospf_router::Router;
use ospf_script::View;
use std::alloc::Global;
use std::io::Write;

/// Writes what is shown of a router, with a line above it where labels are asked for.
///
/// `Failure` where memory runs out or the stream fails: then a beginning of it was written.
pub fn write_shown<O: Write>(
    alloc: Global,
    is_labelled: bool,
    shown: (View, RouterId),
    router: &Router,
    out: &mut O,
    streams: &mut FailedStreams,
) -> Result<(), Failure>
    ensures written { OnOk result (Appends (O.contents out.old) (O.contents out.new)
        (shown_lines is_labelled shown.0 shown.1 router.now)) }
    ensures begun { OnErr result (IsBegun (O.contents out.old) (O.contents out.new)
        (shown_lines is_labelled shown.0 shown.1 router.now)) }
    ensures cut { IfErr result (IsOutputCut streams.new) }
{
    let (view, id) = shown;
    if !is_labelled {
        return write_view(alloc, view, router, out, streams);
    }
    write_heading(alloc, view, id, out, streams)?;
    write_view(alloc, view, router, out, streams)
}

// Writes the line above what is shown of a router. Where that fails, a beginning of it was written.
fn write_heading<O: Write>(
    alloc: Global,
    view: View,
    router: RouterId,
    out: &mut O,
    streams: &mut FailedStreams,
) -> Result<(), Failure>
    ensures written { OnOk result
        (Appends (O.contents out.old) (O.contents out.new) (heading view router)) }
    ensures begun { OnErr result
        (IsBegun (O.contents out.old) (O.contents out.new) (heading view router)) }
    ensures cut { IfErr result (IsOutputCut streams.new) }
{
    let line = heading(alloc, view, router)?;
    streams.write(out, &line)
}
