//! What printing lines print.

ghost use Rattle.std.specs.Prelude.{◌≡◌, IfErr, IfOk, OnErr, OnOk, string_bytes};
ghost use Rattle.std.specs.Io.KnownBytes.{Appends};
ghost use Rattle.ospf_files.specs.Streams.{IsBegun, IsOutputCut};
ghost use Rattle.ospf_commands.specs.Shown.{end_text, said_line, walk_heading, walk_line, walked_lines};

use ospf_base::{Addr, RouterId};
use ospf_files::{FailedStreams, Failure};
use ospf_views::WalkShown;
use ospf_world::{Walk, WalkEnd};
use std::alloc::{AllocError, Global};
use std::fmt::{self, Display, Formatter};
use std::io::Write;

// The start and the target of a walk.
#[derive(Clone, Copy)]
struct EndsShown {
    from: RouterId,
    address: Addr,
}

impl Display for EndsShown {
    ghost use Rattle.std.specs.Prelude.{Some};
    ghost use Rattle.ospf_commands.specs.Shown.{ends_text};

    ghost output = { λ ends. Some (ends_text ends.from ends.address) };

    fn fmt<W: fmt::Write>(&self, f: &mut Formatter<W>) -> fmt::Result {
        write!(f, "walk from {} to {}", self.from, self.address)
    }
}

// Writes a walk, below a heading if labels are on; if that fails, a beginning of it.
pub(crate) fn write_walked<O: Write>(
    alloc: Global,
    is_labelled: bool,
    ends: (RouterId, Addr),
    walk: &Walk,
    out: &mut O,
    streams: &mut FailedStreams,
) -> Result<(), Failure>
    ensures written { OnOk result (Appends (O.contents out.old) (O.contents out.new)
        (walked_lines is_labelled ends.0 ends.1 walk.now)) }
    ensures begun { OnErr result (IsBegun (O.contents out.old) (O.contents out.new)
        (walked_lines is_labelled ends.0 ends.1 walk.now)) }
    ensures cut { IfErr result (IsOutputCut streams.new) }
{
    let text = walked_lines(alloc, is_labelled, ends, walk)?;
    streams.write(out, &text)
}

// A walk, below a heading if labels are on.
fn walked_lines(
    alloc: Global,
    is_labelled: bool,
    ends: (RouterId, Addr),
    walk: &Walk,
) -> Result<String, AllocError>
    ensures { IfOk result (λ text. string_bytes text
        ≡ walked_lines is_labelled ends.0 ends.1 walk.now) }
{
    let line = walk_line(alloc, walk)?;
    if !is_labelled {
        return Ok(line);
    }
    let mut text = walk_heading(alloc, ends.0, ends.1)?;
    text.push_str(&line)?;
    Ok(text)
}

// The line of a walk.
pub(crate) fn walk_line(alloc: Global, walk: &Walk) -> Result<String, AllocError>
    ensures { IfOk result (λ line. string_bytes line ≡ walk_line walk.now) }
{
    let shown = WalkShown {
        routers: &walk.routers,
        cost: walk.cost,
        end: end_text(walk.end),
    };
    format!(in alloc; "{shown}\n")
}

// How a walk ended.
fn end_text(end: WalkEnd) -> &'static str
    ensures { result.now ≡ end_text end }
{
    match end {
        WalkEnd::Arrived => "arrived",
        WalkEnd::NoRoute => "no route",
        WalkEnd::NotRunning => "not running",
        WalkEnd::Turns => "turns",
    }
}

// The line of a text.
pub(crate) fn said_line(alloc: Global, said: &String) -> Result<String, AllocError>
    ensures { IfOk result (λ line. string_bytes line ≡ said_line said.now) }
{
    format!(in alloc; "{said}\n")
}

// The heading of a walk.
fn walk_heading(alloc: Global, from: RouterId, address: Addr) -> Result<String, AllocError>
    ensures { IfOk result (λ line. string_bytes line ≡ walk_heading from address) }
{
    let ends = EndsShown { from, address };
    format!(in alloc; "{ends}: routers, cost, end\n")
}
