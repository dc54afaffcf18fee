//! The arrows of a walk in a drawing.

ghost use Rattle.std.specs.Fmt.{WritesOnOk};
ghost use Rattle.std.specs.Prelude.{[], ◌∷◌, flat_map, zip};
ghost use Rattle.ospf_inspect.specs.AreaDrawing.Graph.{step_line, steps_of};

use crate::drawing::nodes::RouterNode;
use ospf_base::RouterId;
use std::fmt::{self, Formatter, Write};

// An arrow from each router that a walk met to the next.
pub(crate) fn write_walk<W: Write>(f: &mut Formatter<W>, walked: &[RouterId]) -> fmt::Result
    ensures { WritesOnOk W.Write.write_str_gives f.old result
        (flat_map step_line (steps_of walked.now)) f.new }
{
    let mut rest = walked;
    while let Some((from, behind)) = rest.split_first() {
        write_step(f, *from, behind)?;
        rest = behind;
    }
    Ok(())
}

// The arrow from a router to the first of those after it, if there is one.
fn write_step<W: Write>(f: &mut Formatter<W>, from: RouterId, behind: &[RouterId]) -> fmt::Result
    ensures { WritesOnOk W.Write.write_str_gives f.old result
        (flat_map step_line (zip (from ∷ []) behind.now)) f.new }
{
    match behind.first() {
        Some(to) => write_arrow(f, from, *to),
        None => Ok(()),
    }
}

fn write_arrow<W: Write>(f: &mut Formatter<W>, from: RouterId, to: RouterId) -> fmt::Result
    ensures { WritesOnOk W.Write.write_str_gives f.old result (step_line (from, to)) f.new }
{
    let (from, to) = (RouterNode(from.0), RouterNode(to.0));
    writeln!(f, "  {from} -- {to} [dir=forward, color=red, penwidth=2];")
}
