//! The boxes of a drawing.

ghost use Rattle.std.specs.Fmt.{WritesOnOk};
ghost use Rattle.ospf_inspect.specs.AreaDrawing.Graph.{drawn_network_line, drawn_router_line, stopped_line, drawn_stub_text, stub_texts};

use crate::drawing::nodes::{NetworkNode, RouterNode, Under};
use ospf_base::RouterId;
use ospf_lsa::{Link, LinkKind, Links};
use std::fmt::{self, Formatter, Write};

// A router, with its stub networks.
pub(crate) fn write_router<W: Write>(
    f: &mut Formatter<W>,
    router: RouterId,
    links: Links,
) -> fmt::Result
    ensures { WritesOnOk W.Write.write_str_gives f.old result (drawn_router_line router.0
        links.entry)
        f.new }
{
    write!(f, "  {} [shape=box, label=\"{router}", RouterNode(router.0))?;
    write_stubs(f, links)?;
    f.write_str("\"];\n")
}

// A transit network, by its prefix.
pub(crate) fn write_network<W: Write>(f: &mut Formatter<W>, id: u32, mask: u32) -> fmt::Result
    ensures { WritesOnOk W.Write.write_str_gives f.old result (drawn_network_line id mask) f.new }
{
    let prefix = Under { address: id, mask };
    writeln!(
        f,
        "  {} [shape=box, style=\"filled,rounded\", label=\"{prefix}\"];",
        NetworkNode(id)
    )
}

// A router that does not run.
pub(crate) fn write_stopped<W: Write>(f: &mut Formatter<W>, router: RouterId) -> fmt::Result
    ensures { WritesOnOk W.Write.write_str_gives f.old result (stopped_line router) f.new }
{
    writeln!(
        f,
        "  {} [shape=box, fillcolor=lightgrey];",
        RouterNode(router.0)
    )
}

// The stub networks among links.
fn write_stubs<W: Write>(f: &mut Formatter<W>, links: Links) -> fmt::Result
    ensures { WritesOnOk W.Write.write_str_gives f.old result (stub_texts links.entry) f.new }
{
    for link in links {
        write_stub(f, link)?;
    }
    Ok(())
}

// A stub network, on a line of its own in the label.
fn write_stub<W: Write>(f: &mut Formatter<W>, link: Link) -> fmt::Result
    ensures { WritesOnOk W.Write.write_str_gives f.old result (drawn_stub_text link) f.new }
{
    match link.kind {
        LinkKind::Stub => {
            let prefix = Under {
                address: link.id,
                mask: link.link_data,
            };
            write!(f, "\\n{prefix} cost {}", link.metric)
        }
        LinkKind::PointToPoint | LinkKind::Transit | LinkKind::Virtual => Ok(()),
    }
}
