//! What a router dropped, by link and cause.

ghost use Rattle.std.specs.Prelude.{◌≡◌, ◌++◌, IfOk, OnOk, string_bytes};
ghost use Rattle.ospf_journal.specs.Counted.{cause_line, drop_lines, link_lines};

use ospf_router::step::{DropCounts, Dropped};
use std::alloc::{AllocError, Global};
use std::fmt::{self, Display, Formatter, Write};

// The causes, in the order of their numbers.
const CAUSES: [Dropped; 9] = [
    Dropped::Packet,
    Dropped::Area,
    Dropped::OwnPacket,
    Dropped::Destination,
    Dropped::Subnet,
    Dropped::HelloMismatch,
    Dropped::NoNeighbour,
    Dropped::WrongRouter,
    Dropped::State,
];

// How many datagrams that came in on a link were dropped for a cause.
#[derive(Clone, Copy)]
struct DropsShown {
    link: usize,
    cause: Dropped,
    count: u64,
}

impl Display for DropsShown {
    ghost use Rattle.std.specs.Prelude.{Some};
    ghost use Rattle.ospf_journal.specs.Counted.{drops_text};

    ghost output = { λ d. Some (drops_text d.link d.cause d.count) };

    fn fmt<W: Write>(&self, f: &mut Formatter<W>) -> fmt::Result {
        write!(f, "drops {} {} {}", self.link, self.cause, self.count)
    }
}

/// How many datagrams a router dropped that came in on its links: a line for each link and cause of
/// which there were some, in the order of links, and then of causes (RFC 2328, section 8.2).
///
/// `AllocError` where memory runs out.
pub fn drop_lines(alloc: Global, links: &[DropCounts]) -> Result<String, AllocError>
    ensures { IfOk result (λ lines. string_bytes lines ≡ drop_lines links.now) }
{
    let mut lines = String::new(alloc);
    for (link, counts) in links.iter().enumerate() {
        push_link(alloc, &mut lines, link, counts)?;
    }
    Ok(lines)
}

// Adds those of a link.
fn push_link(
    alloc: Global,
    lines: &mut String,
    link: usize,
    counts: &DropCounts,
) -> Result<(), AllocError>
    ensures { OnOk result (string_bytes lines.new ≡ string_bytes lines.old
        ++ link_lines (link, counts.now)) }
{
    for cause in CAUSES {
        push_cause(alloc, lines, link, cause, counts)?;
    }
    Ok(())
}

// Adds those for a cause, if there were some.
fn push_cause(
    alloc: Global,
    lines: &mut String,
    link: usize,
    cause: Dropped,
    counts: &DropCounts,
) -> Result<(), AllocError>
    ensures { OnOk result (string_bytes lines.new ≡ string_bytes lines.old
        ++ cause_line (link, counts.now) cause) }
{
    let count = counts.of(cause);
    if count == 0 {
        return Ok(());
    }
    let shown = DropsShown { link, cause, count };
    lines.push_str(&format!(in alloc; "{shown}\n")?)
}
