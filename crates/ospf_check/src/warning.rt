//! What an accepted configuration is warned of.

ghost use Rattle.std.specs.Prelude.{◌≡◌};
ghost use Rattle.std.specs.Fmt.{WritesOnOk};
ghost use Rattle.ospf_check.specs.Checked.{delay_meaning, leaf_meaning, link_text, priority_text, transmit_delay_text};

use std::fmt::{self, Display, Formatter, Write};

// An InfTransDelay over MaxAgeDiff, in ticks, and the number of its interface.
#[derive(Clone, Copy)]
pub(crate) struct DelayShown {
    pub(crate) link: usize,
    pub(crate) delay: u16,
}

// As `interface 0: transmit_delay 1000: over 900, ..`.
impl Display for DelayShown {
    ghost use Rattle.std.specs.Prelude.{Some};
    ghost use Rattle.ospf_check.specs.Checked.{delay_text};

    ghost output = { λ shown. Some (delay_text shown) };

    fn fmt<W: Write>(&self, f: &mut Formatter<W>) -> fmt::Result {
        write_link(f, self.link)?;
        write_delay(f, self.delay)?;
        f.write_str(delay_meaning())
    }
}

// A router priority over 0, and the number of its interface.
#[derive(Clone, Copy)]
pub(crate) struct LeafShown {
    pub(crate) link: usize,
    pub(crate) priority: u8,
}

// As `interface 0: priority 1: as Designated Router ..`.
impl Display for LeafShown {
    ghost use Rattle.std.specs.Prelude.{Some};
    ghost use Rattle.ospf_check.specs.Checked.{leaf_text};

    ghost output = { λ shown. Some (leaf_text shown) };

    fn fmt<W: Write>(&self, f: &mut Formatter<W>) -> fmt::Result {
        write_link(f, self.link)?;
        write_priority(f, self.priority)?;
        f.write_str(leaf_meaning())
    }
}

// Writes where an interface stands.
fn write_link<W: Write>(f: &mut Formatter<W>, link: usize) -> fmt::Result
    ensures { WritesOnOk W.Write.write_str_gives f.old result (link_text link) f.new }
{
    write!(f, "interface {link}: ")
}

// Writes a value, with its key.
fn write_delay<W: Write>(f: &mut Formatter<W>, delay: u16) -> fmt::Result
    ensures { WritesOnOk W.Write.write_str_gives f.old result (transmit_delay_text delay) f.new }
{
    write!(f, "transmit_delay {delay}: ")
}

// What follows from it.
fn delay_meaning() -> &'static str
    ensures { result.now ≡ delay_meaning }
{
    "above 900, the acknowledgment of an LSA may count for another instance, and the LSA is retransmitted without end; at both ends of a point-to-point link, or at one interface of a broadcast network with others, neighbors may never reach Full (RFC 2328, sections 13.1 and 13.3)"
}

// Writes a value, with its key.
fn write_priority<W: Write>(f: &mut Formatter<W>, priority: u8) -> fmt::Result
    ensures { WritesOnOk W.Write.write_str_gives f.old result (priority_text priority) f.new }
{
    write!(f, "priority {priority}: ")
}

// What follows from it where LSAs are passed over.
fn leaf_meaning() -> &'static str
    ensures { result.now ≡ leaf_meaning }
{
    "as Designated Router it would not flood the LSAs that it passes over (other_lsas), so the other routers would get them late or not at all; set priority = 0 to keep it out of the election (RFC 2328, section 13.3)"
}
