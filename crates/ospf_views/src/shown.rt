//! What the simulator prints of a value.

ghost use Rattle.std.specs.Fmt.{WritesOnOk};
ghost use Rattle.ospf_views.specs.Texts.{routers_text};

use ospf_base::{Instance, Kind, RouterId};
use ospf_neighbour::NeighbourState;
use ospf_script::FloorShown;
use std::fmt::{self, Display, Formatter, Write};

/// A line that was refused: its number, and the text of its fault.
#[derive(Clone, Copy, Debug, PartialEq, Eq)]
pub struct RefusalShown<'a> {
    pub number: u64,
    pub fault: &'a str,
}

/// As `line 3: W2 NoDatagram`.
impl Display for RefusalShown<'_> {
    ghost use Rattle.std.specs.Prelude.{Some};
    ghost use Rattle.ospf_views.specs.Texts.{refusal_text};

    ghost output = { λ refusal. Some (refusal_text refusal) };

    fn fmt<W: Write>(&self, f: &mut Formatter<W>) -> fmt::Result {
        write!(f, "line {}: {}", self.number, self.fault)
    }
}

/// A neighbour: the number of its link, its Router ID, and its state.
#[derive(Clone, Copy, Debug, PartialEq, Eq)]
pub struct NeighbourShown {
    pub link: usize,
    pub router: RouterId,
    pub state: NeighbourState,
}

/// As `0 2.2.2.2 Full`.
impl Display for NeighbourShown {
    ghost use Rattle.std.specs.Prelude.{Some};
    ghost use Rattle.ospf_views.specs.Texts.{neighbour_text};

    ghost output = { λ neighbour. Some (neighbour_text neighbour) };

    fn fmt<W: Write>(&self, f: &mut Formatter<W>) -> fmt::Result {
        write!(f, "{} {} {}", self.link, self.router, self.state)
    }
}

/// An LSA of a listing: what names it and its instance.
#[derive(Clone, Copy, Debug, PartialEq, Eq)]
pub struct ListedShown(pub Instance);

/// As `router 1.1.1.1 1.1.1.1 80000002 e02d`: kind, ID, Advertising Router, number, checksum.
impl Display for ListedShown {
    ghost use Rattle.std.specs.Prelude.{Some};
    ghost use Rattle.ospf_views.specs.Texts.{listed_text};

    ghost output = { λ listed. Some (listed_text listed.0) };

    fn fmt<W: Write>(&self, f: &mut Formatter<W>) -> fmt::Result {
        let Instance { key, number, sum } = self.0;
        let (id, router) = (RouterId(key.id), key.router);
        let (number, sum) = (FloorShown(number), SumShown(sum));
        match key.kind {
            Kind::Router => write!(f, "router {id} {router} {number} {sum}"),
            Kind::Network => write!(f, "network {id} {router} {number} {sum}"),
        }
    }
}

/// A walk: the routers that it met, what it cost, and the name of how it ended.
#[derive(Clone, Copy, Debug, PartialEq, Eq)]
pub struct WalkShown<'a> {
    pub routers: &'a [RouterId],
    pub cost: u128,
    pub end: &'a str,
}

/// As `2.2.2.2 1.1.1.1 cost 20 arrived`.
impl Display for WalkShown<'_> {
    ghost use Rattle.std.specs.Prelude.{Some};
    ghost use Rattle.ospf_views.specs.Texts.{walk_text};

    ghost output = { λ walk. Some (walk_text walk) };

    fn fmt<W: Write>(&self, f: &mut Formatter<W>) -> fmt::Result {
        write_routers(f, self.routers)?;
        write!(f, "cost {} {}", self.cost, self.end)
    }
}

// A checksum as it is printed: four hexadecimal digits.
#[derive(Clone, Copy)]
struct SumShown(u16);

impl Display for SumShown {
    ghost use Rattle.std.specs.Prelude.{Some};
    ghost use Rattle.ospf_script.specs.Texts.{hexadecimal};

    ghost output = { λ sum. Some (hexadecimal 4 sum.0) };

    fn fmt<W: Write>(&self, f: &mut Formatter<W>) -> fmt::Result {
        write!(f, "{:04x}", self.0)
    }
}

// Router IDs, each before a space.
fn write_routers<W: Write>(f: &mut Formatter<W>, routers: &[RouterId]) -> fmt::Result
    ensures { WritesOnOk W.Write.write_str_gives f.old result (routers_text routers.now) f.new }
{
    for router in routers {
        write!(f, "{router} ")?;
    }
    Ok(())
}
