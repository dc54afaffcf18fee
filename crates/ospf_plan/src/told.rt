//! Findings as they are printed.

ghost use Rattle.std.specs.Prelude.{◌≡◌};
ghost use Rattle.std.specs.Fmt.{WritesOnOk};
ghost use Rattle.ospf_config.specs.Texts.{kind_text};
ghost use Rattle.ospf_plan.specs.Shown.{other_text, place_text, port_text, side_text, value_text};

use crate::ends::LinkEnd;
use crate::fault::AreaFault;
use crate::finding::Finding;
use ospf_base::InterfaceKind;
use ospf_config::Port;
use std::fmt::{self, Display, Formatter, Write};

/// A finding, and the names of the files that its interfaces are in.
#[derive(Clone, Copy, Debug)]
pub struct NamedFinding<'a> {
    pub finding: Finding,
    pub here: &'a str,
    pub other: &'a str,
}

/// As `b.toml: A5 Hello: interface 1: hello 5, a.toml: interface 0: hello 10`.
impl<'a> Display for NamedFinding<'a> {
    ghost use Rattle.std.specs.Prelude.{Some};
    ghost use Rattle.ospf_plan.specs.Shown.{told_text};

    ghost output = { λ told. Some (told_text told) };

    fn fmt<W: Write>(&self, f: &mut Formatter<W>) -> fmt::Result {
        let fault = self.finding.fault;
        write!(f, "{}: {}: ", self.here, fault)?;
        write_side(f, fault, &self.finding.here)?;
        write_other(f, fault, &self.finding.other, self.other)
    }
}

// Writes what an interface has, and where.
fn write_side<W: Write>(f: &mut Formatter<W>, fault: AreaFault, end: &LinkEnd) -> fmt::Result
    ensures { WritesOnOk W.Write.write_str_gives f.old result (side_text fault end.now) f.new }
{
    write_place(f, fault, end)?;
    write_value(f, fault, end)
}

// Writes where a value stands.
fn write_place<W: Write>(f: &mut Formatter<W>, fault: AreaFault, end: &LinkEnd) -> fmt::Result
    ensures { WritesOnOk W.Write.write_str_gives f.old result (place_text fault end.now) f.new }
{
    match fault {
        AreaFault::SameRouter | AreaFault::Partitioned => Ok(()),
        _ => write!(f, "interface {}: ", end.link),
    }
}

// Writes a value, with its key.
fn write_value<W: Write>(f: &mut Formatter<W>, fault: AreaFault, end: &LinkEnd) -> fmt::Result
    ensures { WritesOnOk W.Write.write_str_gives f.old result (value_text fault end.now) f.new }
{
    match fault {
        AreaFault::SameRouter | AreaFault::Partitioned => write!(f, "router_id {}", end.router),
        AreaFault::Area => write!(f, "area {}", end.area),
        AreaFault::Kind => write!(f, "kind {}", kind_of(end.kind)),
        AreaFault::Hello => write!(f, "hello {}", end.hello),
        AreaFault::Dead => write!(f, "dead {}", end.dead),
        AreaFault::Mtu => write!(f, "mtu {}", end.mtu),
        AreaFault::NoDr | AreaFault::LoneDr => write!(f, "priority {}", end.priority),
        AreaFault::OneSided | AreaFault::SamePort => write_port(f, end.port),
        AreaFault::WrongSubnetPeer | AreaFault::Unheard => write_port(f, end.port),
        AreaFault::Cost => write!(f, "cost {}", end.cost),
        AreaFault::Delay => write!(f, "transmit_delay {}", end.transmit_delay),
        AreaFault::UnknownPeer(peer) => write!(f, "peers {peer}"),
        _ => write!(f, "address {}/{}", end.address.address, end.address.length),
    }
}

// A kind as it is written.
fn kind_of(kind: InterfaceKind) -> &'static str
    ensures { result.now ≡ kind_text kind }
{
    match kind {
        InterfaceKind::PointToPoint => "point-to-point",
        InterfaceKind::Broadcast => "broadcast",
    }
}

// Writes the port of an interface, if it has one.
fn write_port<W: Write>(f: &mut Formatter<W>, port: Option<Port>) -> fmt::Result
    ensures { WritesOnOk W.Write.write_str_gives f.old result (port_text port) f.new }
{
    match port {
        None => f.write_str("no port"),
        Some(port) => write!(f, "port {}", port.number),
    }
}

// Writes what the other interface has, where there is one.
fn write_other<W: Write>(
    f: &mut Formatter<W>,
    fault: AreaFault,
    end: &LinkEnd,
    name: &str,
) -> fmt::Result
    ensures { WritesOnOk W.Write.write_str_gives f.old result (other_text fault end.now name.now)
        f.new }
{
    match fault {
        AreaFault::NoNeighbor | AreaFault::UnknownPeer(_) | AreaFault::LoneDr => Ok(()),
        fault => {
            write!(f, ", {name}: ")?;
            write_side(f, fault, end)
        }
    }
}
