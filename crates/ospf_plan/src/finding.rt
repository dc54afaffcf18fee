//! What is found.

ghost use Rattle.std.specs.Prelude.{◌≡◌, ◌++◌, IfOk, OnOk};
ghost use Rattle.std.specs.Option.{option_to_list};
ghost use Rattle.std.specs.List.{filter_map};
ghost use Rattle.ospf_base.specs.declared.interface.InterfaceKind.TheVariants as kind;
ghost use Rattle.ospf_plan.specs.Ends.{AreMaps, is_same};
ghost use Rattle.ospf_plan.specs.Findings.{every_fault, found, found_in, is_lone_dr, is_wrong, other_of, same_kind};
ghost use Rattle.ospf_plan.specs.Parts.{AreFindings};
ghost use Rattle.ospf_plan.specs.declared.ends.LinkEnd.{LinkEnd};

use crate::ends::{LinkEnd, ends_of, is_slow};
use crate::fault::{AreaFault, every_fault};
use crate::index::is_found;
use crate::maps::{Maps, maps_of};
use crate::parts::push_apart;
use crate::unheard::push_unheard;
use crate::wires::{heard, push_wire_faults, wires_of};
use ospf_base::InterfaceKind;
use ospf_config::Config;
use std::alloc::{AllocError, Global};

/// A fault, at an interface, and the other interface that it is about.
#[derive(Clone, Copy, Debug, PartialEq, Eq)]
pub struct Finding {
    pub fault: AreaFault,
    /// What the fault is about; `here` where there is none.
    pub other: LinkEnd,
    pub here: LinkEnd,
}

// What stands around an interface.
#[derive(Clone, Copy)]
pub(crate) struct Surroundings {
    // The first interface of a router with its Router ID.
    pub(crate) router: Option<LinkEnd>,
    // The first interface with its address.
    pub(crate) holder: Option<LinkEnd>,
    // The first three interfaces on its network.
    pub(crate) first: Option<LinkEnd>,
    pub(crate) second: Option<LinkEnd>,
    pub(crate) third: Option<LinkEnd>,
    // The first on its network that can be elected.
    pub(crate) elector: Option<LinkEnd>,
    // The second on its network that can be elected.
    pub(crate) successor: Option<LinkEnd>,
    // The one on its network with which it does not settle if it is slow.
    pub(crate) delayed: Option<LinkEnd>,
    // The first on the shortest network that holds its own.
    pub(crate) wider: Option<LinkEnd>,
    // The first with its port, or without a port where it has none.
    pub(crate) plug: Option<LinkEnd>,
}

/// What is wrong between the configurations of one area: in the order of the configurations and
/// of their interfaces, and for each interface in the order of the faults; then, in the same
/// order, of who sends to whom, and which interfaces do not hear each other; and then which
/// routers are not reached from the first.
///
/// `AllocError` where memory runs out.
pub fn findings(alloc: Global, configs: &[Config]) -> Result<Vec<Finding>, AllocError>
    ensures { IfOk result (λ findings. AreFindings configs.now findings.items) }
{
    let ends = ends_of(alloc, configs)?;
    let maps = maps_of(alloc, &ends)?;
    let wires = wires_of(alloc, configs)?;
    let wired = heard(alloc, &wires)?;
    let mut findings = found_in(alloc, &ends, &maps)?;
    push_wire_faults(&mut findings, &maps.ports, &wired, &wires)?;
    push_unheard(alloc, &mut findings, &ends, &maps.ports, &wired, &wires)?;
    push_apart(alloc, &mut findings, &ends, &maps.thirds)?;
    Ok(findings)
}

// Adds a finding, if there is one.
pub(crate) fn push_one(
    findings: &mut Vec<Finding>,
    found: Option<Finding>,
) -> Result<(), AllocError>
    ensures { OnOk result (findings.new.items ≡ findings.old.items ++ option_to_list found) }
{
    if let Some(finding) = found {
        findings.push(finding)?;
    }
    Ok(())
}

// What is found, in the order of the interfaces.
fn found_in(alloc: Global, ends: &[LinkEnd], maps: &Maps) -> Result<Vec<Finding>, AllocError>
    requires { AreMaps maps.now ends.now }
    ensures { IfOk result (λ findings. findings.items ≡ found_in ends.now) }
{
    let mut findings = Vec::new(alloc);
    for end in ends {
        let around = maps.around(end);
        push_found(&mut findings, &around, end)?;
    }
    Ok(findings)
}

// Adds what is found at an interface.
fn push_found(
    findings: &mut Vec<Finding>,
    around: &Surroundings,
    here: &LinkEnd,
) -> Result<(), AllocError>
    ensures { OnOk result (findings.new.items ≡ findings.old.items
        ++ filter_map (found around.now here.now) every_fault) }
{
    push_each(findings, around, here, &every_fault())
}

// Adds what is found of some faults at an interface.
fn push_each(
    findings: &mut Vec<Finding>,
    around: &Surroundings,
    here: &LinkEnd,
    faults: &[AreaFault],
) -> Result<(), AllocError>
    ensures { OnOk result (findings.new.items ≡ findings.old.items
        ++ filter_map (found around.now here.now) faults.now) }
{
    for fault in faults {
        push_one(findings, found(*fault, around, here))?;
    }
    Ok(())
}

// The finding of a fault at an interface, if there is one.
fn found(fault: AreaFault, around: &Surroundings, here: &LinkEnd) -> Option<Finding>
    ensures { result ≡ found around.now here.now fault }
{
    let other = other_of(fault, around)?;
    if !is_wrong(fault, around, &other, here) {
        return None;
    }
    let here = *here;
    Some(Finding { fault, other, here })
}

// The other interface of a fault.
fn other_of(fault: AreaFault, around: &Surroundings) -> Option<LinkEnd>
    ensures { result ≡ other_of fault around.now }
{
    match fault {
        AreaFault::SameRouter => around.router,
        AreaFault::SameAddress => around.holder,
        AreaFault::Mask => around.wider,
        AreaFault::TooManyRouters => around.third,
        AreaFault::NoDr => around.second,
        AreaFault::LoneDr => around.elector,
        AreaFault::Delay => around.delayed,
        AreaFault::SamePort => around.plug,
        _ => around.first,
    }
}

// Whether a fault is between the other interface and this one.
fn is_wrong(fault: AreaFault, around: &Surroundings, other: &LinkEnd, here: &LinkEnd) -> bool
    ensures { result ≡ is_wrong fault around.now other.now here.now }
{
    match fault {
        AreaFault::SameRouter => here.link == 0 && other.file != here.file,
        AreaFault::SameAddress => !is_same(other, here),
        AreaFault::Area => other.area.0 != here.area.0,
        AreaFault::Kind => !same_kind(other.kind, here.kind),
        AreaFault::Hello => other.hello != here.hello,
        AreaFault::Dead => other.dead != here.dead,
        AreaFault::Mtu => other.mtu != here.mtu,
        AreaFault::Mask => true,
        AreaFault::TooManyRouters => {
            is_found(around.first, here) && same_kind(here.kind, InterfaceKind::PointToPoint)
        }
        AreaFault::NoDr => {
            is_found(around.first, here)
                && same_kind(here.kind, InterfaceKind::Broadcast)
                && around.elector.is_none()
        }
        AreaFault::LoneDr => is_lone_dr(around, here),
        AreaFault::OneSided | AreaFault::WrongSubnetPeer | AreaFault::UnknownPeer(_) => false,
        AreaFault::Partitioned | AreaFault::Unheard => false,
        AreaFault::Cost => {
            same_kind(here.kind, InterfaceKind::PointToPoint) && other.cost != here.cost
        }
        AreaFault::NoNeighbor => around.second.is_none(),
        AreaFault::Delay => is_slow(here.transmit_delay) && !is_same(other, here),
        AreaFault::SamePort => here.port.is_some() && !is_same(other, here),
    }
}

// Whether it is the only interface that can be elected on a broadcast network of three or more.
fn is_lone_dr(around: &Surroundings, here: &LinkEnd) -> bool
    ensures { result ≡ is_lone_dr around.now here.now }
{
    is_found(around.elector, here)
        && same_kind(here.kind, InterfaceKind::Broadcast)
        && around.third.is_some()
        && around.successor.is_none()
}

// Whether two are one interface.
fn is_same(one: &LinkEnd, other: &LinkEnd) -> bool
    ensures { result ≡ is_same one.now other.now }
{
    one.file == other.file && one.link == other.link
}

// Whether two kinds are one.
pub(crate) fn same_kind(one: InterfaceKind, other: InterfaceKind) -> bool
    ensures { result ≡ same_kind one other }
{
    match (one, other) {
        (InterfaceKind::PointToPoint, InterfaceKind::PointToPoint) => true,
        (InterfaceKind::Broadcast, InterfaceKind::Broadcast) => true,
        (_, _) => false,
    }
}
