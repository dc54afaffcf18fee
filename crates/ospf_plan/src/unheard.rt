//! Interfaces of one network of which neither sends to the other.

ghost use Rattle.std.specs.Prelude.{◌≡◌, ◌++◌, ◌∷◌, [], ℕ, IfOk, OnOk, if◌then◌else◌};
ghost use Rattle.std.specs.List.{filter_map, find};
ghost use Rattle.ospf_plan.specs.Ends.{holder_in, same_network};
ghost use Rattle.ospf_plan.specs.Wires.{has_wire, is_wired, wire_key};
ghost use Rattle.ospf_plan.specs.Unheard.{AreByNetwork, IsNearOf, are_silent, is_ahead, is_plugged, members_in, near_in, outward_wire, unheard, unheard_by};

use crate::ends::{LinkEnd, port_of};
use crate::fault::AreaFault;
use crate::finding::{Finding, push_one};
use crate::index::{Network, holder_in, is_found, network_of};
use crate::wires::{PeerWire, WireKey, heard, key_of};
use std::alloc::{AllocError, Global};
use std::collections::{BTreeMap, BTreeSet};

// The interfaces of each network, in order.
type Members = BTreeMap<Network, Vec<LinkEnd>>;

// Whom interfaces have to hear.
#[derive(Drop)]
pub(crate) struct Near {
    // Which are outward.
    outward: BTreeSet<WireKey>,
    all: Members,
    // Without the outward ones.
    inward: Members,
}

// Adds, in order, the interfaces that have to hear an earlier one, where neither sends to it.
pub(crate) fn push_unheard(
    alloc: Global,
    findings: &mut Vec<Finding>,
    ends: &[LinkEnd],
    ports: &BTreeMap<u32, LinkEnd>,
    wired: &BTreeSet<WireKey>,
    wires: &[PeerWire],
) -> Result<(), AllocError>
    ensures { OnOk result (findings.new.items ≡ findings.old.items
        ++ unheard_by (holder_in ports.now) (has_wire wired.now) wires.now ends.now) }
{
    let mut plugged = Vec::from_slice(alloc, ends)?;
    plugged.retain(|end| is_plugged(ports, end));
    let near = gather(alloc, &plugged, &outward(alloc, ports, wires)?)?;
    for end in &plugged {
        push_one(findings, unheard(&near, wired, end))?;
    }
    Ok(())
}

// Whether an interface has a port, and is the first that has it.
fn is_plugged(ports: &BTreeMap<u32, LinkEnd>, end: &LinkEnd) -> bool
    ensures { result ≡ is_plugged (holder_in ports.now) end.now }
{
    end.port.is_some() && is_found(holder_in(ports, u32::from(port_of(end))), end)
}

// The wires to ports that no interface has, as wires to port 0.
fn outward(
    alloc: Global,
    ports: &BTreeMap<u32, LinkEnd>,
    wires: &[PeerWire],
) -> Result<Vec<PeerWire>, AllocError>
    ensures { IfOk result (λ some. some.items
        ≡ filter_map (outward_wire (holder_in ports.now)) wires.now) }
{
    let mut some = Vec::new(alloc);
    for wire in wires {
        if holder_in(ports, u32::from(wire.peer)).is_none() {
            let end = wire.end;
            some.push(PeerWire { end, peer: 0 })?;
        }
    }
    Ok(some)
}

// Whom these have to hear, by the wires that lead outward.
fn gather(alloc: Global, ends: &[LinkEnd], wires: &[PeerWire]) -> Result<Near, AllocError>
    ensures { IfOk result (λ n. IsNearOf n (λ e. is_wired wires.now (wire_key e 0)) ends.now) }
{
    let outward = heard(alloc, wires)?;
    let mut rest = Vec::from_slice(alloc, ends)?;
    rest.retain(|end| !outward.contains(&key_of(end, 0)));
    let (all, inward) = (members(alloc, ends)?, members(alloc, &rest)?);
    Ok(Near {
        outward,
        all,
        inward,
    })
}

// The interfaces of each network.
fn members(alloc: Global, ends: &[LinkEnd]) -> Result<Members, AllocError>
    ensures { IfOk result (λ m. AreByNetwork m ends.now) }
{
    let mut map = BTreeMap::new(alloc);
    for end in ends {
        add_member(alloc, &mut map, network_of(&end.address), *end)?;
    }
    Ok(map)
}

// Adds an interface behind those of its network.
fn add_member(
    alloc: Global,
    map: &mut Members,
    network: Network,
    end: LinkEnd,
) -> Result<(), AllocError>
    ensures { OnOk result ((q : ℕ × ℕ) → members_in map.new q
        ≡ members_in map.old q ++ (if same_network network q then end ∷ [] else [])) }
{
    let mut ends = match map.remove(&network) {
        Some(ends) => ends,
        None => Vec::new(alloc),
    };
    ends.push(end)?;
    map.insert(network, ends)?;
    Ok(())
}

// An interface that has to hear an earlier one, and neither sends to the other.
fn unheard(near: &Near, wired: &BTreeSet<WireKey>, here: &LinkEnd) -> Option<Finding>
    ensures { result ≡ unheard (near_in near.now) (has_wire wired.now) here.now }
{
    let other = first_silent(near.of(here), wired, here)?;
    if !is_ahead(&other, here) {
        return None;
    }
    let (fault, here) = (AreaFault::Unheard, *here);
    Some(Finding { fault, other, here })
}

impl Near {
    // Whom an interface has to hear.
    fn of(&self, end: &LinkEnd) -> &[LinkEnd]
        ensures { result.now ≡ near_in self.now end.now }
    {
        let is_outward = self.outward.contains(&key_of(end, 0));
        let map = if is_outward { &self.inward } else { &self.all };
        match map.get(&network_of(&end.address)) {
            None => &[],
            Some(ends) => ends,
        }
    }
}

// The first interface that does not send to another, nor that to it.
fn first_silent(ends: &[LinkEnd], wired: &BTreeSet<WireKey>, here: &LinkEnd) -> Option<LinkEnd>
    ensures { result ≡ find (λ d. are_silent (has_wire wired.now) d here.now) ends.now }
{
    ends.iter()
        .copied()
        .find(|end| are_silent(wired, end, here))
}

// Whether neither of two interfaces sends to the other.
fn are_silent(wired: &BTreeSet<WireKey>, one: &LinkEnd, other: &LinkEnd) -> bool
    ensures { result ≡ are_silent (has_wire wired.now) one.now other.now }
{
    let sends = wired.contains(&key_of(one, port_of(other)));
    let hears = wired.contains(&key_of(other, port_of(one)));
    !(sends || hears)
}

// Whether an interface is an earlier one.
fn is_ahead(one: &LinkEnd, other: &LinkEnd) -> bool
    ensures { result ≡ is_ahead one.now other.now }
{
    one.file < other.file || (one.file == other.file && one.link < other.link)
}
