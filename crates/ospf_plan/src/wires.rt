//! Who sends to whom, by UDP ports.

ghost use Rattle.std.specs.Prelude.{◌≡◌, ◌||◌, ◌++◌, ◌∷◌, [], if◌then◌else◌, ℕ, IfOk, OnOk};
ghost use Rattle.std.specs.List.{filter_map};
ghost use Rattle.ospf_plan.specs.Ends.{holder_in};
ghost use Rattle.ospf_plan.specs.Wires.{AreHeard, distinct, fault_between, has_wire, is_beside, wire_key, same_wire, wire_fault, wires_at, wires_from, wires_of};

use crate::ends::{LinkEnd, end_of, port_of};
use crate::fault::AreaFault;
use crate::finding::{Finding, push_one};
use crate::index::{holder_in, network_of};
use ospf_config::{Config, Interface};
use std::alloc::{AllocError, Global};
use std::collections::{BTreeMap, BTreeSet};

/// An interface sends to a UDP port.
#[derive(Clone, Copy, Debug, PartialEq, Eq)]
pub struct PeerWire {
    pub end: LinkEnd,
    pub peer: u16,
}

/// What the interfaces of configurations send to, in order and each once.
pub(crate) fn wires_of(alloc: Global, configs: &[Config]) -> Result<Vec<PeerWire>, AllocError>
    ensures { IfOk result (λ wires. wires.items ≡ wires_of configs.now) }
{
    let mut wires = Vec::new(alloc);
    for (file, config) in configs.iter().enumerate() {
        push_all_wires(&mut wires, file, config)?;
    }
    distinct(alloc, &wires)
}

// What distinguishes wires: the interface by its numbers, and the port.
pub(crate) type WireKey = (usize, usize, u16);

// Each wire once, where it is first.
fn distinct(alloc: Global, wires: &[PeerWire]) -> Result<Vec<PeerWire>, AllocError>
    ensures { IfOk result (λ some. some.items ≡ distinct wires.now) }
{
    let mut set = BTreeSet::new(alloc);
    let mut some = Vec::new(alloc);
    for wire in wires {
        let key = key_of(&wire.end, wire.peer);
        push_unless(&mut some, set.contains(&key), *wire)?;
        add_wire(&mut set, key)?;
    }
    Ok(some)
}

// Adds a wire, unless it is known.
fn push_unless(wires: &mut Vec<PeerWire>, is_known: bool, wire: PeerWire) -> Result<(), AllocError>
    ensures { OnOk result (wires.new.items ≡ wires.old.items
        ++ (if is_known then [] else wire ∷ [])) }
{
    if !is_known {
        wires.push(wire)?;
    }
    Ok(())
}

// Adds what the interfaces of a configuration send to.
fn push_all_wires(wires: &mut Vec<PeerWire>, file: usize, config: &Config) -> Result<(), AllocError>
    ensures { OnOk result (wires.new.items ≡ wires.old.items ++ wires_at (file, config.now)) }
{
    for (link, interface) in config.interfaces.iter().enumerate() {
        push_wires(wires, &end_of(file, config, link, interface), interface)?;
    }
    Ok(())
}

// Adds what an interface sends to.
fn push_wires(
    wires: &mut Vec<PeerWire>,
    end: &LinkEnd,
    interface: &Interface,
) -> Result<(), AllocError>
    ensures { OnOk result (wires.new.items ≡ wires.old.items ++ wires_from end.now interface.now) }
{
    let end = *end;
    for port in &interface.peers {
        wires.push(PeerWire {
            end,
            peer: port.number,
        })?;
    }
    Ok(())
}

// The wires, to be looked up.
pub(crate) fn heard(alloc: Global, wires: &[PeerWire]) -> Result<BTreeSet<WireKey>, AllocError>
    ensures { IfOk result (λ set. AreHeard set wires.now) }
{
    let mut set = BTreeSet::new(alloc);
    for wire in wires {
        add_wire(&mut set, key_of(&wire.end, wire.peer))?;
    }
    Ok(set)
}

// Adds a wire.
fn add_wire(set: &mut BTreeSet<WireKey>, key: WireKey) -> Result<(), AllocError>
    ensures { OnOk result ((q : ℕ × ℕ × ℕ) →
        has_wire set.new q ≡ (has_wire set.old q || same_wire key q)) }
{
    match set.insert(key) {
        Ok(_) => Ok(()),
        Err(_) => Err(AllocError),
    }
}

// The key that distinguishes a wire.
pub(crate) fn key_of(end: &LinkEnd, peer: u16) -> WireKey
    ensures { result ≡ wire_key end.now peer }
{
    (end.file, end.link, peer)
}

// Adds what is wrong with the wires, in their order.
pub(crate) fn push_wire_faults(
    findings: &mut Vec<Finding>,
    ports: &BTreeMap<u32, LinkEnd>,
    heard: &BTreeSet<WireKey>,
    wires: &[PeerWire],
) -> Result<(), AllocError>
    ensures { OnOk result (findings.new.items ≡ findings.old.items
        ++ filter_map (wire_fault (holder_in ports.now) (has_wire heard.now)) wires.now) }
{
    for wire in wires {
        push_one(findings, wire_fault(ports, heard, wire))?;
    }
    Ok(())
}

// What is wrong with a wire: nobody is at its end, or one elsewhere, or one that sends not back.
fn wire_fault(
    ports: &BTreeMap<u32, LinkEnd>,
    heard: &BTreeSet<WireKey>,
    wire: &PeerWire,
) -> Option<Finding>
    ensures { result ≡ wire_fault (holder_in ports.now) (has_wire heard.now) wire.now }
{
    let here = wire.end;
    let Some(other) = holder_in(ports, u32::from(wire.peer)) else {
        return Some(Finding {
            fault: AreaFault::UnknownPeer(wire.peer),
            other: here,
            here,
        });
    };
    let fault = fault_between(heard, &other, &here)?;
    Some(Finding { fault, other, here })
}

// What is wrong where one sends to another: it is not on its network, or does not send to it.
fn fault_between(heard: &BTreeSet<WireKey>, other: &LinkEnd, here: &LinkEnd) -> Option<AreaFault>
    ensures { result ≡ fault_between (has_wire heard.now) other.now here.now }
{
    if !is_beside(other, here) {
        Some(AreaFault::WrongSubnetPeer)
    } else if !heard.contains(&key_of(other, port_of(here))) {
        Some(AreaFault::OneSided)
    } else {
        None
    }
}

// Whether two interfaces are on one network.
fn is_beside(one: &LinkEnd, other: &LinkEnd) -> bool
    ensures { result ≡ is_beside one.now other.now }
{
    let (here, there) = (network_of(&one.address), network_of(&other.address));
    here.0 == there.0 && here.1 == there.1
}
