//! What stands around an interface.

ghost use Rattle.std.specs.Prelude.{◌≡◌, List, IfOk};
ghost use Rattle.ospf_plan.specs.Ends.{AreFirsts, AreMaps, first_around};
ghost use Rattle.ospf_plan.specs.Findings.{around_of, beside, delayed_with};
ghost use Rattle.ospf_plan.specs.declared.ends.LinkEnd.{LinkEnd};

use crate::ends::{LinkEnd, electors, port_of, slow_ends};
use crate::finding::Surroundings;
use crate::index::{
    Network, end_in, firsts, holder_in, holders, is_found, network_of, others, ports, routers,
};
use ospf_base::{InterfaceKind, mask_of};
use ospf_config::InterfaceAddress;
use std::alloc::{AllocError, Global};
use std::collections::BTreeMap;

// The first interfaces of an area, by Router ID, by address, by port and by network.
#[derive(Drop)]
pub(crate) struct Maps {
    routers: BTreeMap<u32, LinkEnd>,
    holders: BTreeMap<u32, LinkEnd>,
    firsts: BTreeMap<Network, LinkEnd>,
    // Without the firsts, and without the firsts and the seconds.
    seconds: BTreeMap<Network, LinkEnd>,
    pub(crate) thirds: BTreeMap<Network, LinkEnd>,
    // Of those that can be elected.
    electors: BTreeMap<Network, LinkEnd>,
    // Of those without the electors before.
    successors: BTreeMap<Network, LinkEnd>,
    // Of those that are slow.
    slow: BTreeMap<Network, LinkEnd>,
    pub(crate) ports: BTreeMap<u32, LinkEnd>,
}

impl Maps {
    // What stands around an interface.
    pub(crate) fn around(&self, end: &LinkEnd) -> Surroundings
        ensures { (ends : List LinkEnd) → AreMaps self.now ends → result ≡ around_of ends end.now }
    {
        let network = network_of(&end.address);
        Surroundings {
            router: holder_in(&self.routers, end.router.0),
            holder: holder_in(&self.holders, end.address.address.0),
            first: end_in(&self.firsts, network),
            second: end_in(&self.seconds, network),
            third: end_in(&self.thirds, network),
            elector: end_in(&self.electors, network),
            successor: end_in(&self.successors, network),
            delayed: self.delayed(end),
            wider: around(&self.firsts, &end.address),
            plug: holder_in(&self.ports, u32::from(port_of(end))),
        }
    }

    // The interface with which this one does not settle if it is slow.
    fn delayed(&self, end: &LinkEnd) -> Option<LinkEnd>
        ensures { (ends : List LinkEnd) → AreMaps self.now ends →
            result ≡ delayed_with ends end.now }
    {
        let network = network_of(&end.address);
        match end.kind {
            InterfaceKind::PointToPoint => end_in(&self.slow, network),
            InterfaceKind::Broadcast => {
                beside(
                    end_in(&self.firsts, network),
                    end_in(&self.seconds, network),
                    end,
                )
            }
        }
    }
}

// The first interface on the network of this one but itself, of which these are the first two.
fn beside(first: Option<LinkEnd>, second: Option<LinkEnd>, end: &LinkEnd) -> Option<LinkEnd>
    ensures { result ≡ beside first second end.now }
{
    if is_found(first, end) { second } else { first }
}

// The maps of an area's interfaces.
pub(crate) fn maps_of(alloc: Global, ends: &[LinkEnd]) -> Result<Maps, AllocError>
    ensures { IfOk result (λ m. AreMaps m ends.now) }
{
    let routers = routers(alloc, ends)?;
    let holders = holders(alloc, ends)?;
    let first = firsts(alloc, ends)?;
    let rest = others(alloc, ends, &first)?;
    let seconds = firsts(alloc, &rest)?;
    let more = others(alloc, &rest, &seconds)?;
    let thirds = firsts(alloc, &more)?;
    let some = electors(alloc, ends)?;
    let electors = firsts(alloc, &some)?;
    let successors = firsts(alloc, &others(alloc, &some, &electors)?)?;
    let slow = firsts(alloc, &slow_ends(alloc, ends)?)?;
    let ports = ports(alloc, ends)?;
    Ok(Maps {
        routers,
        holders,
        firsts: first,
        seconds,
        thirds,
        electors,
        successors,
        slow,
        ports,
    })
}

// The first interface on the shortest network of fewer bits that holds an address.
fn around(firsts: &BTreeMap<Network, LinkEnd>, address: &InterfaceAddress) -> Option<LinkEnd>
    ensures { (ends : List LinkEnd) → AreFirsts firsts.now ends →
        result ≡ first_around ends address.now address.now.length }
{
    let mut found = None;
    for length in 0..address.length {
        let network = (length, address.address.0 & mask_of(length));
        found = found.or(end_in(firsts, network));
    }
    found
}
