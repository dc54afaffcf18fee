//! Which interface is the first on a network, or with an address.

ghost use Rattle.std.specs.Prelude.{◌≡◌, ◌==◌, ℕ, IfOk, OnOk, Some, None, cond};
ghost use Rattle.std.specs.Option.{option_or};
ghost use Rattle.ospf_plan.specs.Ends.{AreFirsts, AreHolders, ArePorts, AreRouters, end_in, holder_in, network_key, others, same_network, is_found};

use crate::ends::{LinkEnd, port_of};
use ospf_base::mask_of;
use ospf_config::InterfaceAddress;
use std::alloc::{AllocError, Global};
use std::collections::BTreeMap;

/// A network: how many bits its prefix has, and the number that they begin.
pub(crate) type Network = (u8, u32);

// The network of an interface.
pub(crate) fn network_of(address: &InterfaceAddress) -> Network
    ensures { result ≡ network_key address.now }
{
    (address.length, address.address.0 & mask_of(address.length))
}

// The first interface on each network.
pub(crate) fn firsts(
    alloc: Global,
    ends: &[LinkEnd],
) -> Result<BTreeMap<Network, LinkEnd>, AllocError>
    ensures { IfOk result (λ m. AreFirsts m ends.now) }
{
    let mut map = BTreeMap::new(alloc);
    for end in ends {
        add_end(&mut map, network_of(&end.address), *end)?;
    }
    Ok(map)
}

// The first interface with each address.
pub(crate) fn holders(alloc: Global, ends: &[LinkEnd]) -> Result<BTreeMap<u32, LinkEnd>, AllocError>
    ensures { IfOk result (λ m. AreHolders m ends.now) }
{
    let mut map = BTreeMap::new(alloc);
    for end in ends {
        add_holder(&mut map, end.address.address.0, *end)?;
    }
    Ok(map)
}

// The first interface with each port.
pub(crate) fn ports(alloc: Global, ends: &[LinkEnd]) -> Result<BTreeMap<u32, LinkEnd>, AllocError>
    ensures { IfOk result (λ m. ArePorts m ends.now) }
{
    let mut map = BTreeMap::new(alloc);
    for end in ends {
        add_holder(&mut map, u32::from(port_of(end)), *end)?;
    }
    Ok(map)
}

// The first interface of each router.
pub(crate) fn routers(alloc: Global, ends: &[LinkEnd]) -> Result<BTreeMap<u32, LinkEnd>, AllocError>
    ensures { IfOk result (λ m. AreRouters m ends.now) }
{
    let mut map = BTreeMap::new(alloc);
    for end in ends {
        add_holder(&mut map, end.router.0, *end)?;
    }
    Ok(map)
}

// What a map has at a network.
pub(crate) fn end_in(map: &BTreeMap<Network, LinkEnd>, network: Network) -> Option<LinkEnd>
    ensures { result ≡ end_in map.now network }
{
    map.get(&network).copied()
}

// What a map has at an address.
pub(crate) fn holder_in(map: &BTreeMap<u32, LinkEnd>, address: u32) -> Option<LinkEnd>
    ensures { result ≡ holder_in map.now address }
{
    map.get(&address).copied()
}

// The interfaces that are not the first on their networks.
pub(crate) fn others(
    alloc: Global,
    ends: &[LinkEnd],
    firsts: &BTreeMap<Network, LinkEnd>,
) -> Result<Vec<LinkEnd>, AllocError>
    requires { AreFirsts firsts.now ends.now }
    ensures { IfOk result (λ rest. rest.items ≡ others ends.now) }
{
    let mut rest = Vec::from_slice(alloc, ends)?;
    rest.retain(|end| !is_found(end_in(firsts, network_of(&end.address)), end));
    Ok(rest)
}

// Keeps an interface as the first on a network, unless there is one.
fn add_end(
    ends: &mut BTreeMap<Network, LinkEnd>,
    network: Network,
    end: LinkEnd,
) -> Result<(), AllocError>
    ensures { OnOk result ((q : ℕ × ℕ) →
        end_in ends.new q ≡ option_or (end_in ends.old q)
        (cond (same_network network q) (Some end) None)) }
{
    if ends.contains_key(&network) {
        return Ok(());
    }
    match ends.insert(network, end) {
        Ok(_) => Ok(()),
        Err(_) => Err(AllocError),
    }
}

// Keeps an interface as the first with an address, unless there is one.
fn add_holder(
    ends: &mut BTreeMap<u32, LinkEnd>,
    address: u32,
    end: LinkEnd,
) -> Result<(), AllocError>
    ensures { OnOk result ((a : ℕ) →
        holder_in ends.new a ≡ option_or (holder_in ends.old a)
        (cond (address == a) (Some end) None)) }
{
    if ends.contains_key(&address) {
        return Ok(());
    }
    match ends.insert(address, end) {
        Ok(_) => Ok(()),
        Err(_) => Err(AllocError),
    }
}

// Whether an interface is the one that was found.
pub(crate) fn is_found(found: Option<LinkEnd>, end: &LinkEnd) -> bool
    ensures { result ≡ is_found found end.now }
{
    match found {
        None => false,
        Some(first) => first.file == end.file && first.link == end.link,
    }
}
