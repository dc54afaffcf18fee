//! Which interfaces are on a network.

ghost use Rattle.std.specs.Prelude.{◌≡◌, ◌==◌, ◌++◌, ◌∷◌, [], ℕ, IfOk, OnOk, if◌then◌else◌, map};
ghost use Rattle.ospf_config.specs.Conflicts.{network_part};
ghost use Rattle.ospf_world.specs.Networks.{AreNetworks, places_on_network, router_links};
ghost use Rattle.ospf_world.specs.Worlds.{config_of};

use crate::slot::Slot;
use ospf_base::mask_of;
use ospf_config::{Config, InterfaceAddress};
use std::alloc::{AllocError, Global};
use std::collections::BTreeMap;

/// Where an interface of a world is: the place of its router's slot,
/// and the number of its link there.
#[derive(Clone, Copy)]
pub(crate) struct LinkPlace {
    pub(crate) place: usize,
    pub(crate) link: usize,
}

/// The interfaces on each network, by the number of the network, in the order of the
/// configurations. Networks of one number and of prefixes of several lengths are in one list.
pub(crate) type Networks = BTreeMap<u32, Vec<LinkPlace>>;

/// The interfaces of these routers.
///
/// `AllocError` where memory runs out.
pub(crate) fn networks_of(slots: &[Slot], alloc: Global) -> Result<Networks, AllocError>
    ensures { IfOk result (λ networks. AreNetworks networks (map config_of slots.now)) }
{
    let mut networks = BTreeMap::new(alloc);
    for (place, slot) in slots.iter().enumerate() {
        add_router(&mut networks, place, slot.config(), alloc)?;
    }
    Ok(networks)
}

/// Where the interfaces on a network are.
pub(crate) fn links_at(networks: &Networks, network: u32) -> &[LinkPlace]
    ensures { result.now ≡ places_on_network networks.now network }
{
    match networks.get(&network) {
        Some(there) => there,
        None => &[],
    }
}

/// The number of the network that an interface is attached to.
pub fn network_of(address: &InterfaceAddress) -> u32
    ensures { result ≡ network_part address.now }
{
    address.address.0 & mask_of(address.length)
}

// Adds the interfaces of a router.
fn add_router(
    networks: &mut Networks,
    place: usize,
    config: &Config,
    alloc: Global,
) -> Result<(), AllocError>
    ensures { OnOk result ((network : ℕ) → places_on_network networks.new network
        ≡ places_on_network networks.old network ++ router_links network place config.now) }
{
    for (link, interface) in config.interfaces.iter().enumerate() {
        let network = network_of(&interface.address);
        add_interface(networks, network, LinkPlace { place, link }, alloc)?;
    }
    Ok(())
}

// Adds an interface on a network.
fn add_interface(
    networks: &mut Networks,
    network: u32,
    at: LinkPlace,
    alloc: Global,
) -> Result<(), AllocError>
    ensures { OnOk result ((q : ℕ) → places_on_network networks.new q
        ≡ places_on_network networks.old q ++ (if q == network then at ∷ [] else [])) }
{
    let mut links = match networks.remove(&network) {
        Some(links) => links,
        None => Vec::new(alloc),
    };
    links.push(at)?;
    networks.insert(network, links)?;
    Ok(())
}
