//! The addresses of routers on transit networks.

ghost use Rattle.std.specs.Prelude.{◌≡◌, ◌∷◌, [], OnOk, IfOk, nat_eq};
ghost use Rattle.ospf_graph.specs.Pairs.{pair_code};
ghost use Rattle.std.specs.HashMap.{get};
ghost use Rattle.ospf_graph.specs.EdgeLists.Addresses.{AddsAddresses, AddsTold};
ghost use Rattle.ospf_graph.specs.EdgeLists.Index.{AreAddressesOn};
ghost use Rattle.ospf_graph.specs.EdgeLists.Listed.{advertisement_of, advertisements_of};

use crate::pair_order;
use ospf_base::{Kind, RouterId};
use ospf_lsa::{Link, LinkKind, Links, Listing, Lsa};
use std::alloc::{AllocError, Global};
use std::collections::HashMap;

/// The Link Data of the first type 2 link of each router to each network, by the place of the pair.
/// `AllocError` where memory runs out.
pub(crate) fn addresses_in(
    alloc: Global,
    listing: &Listing,
) -> Result<HashMap<u64, u32>, AllocError>
    ensures { IfOk result (λ addresses. AreAddressesOn (advertisements_of listing.now)
        (get nat_eq addresses)) }
{
    let mut addresses = HashMap::new(alloc);
    for lsa in listing.lsas() {
        add_told(lsa, &mut addresses)?;
    }
    Ok(addresses)
}

/// The address of a router on a network.
pub(crate) fn address_at(addresses: &HashMap<u64, u32>, router: RouterId, id: u32) -> Option<u32>
    ensures { result ≡ get nat_eq addresses.now (pair_code router.0 id) }
{
    addresses.get(&pair_order(router.0, id)).copied()
}

// Adds the addresses that an LSA says.
fn add_told(lsa: &Lsa, addresses: &mut HashMap<u64, u32>) -> Result<(), AllocError>
    ensures { OnOk result (AddsTold (advertisement_of lsa.now) (get nat_eq addresses.old)
        (get nat_eq addresses.new)) }
{
    let view = lsa.view();
    match view.kind() {
        Kind::Router => {
            add_addresses(view.key().router, view.links(), addresses)?;
            Ok(())
        }
        Kind::Network => Ok(()),
    }
}

// Adds the addresses that links of a router say.
fn add_addresses(
    router: RouterId,
    links: Links,
    addresses: &mut HashMap<u64, u32>,
) -> Result<(), AllocError>
    ensures { OnOk result (AddsAddresses router links.entry (get nat_eq addresses.old)
        (get nat_eq addresses.new)) }
{
    for link in links {
        add_address(router, link, addresses)?;
    }
    Ok(())
}

// Adds the address that a link says, if it is the router's first to its network.
fn add_address(
    router: RouterId,
    link: Link,
    addresses: &mut HashMap<u64, u32>,
) -> Result<(), AllocError>
    ensures { OnOk result (AddsAddresses router (link ∷ []) (get nat_eq addresses.old)
        (get nat_eq addresses.new)) }
{
    if link.kind != LinkKind::Transit {
        return Ok(());
    }
    let pair = pair_order(router.0, link.id);
    if addresses.contains_key(&pair) {
        return Ok(());
    }
    addresses.insert(pair, link.link_data)?;
    Ok(())
}
