//! Whether a copy says what is wanted, compared in place: nothing is built for it.

ghost use Rattle.std.specs.Prelude.{◌≡◌, ◌≤◌, ◌/◌, ◌-◌, ◌&&◌, pos, List, [], Some, length, take, drop, option_copied};
ghost use Rattle.std.specs.List.{flat_map};
ghost use Rattle.std.specs.Str.{bytes_eq};
ghost use Rattle.ospf_base.specs.Bytes.{number_bytes};
ghost use Rattle.ospf_base.specs.Sums.{contents};
ghost use Rattle.ospf_base.specs.declared.ids.RouterId.{RouterId};
ghost use Rattle.ospf_lsa.specs.Attached.{router_bytes, routers_bytes};
ghost use Rattle.ospf_lsa.specs.Header.{header_bytes};
ghost use Rattle.ospf_lsa.specs.Link.{link_bytes};
ghost use Rattle.ospf_lsa.specs.Value.{network_value, router_value};
ghost use Rattle.ospf_lsa.specs.declared.link.Link.{Link};
ghost use Rattle.ospf_originate.specs.Wants.Made.{says};
ghost use Rattle.ospf_originate.specs.Wants.Said.{behind, is_end, stub_bytes, subnet_bytes, links_bytes, router_link_bytes, lower_bytes, higher_bytes};
ghost use Rattle.ospf_originate.specs.Wants.Wanted.{advertised_mask, attached_routers, interface_links, is_full, own_links, router_link};
ghost use Rattle.ospf_originate.specs.Wants.Wanted.WantedValue.{RouterLsa, NetworkLsa};

use crate::contents::wants::{
    advertised_mask, broadcast_link, is_full, router_link, stub_link, subnet_link,
};
use ospf_area::AreaLink;
use ospf_base::{
    Age, InterfaceKind, LSA_HEADER, NETWORK_LSA, OPTIONS, ROUTER_LSA, RouterId, StubNetwork, u16_at,
};
use ospf_lsa::{ENTRIES_AT, LENGTH_AT, LINK_SIZE, Link, LsaHeader, LsaView, NUMBER_AT, OPTIONS_AT};
use ospf_neighbour::Neighbour;

/// Whether an LSA is the router-LSA that is wanted, number and checksum
/// aside (RFC 2328, section 12.4.1).
pub fn says_router(
    copy: &LsaView<'_>,
    stub_router: bool,
    router: RouterId,
    links: &[AreaLink],
    stubs: &[StubNetwork],
) -> bool
    ensures { result ≡ says (contents copy.now)
        (RouterLsa router (own_links stub_router links.now stubs.now)) }
{
    let lsa = copy.as_bytes();
    let rest = behind_interfaces(Some(&lsa[ENTRIES_AT..]), stub_router, links);
    let rest = behind_stubs(rest, stubs);
    is_router_lsa(copy, router, rest)
}

/// Whether an LSA is the network-LSA that is wanted of a link, number and checksum
/// aside (RFC 2328, section 12.4.2).
pub fn says_network(copy: &LsaView<'_>, router: RouterId, link: &AreaLink) -> bool
    ensures { result ≡ says (contents copy.now)
        (NetworkLsa link.now.iface.settings.address.0 router (advertised_mask link.now)
        (attached_routers router link.now.neighbours)) }
{
    let lsa = copy.as_bytes();
    let rest = behind_attached(Some(&lsa[ENTRIES_AT..]), router, link.neighbours.all());
    let id = link.iface.settings.address.0;
    is_network_lsa(copy, id, router, advertised_mask(link), rest)
}

// What follows the links that the interfaces make.
#[tactic(auto, using(crate::proofs::Wants::SaidLemmas::behind_more, crate::proofs::Wants::SaidLemmas::behind_none))]
fn behind_interfaces<'a>(
    bytes: Option<&'a [u8]>,
    stub_router: bool,
    links: &[AreaLink],
) -> Option<&'a [u8]>
    ensures { option_copied result ≡ behind
        (flat_map link_bytes (interface_links stub_router links.now))
        (option_copied bytes.entry) }
{
    let mut rest = bytes;
    for link in links {
        rest = behind_links_at(rest, stub_router, link);
    }
    rest
}

// What follows the links to stub networks.
#[tactic(auto, using(crate::proofs::Wants::SaidLemmas::behind_more, crate::proofs::Wants::SaidLemmas::behind_none))]
fn behind_stubs<'a>(bytes: Option<&'a [u8]>, stubs: &[StubNetwork]) -> Option<&'a [u8]>
    ensures { option_copied result ≡ behind (flat_map stub_bytes stubs.now)
        (option_copied bytes.entry) }
{
    let mut rest = bytes;
    for stub in stubs {
        rest = behind_link(rest, &stub_link(stub));
    }
    rest
}

// What follows the links of a link.
fn behind_links_at<'a>(
    bytes: Option<&'a [u8]>,
    stub_router: bool,
    link: &AreaLink,
) -> Option<&'a [u8]>
    ensures { option_copied result ≡ behind (links_bytes stub_router link.now)
        (option_copied bytes.entry) }
{
    if link.iface.state.is_down() {
        return bytes;
    }
    match link.iface.settings.kind {
        InterfaceKind::PointToPoint => {
            let rest = behind_neighbours(bytes, stub_router, link, link.neighbours.all());
            behind_subnet(rest, link)
        }
        InterfaceKind::Broadcast => behind_link(bytes, &broadcast_link(stub_router, link)),
    }
}

// What follows the link to the subnet of a link, if it is not suppressed.
#[tactic(auto, using(crate::proofs::Wants::SaidLemmas::behind_none), unfolding(crate::specs::Wants::Said::subnet_bytes))]
fn behind_subnet<'a>(bytes: Option<&'a [u8]>, link: &AreaLink) -> Option<&'a [u8]>
    ensures { option_copied result ≡ behind (subnet_bytes link.now) (option_copied bytes.entry) }
{
    if link.settings.suppressed {
        bytes
    } else {
        behind_link(bytes, &subnet_link(link))
    }
}

// What follows the links to the fully adjacent neighbours of a link.
#[tactic(auto, using(crate::proofs::Wants::SaidLemmas::behind_more, crate::proofs::Wants::SaidLemmas::behind_none))]
fn behind_neighbours<'a>(
    bytes: Option<&'a [u8]>,
    stub_router: bool,
    link: &AreaLink,
    neighbours: &[Neighbour],
) -> Option<&'a [u8]>
    ensures { option_copied result ≡ behind
        (flat_map (router_link_bytes stub_router link.now) neighbours.now)
        (option_copied bytes.entry) }
{
    let mut rest = bytes;
    for neighbour in neighbours {
        rest = behind_neighbour(rest, stub_router, link, neighbour);
    }
    rest
}

// What follows the link to a neighbour, if it is fully adjacent.
#[tactic(auto, using(crate::proofs::Wants::SaidLemmas::behind_none), unfolding(crate::specs::Wants::Said::router_link_bytes))]
fn behind_neighbour<'a>(
    bytes: Option<&'a [u8]>,
    stub_router: bool,
    link: &AreaLink,
    neighbour: &Neighbour,
) -> Option<&'a [u8]>
    ensures { option_copied result ≡ behind (router_link_bytes stub_router link.now neighbour.now)
        (option_copied bytes.entry) }
{
    if is_full(neighbour) {
        behind_link(bytes, &router_link(stub_router, link, neighbour))
    } else {
        bytes
    }
}

// What follows a link.
fn behind_link<'a>(bytes: Option<&'a [u8]>, link: &Link) -> Option<&'a [u8]>
    ensures { option_copied result ≡ behind (link_bytes link.now) (option_copied bytes.entry) }
{
    behind(bytes, &link_bytes(link))
}

// What follows some bytes, if the others begin with them.
#[tactic(auto, unfolding(crate::specs::Wants::Said::behind))]
fn behind<'a>(bytes: Option<&'a [u8]>, front: &[u8]) -> Option<&'a [u8]>
    ensures { option_copied result ≡ behind front.now (option_copied bytes.entry) }
{
    match bytes {
        Some(bytes) => {
            if bytes.len() < front.len() {
                return None;
            }
            let (head, rest) = bytes.split_at(front.len());
            if head == front { Some(rest) } else { None }
        }
        None => None,
    }
}

// The bytes of a link, without TOS metrics (RFC 2328, appendix A.4.2).
fn link_bytes(link: &Link) -> [u8; 12]
    ensures { result ≡ link_bytes link.now }
{
    let (id, link_data, metric) = (link.id, link.link_data, link.metric);
    let [a, b, c, d] = id.to_be_bytes();
    let [e, f, g, h] = link_data.to_be_bytes();
    let [i, j] = metric.to_be_bytes();
    [a, b, c, d, e, f, g, h, link.kind.byte(), 0, i, j]
}

// Whether an LSA is the router-LSA of links, apart from number and checksum, if
// these bytes follow them.
fn is_router_lsa(lsa: &LsaView<'_>, router: RouterId, rest: Option<&[u8]>) -> bool
    ensures { (links : List Link) → option_copied rest.entry
        ≡ behind (flat_map link_bytes links) (Some (drop 24 lsa.now)) →
        result ≡ says (contents lsa.now) (RouterLsa router links) }
{
    let lsa = lsa.as_bytes();
    let size = u16_at(lsa, LENGTH_AT);
    let header = router_header(router, size);
    let [high, low] = link_count(size).to_be_bytes();
    let same = has_front(lsa, &header, &[0, 0, high, low]);
    let end = is_end(rest);
    same && end
}

// The header of a wanted router-LSA of this length.
fn router_header(router: RouterId, length: u16) -> LsaHeader
    ensures { result ≡ record (router_value router (pos 0) []).header { length = length } }
{
    LsaHeader {
        age: Age::new(0),
        options: OPTIONS,
        kind: ROUTER_LSA,
        id: router.0,
        router,
        number: 0,
        sum: 0,
        length,
    }
}

// The links that a router-LSA of this length has, if each is without TOS metrics.
fn link_count(size: u16) -> u16
    requires { 24 ≤ size }
    ensures { result ≡ (size - 24) / 12 }
{
    (size - ENTRIES_AT as u16) / LINK_SIZE as u16
}

// Whether an LSA has a header's Options, type, Link State ID, Advertising Router and length, and
// these first bytes of its body.
fn has_front(lsa: &[u8], header: &LsaHeader, body: &[u8]) -> bool
    requires { 24 ≤ length lsa.now }
    ensures { result ≡ (bytes_eq (take 10 (drop 2 lsa.now)) (take 10 (header_bytes header.now))
        && (bytes_eq (take 2 (drop 18 lsa.now)) (number_bytes 2 header.now.length)
        && bytes_eq (take 4 (drop 20 lsa.now)) body.now)) }
{
    let wanted = header.to_bytes();
    let (front, wanted_front) = (&lsa[OPTIONS_AT..NUMBER_AT], &wanted[OPTIONS_AT..NUMBER_AT]);
    let (size, wanted_size) = (&lsa[LENGTH_AT..LSA_HEADER], &wanted[LENGTH_AT..LSA_HEADER]);
    let start = &lsa[LSA_HEADER..ENTRIES_AT];
    front == wanted_front && size == wanted_size && start == body
}

// Whether nothing follows.
#[tactic(auto, unfolding(crate::specs::Wants::Said::is_end))]
fn is_end(bytes: Option<&[u8]>) -> bool
    ensures { result ≡ is_end (option_copied bytes.entry) }
{
    matches!(bytes, Some([]))
}

// What follows the routers attached to a network.
fn behind_attached<'a>(
    bytes: Option<&'a [u8]>,
    router: RouterId,
    neighbours: &[Neighbour],
) -> Option<&'a [u8]>
    ensures { option_copied result ≡ behind (routers_bytes (attached_routers router neighbours.now))
        (option_copied bytes.entry) }
{
    let rest = past_all_lower(bytes, router, neighbours);
    let rest = behind_router(rest, router);
    past_all_higher(rest, router, neighbours)
}

#[tactic(auto, using(crate::proofs::Wants::SaidLemmas::behind_more, crate::proofs::Wants::SaidLemmas::behind_none))]
fn past_all_lower<'a>(
    bytes: Option<&'a [u8]>,
    router: RouterId,
    neighbours: &[Neighbour],
) -> Option<&'a [u8]>
    ensures { option_copied result ≡ behind (flat_map (lower_bytes router) neighbours.now)
        (option_copied bytes.entry) }
{
    let mut rest = bytes;
    for neighbour in neighbours {
        rest = past_lower(rest, router, neighbour);
    }
    rest
}

// What follows the ID of a neighbour, if it is fully adjacent and has a lower Router ID.
#[tactic(auto, using(crate::proofs::Wants::SaidLemmas::behind_none), unfolding(crate::specs::Wants::Said::lower_bytes))]
fn past_lower<'a>(
    bytes: Option<&'a [u8]>,
    router: RouterId,
    neighbour: &Neighbour,
) -> Option<&'a [u8]>
    ensures { option_copied result ≡ behind (lower_bytes router neighbour.now)
        (option_copied bytes.entry) }
{
    if is_full(neighbour) && neighbour.router().0 < router.0 {
        behind_router(bytes, neighbour.router())
    } else {
        bytes
    }
}

// What follows a router's ID.
fn behind_router<'a>(bytes: Option<&'a [u8]>, router: RouterId) -> Option<&'a [u8]>
    ensures { option_copied result ≡ behind (router_bytes router) (option_copied bytes.entry) }
{
    behind(bytes, &router.0.to_be_bytes())
}

#[tactic(auto, using(crate::proofs::Wants::SaidLemmas::behind_more, crate::proofs::Wants::SaidLemmas::behind_none))]
fn past_all_higher<'a>(
    bytes: Option<&'a [u8]>,
    router: RouterId,
    neighbours: &[Neighbour],
) -> Option<&'a [u8]>
    ensures { option_copied result ≡ behind (flat_map (higher_bytes router) neighbours.now)
        (option_copied bytes.entry) }
{
    let mut rest = bytes;
    for neighbour in neighbours {
        rest = past_higher(rest, router, neighbour);
    }
    rest
}

// What follows the ID of a neighbour, if it is fully adjacent and has a higher Router ID.
#[tactic(auto, using(crate::proofs::Wants::SaidLemmas::behind_none), unfolding(crate::specs::Wants::Said::higher_bytes))]
fn past_higher<'a>(
    bytes: Option<&'a [u8]>,
    router: RouterId,
    neighbour: &Neighbour,
) -> Option<&'a [u8]>
    ensures { option_copied result ≡ behind (higher_bytes router neighbour.now)
        (option_copied bytes.entry) }
{
    if is_full(neighbour) && router.0 < neighbour.router().0 {
        behind_router(bytes, neighbour.router())
    } else {
        bytes
    }
}

// Whether an LSA is the network-LSA of routers, apart from number and checksum, if
// these bytes follow them.
fn is_network_lsa(
    lsa: &LsaView<'_>,
    id: u32,
    router: RouterId,
    mask: u32,
    rest: Option<&[u8]>,
) -> bool
    ensures { (routers : List RouterId) →
        option_copied rest.entry ≡ behind (routers_bytes routers) (Some (drop 24 lsa.now)) →
        result ≡ says (contents lsa.now) (NetworkLsa id router mask routers) }
{
    let lsa = lsa.as_bytes();
    let size = u16_at(lsa, LENGTH_AT);
    let header = network_header(id, router, size);
    let same = has_front(lsa, &header, &mask.to_be_bytes());
    let end = is_end(rest);
    same && end
}

// The header of a wanted network-LSA of this length.
fn network_header(id: u32, router: RouterId, length: u16) -> LsaHeader
    ensures { result ≡ record (network_value id router (pos 0) 0 []).header { length = length } }
{
    LsaHeader {
        age: Age::new(0),
        options: OPTIONS,
        kind: NETWORK_LSA,
        id,
        router,
        number: 0,
        sum: 0,
        length,
    }
}
