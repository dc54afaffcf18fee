//! What a router has as it starts.

ghost use Rattle.std.specs.Prelude.{◌≡◌, IfOk};
ghost use Rattle.ospf_router.specs.Starts.{AreLinksOf, IsAreaOf, IsLinkOf, iface_of};

use ospf_area::{Area, AreaLink, LinkSettings};
use ospf_base::{Addr, RouterId, mask_of};
use ospf_config::{Config, Interface};
use ospf_lsdb::Lsdb;
use ospf_neighbour::Neighbours;
use ospf_neighbour::iface::{Iface, IfaceSettings, IfaceState};
use std::alloc::{AllocError, Global};
use std::collections::BTreeSet;

/// The part of the area of a router that starts.
///
/// `AllocError` where memory runs out.
pub(crate) fn area_of(
    config: &Config,
    dd_start: u32,
    floor: i32,
    alloc: Global,
) -> Result<Area, AllocError>
    ensures { IfOk result (λ area. IsAreaOf config.now dd_start floor area) }
{
    let links = links_of(config.router_id, &config.interfaces, alloc)?;
    let stubs = Vec::from_slice(alloc, &config.stubs)?;
    Ok(Area {
        router: config.router_id,
        area: config.area,
        stub_router: config.stub_router,
        passes_over: config.passes_over,
        links,
        stubs,
        database: Lsdb::new(alloc),
        direct: Vec::new(alloc),
        numbering: Vec::new(alloc),
        floor,
        tick: 0,
        next_dd: dd_start,
        sent: BTreeSet::new(alloc),
        heard: Vec::new(alloc),
        max_seq: floor,
    })
}

// The links of a configuration, in its order.
fn links_of(
    router: RouterId,
    interfaces: &[Interface],
    alloc: Global,
) -> Result<Vec<AreaLink>, AllocError>
    ensures { IfOk result (λ links. AreLinksOf router interfaces.now links.items) }
{
    let mut links = Vec::new(alloc);
    for interface in interfaces {
        links.push(link_of(router, interface, alloc))?;
    }
    Ok(links)
}

// A link with no neighbour.
fn link_of(router: RouterId, interface: &Interface, alloc: Global) -> AreaLink
    ensures { IsLinkOf router interface.now result }
{
    AreaLink {
        iface: iface_of(router, interface),
        settings: LinkSettings {
            cost: interface.cost,
            retransmit: interface.retransmit,
            transmit_delay: interface.transmit_delay,
            mtu: interface.mtu,
            suppressed: interface.prefix_suppression,
        },
        neighbours: Neighbours::new(alloc),
        delayed: Vec::new(alloc),
        elects: false,
    }
}

// The interface of a link that is down.
fn iface_of(router: RouterId, interface: &Interface) -> Iface
    ensures { result ≡ iface_of router interface.now }
{
    Iface {
        settings: IfaceSettings {
            router,
            kind: interface.kind,
            address: interface.address.address,
            mask: mask_of(interface.address.length),
            priority: interface.priority,
            hello: interface.hello,
            dead: u32::from(interface.dead),
        },
        state: IfaceState::Down,
        dr: Addr::NOWHERE,
        backup: Addr::NOWHERE,
        wait: 0,
        hello_in: 0,
    }
}
