//! What tests are given: the table of one of two routers, and a router with one link
//! and the Hello that comes on it.

use ospf_base::{Addr, Prefix, RouterId};
use ospf_fib::Answer;
use ospf_graph::NextHop;
use ospf_lsa::{Link, LinkKind, Listing, Lsa};
use ospf_spf::RouteTable;
use std::alloc::Global;
use std::test::Fail;

pub(crate) const FIRST: RouterId = RouterId(0x0101_0101);

pub(crate) const SECOND: RouterId = RouterId(0x0202_0202);

// The number that a router uses first.
pub(crate) const FIRST_NUMBER: i32 = -0x7fff_ffff;

// An address beyond the second router.
pub(crate) const FAR: Addr = Addr(0xc0a8_0209);

// A router with one link.
pub(crate) const CONFIG: &str =
    "router_id = \"1.1.1.1\"\narea = \"0.0.0.0\"\n[[interface]]\nkind = \"point-to-point\"\naddress = \"10.0.0.1/30\"\ncost = 10\n";

// No number is below it.
pub(crate) const NO_FLOOR: i32 = -0x8000_0000;

// A Hello of 2.2.2.2 that lists 1.1.1.1.
pub(crate) const HELLO: [u8; 48] = [
    2, 1, 0, 48, 2, 2, 2, 2, 0, 0, 0, 0, 0xf5, 0x98, 0, 0, 0, 0, 0, 0, 0, 0, 0, 0, 0xff, 0xff,
    0xff, 0xfc, 0, 10, 2, 1, 0, 0, 0, 40, 0, 0, 0, 0, 0, 0, 0, 0, 1, 1, 1, 1,
];

pub(crate) fn link(kind: LinkKind, id: u32, link_data: u32, metric: u16) -> Link {
    Link {
        id,
        link_data,
        kind,
        metric,
    }
}

// The table of the first of two routers with a link between them and a stub
// network on the far side of the second, at this cost.
pub(crate) fn two_routers(alloc: Global, cost: u16) -> Result<RouteTable, Fail> {
    let first = [
        link(LinkKind::PointToPoint, SECOND.0, 0x0a00_0001, 10),
        link(LinkKind::Stub, 0x0a00_0000, 0xffff_fffc, 10),
    ];
    let second = [
        link(LinkKind::PointToPoint, FIRST.0, 0x0a00_0002, 10),
        link(LinkKind::Stub, 0x0a00_0000, 0xffff_fffc, 10),
        link(LinkKind::Stub, 0xc0a8_0200, 0xffff_ff00, cost),
    ];
    let mut listing = Listing::new(alloc);
    listing.add(Lsa::router(alloc, FIRST, FIRST_NUMBER, &first)?)?;
    listing.add(Lsa::router(alloc, SECOND, FIRST_NUMBER, &second)?)?;
    let table = RouteTable::of(alloc, &listing, FIRST)?;
    Ok(table)
}

// What a lookup of the far address answers, at the cost of the route.
pub(crate) fn far_answer(version: u64, cost: u64) -> Answer {
    Answer {
        version,
        prefix: Prefix {
            address: Addr(0xc0a8_0200),
            length: 24,
        },
        cost,
        hop: NextHop::PointToPoint {
            local: Addr(0x0a00_0001),
            router: SECOND,
        },
        hops: 1,
    }
}
