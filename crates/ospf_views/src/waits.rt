//! What a router waits for.

ghost use Rattle.std.specs.Fmt.{WritesOnOk};
ghost use Rattle.std.specs.Prelude.{◌≡◌, IfOk, flat_map, option_map, string_bytes, take};
ghost use Rattle.ospf_views.specs.Waits.{asked_text, acknowledgement_waits, acknowledgements_line, alone_waits, elected_waits, exchange_waits, full_waits, interface_line, interface_of, neighbour_why, neighbours_why, request_line, request_waits, requested_text, requests_line, retransmission_line, stands_line, state_waits, two_way_waits, type_text, why_of, why_text};

use crate::shown::ListedShown;
use ospf_area::AreaLink;
use ospf_base::{Addr, NETWORK_LSA, ROUTER_LSA, RouterId};
use ospf_journal::iface_text;
use ospf_lsa::LsaHeader;
use ospf_neighbour::iface::{Iface, IfaceState};
use ospf_neighbour::{Exchanging, Listed, Neighbour, NeighbourState};
use ospf_router::Router;
use std::alloc::{AllocError, Global};
use std::fmt::{self, Display, Formatter, Write};

// How many LSAs of a list are named.
const MOST_NAMED: usize = 3;

/// What a link waits for, or a Router ID on it, a line each; `None` for no such link, or no more.
///
/// `AllocError` where memory runs out.
pub fn why(
    router: &Router,
    link: usize,
    neighbour: Option<RouterId>,
    alloc: Global,
) -> Result<Option<String>, AllocError>
    ensures { IfOk result (λ said. option_map string_bytes said
        ≡ why_of router.now.area link neighbour) }
{
    let Some(area) = router.area() else {
        return Ok(None);
    };
    match area.links.get(link) {
        Some(there) => Ok(Some(why_on(link, there, neighbour, alloc)?)),
        None => Ok(None),
    }
}

/// The interface of a link, as the first line of `why`; `None` for no such link, or no more.
///
/// `AllocError` where memory runs out.
pub fn interface_line(
    router: &Router,
    link: usize,
    alloc: Global,
) -> Result<Option<String>, AllocError>
    ensures { IfOk result (λ said. option_map string_bytes said
        ≡ interface_of router.now.area link) }
{
    let Some(area) = router.area() else {
        return Ok(None);
    };
    match area.links.get(link) {
        Some(there) => Ok(Some(interface_on(link, &there.iface, alloc)?)),
        None => Ok(None),
    }
}

// Of a link that is there.
fn interface_on(number: usize, iface: &Iface, alloc: Global) -> Result<String, AllocError>
    ensures { IfOk result (λ said. string_bytes said ≡ interface_line number iface.now) }
{
    let shown = InterfaceShown { number, iface };
    format!(in alloc; "{shown}")
}

// An interface, by the number of its link.
#[derive(Clone, Copy)]
struct InterfaceShown<'a> {
    number: usize,
    iface: &'a Iface,
}

impl Display for InterfaceShown<'_> {
    ghost use Rattle.std.specs.Prelude.{Some};
    ghost use Rattle.ospf_views.specs.Waits.{interface_line};

    ghost output = { λ shown. Some (interface_line shown.number shown.iface.now) };

    fn fmt<W: Write>(&self, f: &mut Formatter<W>) -> fmt::Result {
        write_interface(f, self.number, self.iface)
    }
}

// Of a link that is there.
fn why_on(
    number: usize,
    link: &AreaLink,
    neighbour: Option<RouterId>,
    alloc: Global,
) -> Result<String, AllocError>
    ensures { IfOk result (λ said. string_bytes said ≡ why_text number link.now neighbour) }
{
    match neighbour {
        Some(router) => {
            let why = WhyRouter {
                number,
                link,
                router,
            };
            format!(in alloc; "{why}")
        }
        None => {
            let why = WhyLink { number, link };
            format!(in alloc; "{why}")
        }
    }
}

/// What a link and its neighbours wait for.
#[derive(Clone, Copy)]
pub struct WhyLink<'a> {
    pub number: usize,
    pub link: &'a AreaLink,
}

/// A line of its interface, and then of each neighbour what it waits for.
impl Display for WhyLink<'_> {
    ghost use Rattle.std.specs.Prelude.{Some};
    ghost use Rattle.ospf_views.specs.Waits.{link_why};

    ghost output = { λ why. Some (link_why why.number why.link.now) };

    fn fmt<W: Write>(&self, f: &mut Formatter<W>) -> fmt::Result {
        let link = self.link;
        write_interface(f, self.number, &link.iface)?;
        write_neighbours(f, self.number, &link.iface, link.neighbours.all())
    }
}

/// What a Router ID on a link waits for.
#[derive(Clone, Copy)]
pub struct WhyRouter<'a> {
    pub number: usize,
    pub link: &'a AreaLink,
    pub router: RouterId,
}

/// As `link 0 neighbour 2.2.2.2 Init`, and a line of what it waits for.
impl Display for WhyRouter<'_> {
    ghost use Rattle.std.specs.Prelude.{Some};
    ghost use Rattle.ospf_neighbour.specs.Neighbours.{neighbour_of};
    ghost use Rattle.ospf_views.specs.Waits.{one_why};

    ghost output = { λ why. Some (one_why why.number why.link.now why.router
        (neighbour_of why.link.now.neighbours why.router)) };

    fn fmt<W: Write>(&self, f: &mut Formatter<W>) -> fmt::Result {
        let link = self.link;
        match link.neighbours.get(self.router) {
            Some(neighbour) => write_neighbour(f, self.number, &link.iface, neighbour),
            None => {
                write_stands(f, self.number, self.router, NeighbourState::Down)?;
                write_alone(f, link.iface.state)
            }
        }
    }
}

// The number of a link, and its interface.
#[tactic(auto, unfolding(crate::specs::Waits::interface_line))]
fn write_interface<W: Write>(f: &mut Formatter<W>, link: usize, iface: &Iface) -> fmt::Result
    ensures { WritesOnOk W.Write.write_str_gives f.old result (interface_line link iface.now)
        f.new }
{
    let (state, dr, backup) = (iface_text(iface.state), iface.dr, iface.backup);
    write!(f, "link {link} interface {state} dr {dr} backup {backup}\n")
}

// What the neighbours of a link wait for.
#[tactic(auto, unfolding(crate::specs::Waits::neighbours_why))]
fn write_neighbours<W: Write>(
    f: &mut Formatter<W>,
    link: usize,
    iface: &Iface,
    neighbours: &[Neighbour],
) -> fmt::Result
    ensures { WritesOnOk W.Write.write_str_gives f.old result
        (neighbours_why link iface.now neighbours.now) f.new }
{
    if neighbours.len() == 0 {
        return write_alone(f, iface.state);
    }
    for neighbour in neighbours {
        write_neighbour(f, link, iface, neighbour)?;
    }
    Ok(())
}

// What a link without neighbours waits for.
fn write_alone<W: Write>(f: &mut Formatter<W>, state: IfaceState) -> fmt::Result
    ensures { WritesOnOk W.Write.write_str_gives f.old result (alone_waits state) f.new }
{
    match state {
        IfaceState::Down => f.write_str("  waiting for the link to come up\n"),
        _ => f.write_str("  waiting for a Hello\n"),
    }
}

// A neighbour of a link, and what it waits for.
#[tactic(auto, unfolding(crate::specs::Waits::neighbour_why))]
fn write_neighbour<W: Write>(
    f: &mut Formatter<W>,
    link: usize,
    iface: &Iface,
    neighbour: &Neighbour,
) -> fmt::Result
    ensures { WritesOnOk W.Write.write_str_gives f.old result
        (neighbour_why link iface.now neighbour.now) f.new }
{
    write_stands(f, link, neighbour.router(), neighbour.state())?;
    write_state(f, iface, neighbour)?;
    write_requests(f, neighbour.requests(), neighbour.asked().0)?;
    write_retransmission(f, neighbour.retransmission())?;
    write_full(f, neighbour)
}

// The number of a link, and a neighbour there in a state.
#[tactic(auto, unfolding(crate::specs::Waits::stands_line))]
fn write_stands<W: Write>(
    f: &mut Formatter<W>,
    link: usize,
    router: RouterId,
    state: NeighbourState,
) -> fmt::Result
    ensures { WritesOnOk W.Write.write_str_gives f.old result (stands_line link router state)
        f.new }
{
    write!(f, "link {link} neighbour {router} {state}\n")
}

// What the state of a neighbour waits for.
#[tactic(auto, unfolding(crate::specs::Waits::state_waits))]
fn write_state<W: Write>(f: &mut Formatter<W>, iface: &Iface, neighbour: &Neighbour) -> fmt::Result
    ensures { WritesOnOk W.Write.write_str_gives f.old result
        (state_waits neighbour.now.state iface.now neighbour.now) f.new }
{
    match neighbour.state() {
        NeighbourState::Down => f.write_str("  waiting for a Hello\n"),
        NeighbourState::Init => {
            let own = iface.settings.router;
            write!(f, "  waiting for a Hello that lists {own}\n")
        }
        NeighbourState::TwoWay => write_two_way(f, iface),
        NeighbourState::ExStart => {
            f.write_str("  waiting for a Database Description that decides who is master\n")
        }
        NeighbourState::Exchange => write_exchange(f, neighbour.exchanging()),
        NeighbourState::Loading | NeighbourState::Full => Ok(()),
    }
}

// What a neighbour in 2-Way waits for.
fn write_two_way<W: Write>(f: &mut Formatter<W>, iface: &Iface) -> fmt::Result
    ensures { WritesOnOk W.Write.write_str_gives f.old result
        (two_way_waits iface.now.state iface.now.wait iface.now.dr) f.new }
{
    let wait = iface.wait;
    match iface.state {
        IfaceState::Waiting => write!(f, "  waiting for the wait timer, {wait} ticks left\n"),
        _ => write_elected(f, iface.dr),
    }
}

// What it waits for after Waiting, where this is the Designated Router.
fn write_elected<W: Write>(f: &mut Formatter<W>, dr: Addr) -> fmt::Result
    ensures { WritesOnOk W.Write.write_str_gives f.old result (elected_waits dr) f.new }
{
    if dr.0 == Addr::NOWHERE.0 {
        f.write_str("  waiting for a Designated Router: no router here has a priority above 0\n")
    } else {
        f.write_str("  stays here: these two need no adjacency\n")
    }
}

// What a neighbour in Exchange waits for.
fn write_exchange<W: Write>(f: &mut Formatter<W>, exchanging: Exchanging) -> fmt::Result
    ensures { WritesOnOk W.Write.write_str_gives f.old result (exchange_waits exchanging) f.new }
{
    let number = exchanging.number;
    if exchanging.is_master {
        write!(
            f,
            "  waiting for the slave's Database Description with sequence number {number}\n"
        )
    } else {
        write!(
            f,
            "  waiting for the master's next Database Description, after sequence number {number}\n"
        )
    }
}

// The LSAs that are to come by Request.
#[tactic(auto, unfolding(crate::specs::Waits::request_waits))]
fn write_requests<W: Write>(
    f: &mut Formatter<W>,
    requests: &[LsaHeader],
    asked: usize,
) -> fmt::Result
    ensures { WritesOnOk W.Write.write_str_gives f.old result (request_waits requests.now asked)
        f.new }
{
    let count = requests.len();
    if count == 0 {
        return Ok(());
    }
    write_requests_line(f, count, asked)?;
    write_first_requests(f, requests)
}

// How many they are, and how many of them the last Request named.
#[tactic(auto, unfolding(crate::specs::Waits::requests_line))]
fn write_requests_line<W: Write>(f: &mut Formatter<W>, count: usize, asked: usize) -> fmt::Result
    ensures { WritesOnOk W.Write.write_str_gives f.old result (requests_line count asked) f.new }
{
    write_requested(f, count)?;
    write_asked(f, asked)
}

// How many they are.
#[tactic(auto, unfolding(crate::specs::Waits::requested_text))]
fn write_requested<W: Write>(f: &mut Formatter<W>, count: usize) -> fmt::Result
    ensures { WritesOnOk W.Write.write_str_gives f.old result (requested_text count) f.new }
{
    write!(f, "  waiting for requested LSAs: {count}")
}

// How many of them the last Request named.
#[tactic(auto, unfolding(crate::specs::Waits::asked_text))]
fn write_asked<W: Write>(f: &mut Formatter<W>, asked: usize) -> fmt::Result
    ensures { WritesOnOk W.Write.write_str_gives f.old result (asked_text asked) f.new }
{
    write!(f, ", {asked} of them asked for\n")
}

// The first of them.
fn write_first_requests<W: Write>(f: &mut Formatter<W>, requests: &[LsaHeader]) -> fmt::Result
    ensures { WritesOnOk W.Write.write_str_gives f.old result
        (flat_map request_line (take 3 requests.now)) f.new }
{
    write_named(f, first_named(requests))
}

// Those of some that are named.
fn first_named<T>(all: &[T]) -> &[T]
    ensures { result.now ≡ take 3 all.now }
{
    &all[..all.len().min(MOST_NAMED)]
}

// LSAs by their names.
fn write_named<W: Write>(f: &mut Formatter<W>, headers: &[LsaHeader]) -> fmt::Result
    ensures { WritesOnOk W.Write.write_str_gives f.old result (flat_map request_line headers.now)
        f.new }
{
    for header in headers {
        write_request(f, header)?;
    }
    Ok(())
}

// One of them.
fn write_request<W: Write>(f: &mut Formatter<W>, header: &LsaHeader) -> fmt::Result
    ensures { WritesOnOk W.Write.write_str_gives f.old result (request_line header.now) f.new }
{
    let (id, router) = (RouterId(header.id), header.router);
    f.write_str("    ")?;
    write_type(f, header.kind)?;
    write!(f, " {id} {router}\n")
}

// The name of an LS type.
fn write_type<W: Write>(f: &mut Formatter<W>, kind: u8) -> fmt::Result
    ensures { WritesOnOk W.Write.write_str_gives f.old result (type_text kind) f.new }
{
    if kind == ROUTER_LSA {
        f.write_str("router")
    } else if kind == NETWORK_LSA {
        f.write_str("network")
    } else {
        write!(f, "type {kind}")
    }
}

// The instances that a neighbour has not acknowledged.
#[tactic(auto, unfolding(crate::specs::Waits::acknowledgement_waits))]
fn write_retransmission<W: Write>(f: &mut Formatter<W>, listed: &[Listed]) -> fmt::Result
    ensures { WritesOnOk W.Write.write_str_gives f.old result (acknowledgement_waits listed.now)
        f.new }
{
    let count = listed.len();
    if count == 0 {
        return Ok(());
    }
    write_acknowledgements_line(f, count)?;
    write_first_instances(f, listed)
}

// How many they are.
#[tactic(auto, unfolding(crate::specs::Waits::acknowledgements_line))]
fn write_acknowledgements_line<W: Write>(f: &mut Formatter<W>, count: usize) -> fmt::Result
    ensures { WritesOnOk W.Write.write_str_gives f.old result (acknowledgements_line count) f.new }
{
    write!(f, "  waiting for acknowledgments: {count}\n")
}

// The first of them.
fn write_first_instances<W: Write>(f: &mut Formatter<W>, listed: &[Listed]) -> fmt::Result
    ensures { WritesOnOk W.Write.write_str_gives f.old result
        (flat_map retransmission_line (take 3 listed.now)) f.new }
{
    write_instances(f, first_named(listed))
}

// Instances by their names.
fn write_instances<W: Write>(f: &mut Formatter<W>, listed: &[Listed]) -> fmt::Result
    ensures { WritesOnOk W.Write.write_str_gives f.old result
        (flat_map retransmission_line listed.now) f.new }
{
    for entry in listed {
        write!(f, "    {}\n", ListedShown(entry.instance))?;
    }
    Ok(())
}

// A neighbour in Full of which nothing is awaited.
#[tactic(auto, unfolding(crate::specs::Waits::full_waits))]
fn write_full<W: Write>(f: &mut Formatter<W>, neighbour: &Neighbour) -> fmt::Result
    ensures { WritesOnOk W.Write.write_str_gives f.old result
        (full_waits neighbour.now.state neighbour.now.requests neighbour.now.retransmission) f.new }
{
    match (
        neighbour.state(),
        neighbour.requests(),
        neighbour.retransmission(),
    ) {
        (NeighbourState::Full, [], []) => f.write_str("  waiting for nothing\n"),
        _ => Ok(()),
    }
}
