//! The lines of a journal as JSON objects.

ghost use Rattle.std.specs.Fmt.{WritesOnOk};
ghost use Rattle.std.specs.Prelude.{◌++◌, codes};
ghost use Rattle.ospf_journal.specs.Objects.{cause_members, change_members, elected_members, iface_states_members, moment_members, number_member, own_members, path_members, prefix_member, router_member, states_members};

use crate::change::{DroppedAt, RouterChange};
use crate::line::iface_text;
use crate::seen::SeenIface;
use ospf_base::{Kind, LsaKey, Prefix, RouterId};
use ospf_graph::Route;
use ospf_neighbour::NeighbourState;
use ospf_neighbour::iface::IfaceState;
use ospf_script::FloorShown;
use std::fmt::{self, Display, Formatter, Write};

/// A line of a journal as a JSON object: the tick, the router, and what changed of it.
#[derive(Clone, Copy, Debug)]
pub struct Object<'a> {
    pub tick: u64,
    pub router: RouterId,
    pub change: &'a RouterChange,
}

/// As `{"tick":1204,"router":"1.1.1.1","event":"no route","prefix":"10.0.0.0/30"}`.
impl Display for Object<'_> {
    ghost use Rattle.std.specs.Prelude.{Some};
    ghost use Rattle.ospf_journal.specs.Objects.{object_text};

    ghost output = { λ object. Some (object_text object) };

    fn fmt<W: Write>(&self, f: &mut Formatter<W>) -> fmt::Result {
        write_moment(f, self.tick, self.router)?;
        write_change(f, self.change)?;
        f.write_str("}")
    }
}

// The tick, and the router.
#[tactic(auto, unfolding(crate::specs::Objects::moment_members))]
fn write_moment<W: Write>(f: &mut Formatter<W>, tick: u64, router: RouterId) -> fmt::Result
    ensures { WritesOnOk W.Write.write_str_gives f.old result (moment_members tick router) f.new }
{
    write!(f, "{{\"tick\":{tick},\"router\":\"{router}\",")
}

// The members of what changed.
fn write_change<W: Write>(f: &mut Formatter<W>, change: &RouterChange) -> fmt::Result
    ensures { WritesOnOk W.Write.write_str_gives f.old result (change_members change.now) f.new }
{
    match change {
        RouterChange::Started => f.write_str("\"event\":\"started\""),
        RouterChange::Stopped => f.write_str("\"event\":\"stopped\""),
        RouterChange::Dropped(d) => {
            write!(f, "\"event\":\"dropped\",\"link\":{}", d.link)?;
            write_cause(f, d)
        }
        RouterChange::Neighbour {
            link,
            router,
            before,
            now,
        } => {
            write!(f, "\"event\":\"neighbour\",\"link\":{link}")?;
            write_neighbour(f, *router, *before, *now)
        }
        RouterChange::Interface { link, before, now } => {
            write!(f, "\"event\":\"interface\",\"link\":{link}")?;
            write_iface_states(f, *before, now.state)?;
            write_elected(f, now)
        }
        RouterChange::Issued { key, number } => {
            f.write_str("\"event\":\"issued\"")?;
            write_numbered(f, key, *number)
        }
        RouterChange::Flushed { key, number } => {
            f.write_str("\"event\":\"flushed\"")?;
            write_numbered(f, key, *number)
        }
        RouterChange::Removed { key } => write_removed(f, key),
        RouterChange::Route(route) => {
            f.write_str("\"event\":\"route\"")?;
            write_route(f, route)
        }
        RouterChange::NoRoute(prefix) => {
            f.write_str("\"event\":\"no route\"")?;
            write_prefix(f, prefix)
        }
    }
}

// Why a datagram was dropped, and where from.
#[tactic(auto, unfolding(crate::specs::Objects::cause_members))]
fn write_cause<W: Write>(f: &mut Formatter<W>, dropped: &DroppedAt) -> fmt::Result
    ensures { WritesOnOk W.Write.write_str_gives f.old result (cause_members dropped.now) f.new }
{
    let (cause, source) = (dropped.cause, dropped.source);
    write!(f, ",\"cause\":\"{cause}\",\"source\":\"{source}\"")
}

// A neighbour, the state that it had, and that which it has.
fn write_neighbour<W: Write>(
    f: &mut Formatter<W>,
    router: RouterId,
    before: NeighbourState,
    now: NeighbourState,
) -> fmt::Result
    ensures { WritesOnOk W.Write.write_str_gives f.old result
        (router_member router ++ states_members before now) f.new }
{
    write_router(f, router)?;
    write_states(f, before, now)
}

// A neighbour.
#[tactic(auto, unfolding(crate::specs::Objects::router_member))]
fn write_router<W: Write>(f: &mut Formatter<W>, router: RouterId) -> fmt::Result
    ensures { WritesOnOk W.Write.write_str_gives f.old result (router_member router) f.new }
{
    write!(f, ",\"neighbour\":\"{router}\"")
}

// A state that was, and one that is.
#[tactic(auto, unfolding(crate::specs::Objects::states_members))]
fn write_states<W: Write>(
    f: &mut Formatter<W>,
    before: NeighbourState,
    now: NeighbourState,
) -> fmt::Result
    ensures { WritesOnOk W.Write.write_str_gives f.old result (states_members before now) f.new }
{
    write!(f, ",\"before\":\"{before}\",\"now\":\"{now}\"")
}

// The same of an interface.
#[tactic(auto, unfolding(crate::specs::Objects::iface_states_members))]
fn write_iface_states<W: Write>(
    f: &mut Formatter<W>,
    before: IfaceState,
    now: IfaceState,
) -> fmt::Result
    ensures { WritesOnOk W.Write.write_str_gives f.old result (iface_states_members before now)
        f.new }
{
    let (before, now) = (iface_text(before), iface_text(now));
    write!(f, ",\"before\":\"{before}\",\"now\":\"{now}\"")
}

// The Designated Router and the Backup.
#[tactic(auto, unfolding(crate::specs::Objects::elected_members))]
fn write_elected<W: Write>(f: &mut Formatter<W>, iface: &SeenIface) -> fmt::Result
    ensures { WritesOnOk W.Write.write_str_gives f.old result (elected_members iface.now) f.new }
{
    write!(
        f,
        ",\"dr\":\"{}\",\"backup\":\"{}\"",
        iface.dr, iface.backup
    )
}

// An own LSA and its number.
fn write_numbered<W: Write>(f: &mut Formatter<W>, key: &LsaKey, number: i32) -> fmt::Result
    ensures { WritesOnOk W.Write.write_str_gives f.old result
        (own_members key.now ++ number_member number) f.new }
{
    write_own(f, key)?;
    write_number(f, number)
}

// An own LSA that leaves the database.
fn write_removed<W: Write>(f: &mut Formatter<W>, key: &LsaKey) -> fmt::Result
    ensures { WritesOnOk W.Write.write_str_gives f.old result
        (codes "\"event\":\"removed\"" ++ own_members key.now) f.new }
{
    f.write_str("\"event\":\"removed\"")?;
    write_own(f, key)
}

// The kind and the Link State ID of an own LSA.
#[tactic(auto, unfolding(crate::specs::Objects::own_members))]
fn write_own<W: Write>(f: &mut Formatter<W>, key: &LsaKey) -> fmt::Result
    ensures { WritesOnOk W.Write.write_str_gives f.old result (own_members key.now) f.new }
{
    let id = RouterId(key.id);
    match key.kind {
        Kind::Router => write!(f, ",\"lsa\":\"router\",\"id\":\"{id}\""),
        Kind::Network => write!(f, ",\"lsa\":\"network\",\"id\":\"{id}\""),
    }
}

// Its number.
#[tactic(auto, unfolding(crate::specs::Objects::number_member))]
fn write_number<W: Write>(f: &mut Formatter<W>, number: i32) -> fmt::Result
    ensures { WritesOnOk W.Write.write_str_gives f.old result (number_member number) f.new }
{
    write!(f, ",\"number\":\"{}\"", FloorShown(number))
}

// A route.
fn write_route<W: Write>(f: &mut Formatter<W>, route: &Route) -> fmt::Result
    ensures { WritesOnOk W.Write.write_str_gives f.old result
        (prefix_member route.now.prefix ++ path_members route.now) f.new }
{
    write_prefix(f, &route.prefix)?;
    write_path(f, route)
}

// A prefix.
#[tactic(auto, unfolding(crate::specs::Objects::prefix_member))]
fn write_prefix<W: Write>(f: &mut Formatter<W>, prefix: &Prefix) -> fmt::Result
    ensures { WritesOnOk W.Write.write_str_gives f.old result (prefix_member prefix.now) f.new }
{
    write!(f, ",\"prefix\":\"{prefix}\"")
}

// What a route costs, and its hops.
#[tactic(auto, unfolding(crate::specs::Objects::path_members))]
fn write_path<W: Write>(f: &mut Formatter<W>, route: &Route) -> fmt::Result
    ensures { WritesOnOk W.Write.write_str_gives f.old result (path_members route.now) f.new }
{
    write!(f, ",\"cost\":{},\"hops\":\"{}\"", route.cost, route.hops)
}
