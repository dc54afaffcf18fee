//! The LSAs of a listing as a value of JSON.

ghost use Rattle.std.specs.Prelude.{◌≡◌, IfOk, List, string_bytes};
ghost use Rattle.serde_json.specs.View.{members_view, view};
ghost use Rattle.ospf_lsa.specs.Lsa.{IsNetworkLsa, IsRouterLsa};
ghost use Rattle.ospf_graph.specs.Advertisements.{Advertisement};
ghost use Rattle.ospf_graph.specs.declared.graph.Vertex.TheVariants as vertex;
ghost use Rattle.ospf_graph.specs.EdgeLists.Listed.{advertisements_of};
ghost use Rattle.ospf_graph.specs.EdgeLists.Near.{AreEdgesAt};
ghost use Rattle.ospf_inspect.specs.Json.{IsArray};
ghost use Rattle.ospf_inspect.specs.Values.{SaysLsasInJson, TellsAttached, TellsLink, TellsLsa, TellsLsas, TellsNetwork, TellsRouter, instance_data, member_data, network_data, router_data, stub_data, virtual_data, way_data};

use crate::drawing::Under;
use crate::json::json_line;
use crate::lsas::{
    Flags, LsaShown, NetworkName, Sum, flags_of, joins, name_of, shown_of, stands_for,
};
use ospf_base::{Addr, Kind, RouterId};
use ospf_graph::edges::edges_at;
use ospf_graph::{Edge, Vertex};
use ospf_lsa::{Attached, Link, LinkKind, Links, Listing, Lsa, LsaView};
use ospf_script::FloorShown;
use serde_json::{Map, Value, json, put};
use std::alloc::{AllocError, Global};

/// The LSAs of a listing as one JSON value on a line: an array, in their order, with one object
/// each, which shows what `lsas_text` does. An `lsa` that is a `router` has `links`, and one that
/// is a `network` its `attached` routers.
///
/// `AllocError` where memory runs out.
pub fn lsas_json(alloc: Global, listing: &Listing) -> Result<String, AllocError>
    ensures { IfOk result (λ text. SaysLsasInJson (advertisements_of listing.now) listing.now
        (string_bytes text)) }
{
    let value = lsas_value(alloc, listing)?;
    json_line(alloc, &value)
}

// The LSAs as an array.
fn lsas_value(alloc: Global, listing: &Listing) -> Result<Value, AllocError>
    ensures { IfOk result (λ value. TellsLsas (advertisements_of listing.now) listing.now
        (view value)) }
{
    let mut items = Vec::new(alloc);
    for lsa in listing.lsas() {
        items.push(lsa_value(alloc, listing, lsa)?)?;
    }
    Ok(Value::Array(items))
}

// An LSA as an object.
fn lsa_value(alloc: Global, listing: &Listing, lsa: &Lsa) -> Result<Value, AllocError>
    ensures { IfOk result (λ value. TellsLsa (advertisements_of listing.now) lsa.now (view value)) }
{
    let view = lsa.view();
    match view.kind() {
        Kind::Router => router_value(alloc, listing, &view),
        Kind::Network => network_value(alloc, listing, &view),
    }
}

// A router-LSA as an object.
fn router_value(alloc: Global, listing: &Listing, lsa: &LsaView) -> Result<Value, AllocError>
    requires { IsRouterLsa lsa.now }
    ensures { IfOk result (λ value. TellsRouter (advertisements_of listing.now) lsa.now
        (view value)) }
{
    let router = lsa.key().router;
    let edges = edges_at(alloc, listing, Vertex::Router(router))?;
    let links = links_value(alloc, &edges, router, lsa.links())?;
    router_object(alloc, router, shown_of(lsa), flags_of(lsa), links)
}

// A router-LSA as an object, with these links.
fn router_object(
    alloc: Global,
    router: RouterId,
    shown: LsaShown,
    flags: u8,
    links: Value,
) -> Result<Value, AllocError>
    ensures { IfOk result (λ value. view value
        ≡ router_data router shown.age shown.instance flags (view links)) }
{
    let flags = format!(in alloc; "{}", Flags(flags))?;
    let router = format!(in alloc; "{router}")?;
    let mut members = instance_members(alloc, shown)?;
    put(
        &mut members,
        alloc,
        "lsa",
        Value::try_from_str(alloc, "router")?,
    )?;
    put(&mut members, alloc, "router", Value::String(router))?;
    put(&mut members, alloc, "flags", Value::String(flags))?;
    put(&mut members, alloc, "links", links)?;
    Ok(Value::Object(members))
}

// What each object of an LSA has: its age, LS sequence number and checksum.
fn instance_members(alloc: Global, shown: LsaShown) -> Result<Map<String, Value>, AllocError>
    ensures { IfOk result (λ members. members_view members.entries
        ≡ instance_data shown.age shown.instance) }
{
    let number = format!(in alloc; "{}", FloorShown(shown.instance.number))?;
    let sum = format!(in alloc; "{}", Sum(shown.instance.sum))?;
    let mut members = Map::new(alloc);
    put(&mut members, alloc, "age", Value::from(shown.age))?;
    put(&mut members, alloc, "number", Value::String(number))?;
    put(&mut members, alloc, "sum", Value::String(sum))?;
    Ok(members)
}

// The links of a router as an array, by the edges that touch it.
fn links_value(
    alloc: Global,
    edges: &[Edge],
    router: RouterId,
    links: Links,
) -> Result<Value, AllocError>
    ensures { (adverts : List Advertisement) → AreEdgesAt adverts (vertex.Router router) edges.now →
        IfOk result (λ value. IsArray (TellsLink adverts router) links.entry (view value)) }
{
    let mut items = Vec::new(alloc);
    for link in links {
        items.push(link_value(alloc, edges, router, link)?)?;
    }
    Ok(Value::Array(items))
}

// A link of a router as an object, by the edges that touch the router.
fn link_value(
    alloc: Global,
    edges: &[Edge],
    router: RouterId,
    link: Link,
) -> Result<Value, AllocError>
    ensures { (adverts : List Advertisement) → AreEdgesAt adverts (vertex.Router router) edges.now →
        IfOk result (λ value. TellsLink adverts router link (view value)) }
{
    let from = Vertex::Router(router);
    match link.kind {
        LinkKind::PointToPoint => {
            let both_ways = joins(edges, from, Vertex::Router(RouterId(link.id)));
            way_value(alloc, "router", link, !both_ways)
        }
        LinkKind::Transit => {
            let both_ways = joins(edges, from, Vertex::Network(link.id));
            way_value(alloc, "network", link, !both_ways)
        }
        LinkKind::Stub => stub_value(alloc, link),
        LinkKind::Virtual => virtual_value(alloc, RouterId(link.id)),
    }
}

// A link to a router or a transit network as an object.
fn way_value(alloc: Global, what: &str, link: Link, one_way: bool) -> Result<Value, AllocError>
    ensures { IfOk result (λ value. view value ≡ way_data what.now link one_way) }
{
    let to = format!(in alloc; "{}", Addr(link.id))?;
    let from = format!(in alloc; "{}", Addr(link.link_data))?;
    json!(in alloc; {"link": what, "to": to, "from": from, "cost": link.metric, "one_way": one_way})
}

// A stub network as an object.
fn stub_value(alloc: Global, link: Link) -> Result<Value, AllocError>
    ensures { IfOk result (λ value. view value ≡ stub_data link) }
{
    let prefix = Under {
        address: link.id,
        mask: link.link_data,
    };
    let prefix = format!(in alloc; "{prefix}")?;
    json!(in alloc; {"link": "stub", "prefix": prefix, "cost": link.metric})
}

// A virtual link as an object.
fn virtual_value(alloc: Global, to: RouterId) -> Result<Value, AllocError>
    ensures { IfOk result (λ value. view value ≡ virtual_data to.0) }
{
    let to = format!(in alloc; "{to}")?;
    json!(in alloc; {"link": "virtual", "to": to})
}

// A network-LSA as an object.
fn network_value(alloc: Global, listing: &Listing, lsa: &LsaView) -> Result<Value, AllocError>
    requires { IsNetworkLsa lsa.now }
    ensures { IfOk result (λ value. TellsNetwork (advertisements_of listing.now) lsa.now
        (view value)) }
{
    let key = lsa.key();
    let edges = edges_at(alloc, listing, Vertex::Network(key.id))?;
    let attached = attached_value(alloc, &edges, key.id, lsa.attached())?;
    let unused = !stands_for(listing, key.id, key.router);
    network_object(alloc, name_of(lsa), shown_of(lsa), attached, unused)
}

// A network-LSA as an object, with these routers.
fn network_object(
    alloc: Global,
    name: NetworkName,
    shown: LsaShown,
    attached: Value,
    unused: bool,
) -> Result<Value, AllocError>
    ensures { IfOk result (λ value. view value
        ≡ network_data name shown.age shown.instance (view attached) unused) }
{
    let prefix = Under {
        address: name.id.0,
        mask: name.mask,
    };
    let prefix = format!(in alloc; "{prefix}")?;
    let id = format!(in alloc; "{}", name.id)?;
    let router = format!(in alloc; "{}", name.router)?;
    let mut members = instance_members(alloc, shown)?;
    put(
        &mut members,
        alloc,
        "lsa",
        Value::try_from_str(alloc, "network")?,
    )?;
    put(&mut members, alloc, "prefix", Value::String(prefix))?;
    put(&mut members, alloc, "id", Value::String(id))?;
    put(&mut members, alloc, "router", Value::String(router))?;
    put(&mut members, alloc, "unused", Value::Bool(unused))?;
    put(&mut members, alloc, "attached", attached)?;
    Ok(Value::Object(members))
}

// The routers that a network names as an array, by the edges that touch it.
fn attached_value(
    alloc: Global,
    edges: &[Edge],
    network: u32,
    attached: Attached,
) -> Result<Value, AllocError>
    ensures { (adverts : List Advertisement) →
        AreEdgesAt adverts (vertex.Network network) edges.now →
        IfOk result (λ value. IsArray (TellsAttached adverts network) attached.entry (view value)) }
{
    let mut items = Vec::new(alloc);
    for router in attached {
        items.push(attached_router(alloc, edges, network, router)?)?;
    }
    Ok(Value::Array(items))
}

// A router that a network names as an object, by the edges that touch the network.
fn attached_router(
    alloc: Global,
    edges: &[Edge],
    network: u32,
    router: RouterId,
) -> Result<Value, AllocError>
    ensures { (adverts : List Advertisement) →
        AreEdgesAt adverts (vertex.Network network) edges.now →
        IfOk result (λ value. TellsAttached adverts network router (view value)) }
{
    let both_ways = joins(edges, Vertex::Network(network), Vertex::Router(router));
    member_value(alloc, router, !both_ways)
}

// A router that a network names as an object.
fn member_value(alloc: Global, router: RouterId, one_way: bool) -> Result<Value, AllocError>
    ensures { IfOk result (λ value. view value ≡ member_data router one_way) }
{
    let router = format!(in alloc; "{router}")?;
    json!(in alloc; {"router": router, "one_way": one_way})
}
