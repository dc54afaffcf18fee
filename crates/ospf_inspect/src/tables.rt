//! The routing tables of all routers.

ghost use Rattle.std.specs.Prelude.{◌≡◌, IfOk, string_bytes};
ghost use Rattle.serde_json.specs.View.{view};
ghost use Rattle.ospf_graph.specs.EdgeLists.Listed.{advertisements_of};
ghost use Rattle.ospf_files.specs.Shown.{routes_text};
ghost use Rattle.ospf_inspect.specs.Lines.{AreLines};
ghost use Rattle.ospf_inspect.specs.Tables.{SaysTable, SaysTableInJson, SaysTableLine, SaysTableLineOf, SaysTableOf, SaysTablesInJson, TellsRoot, TellsTable, TellsTables, hops_data, root_data, route_data, routes_data};

use crate::json::json_line;
use ospf_base::{Addr, Kind, RouterId};
use ospf_graph::{NextHop, Route};
use ospf_lsa::{Listing, Lsa};
use ospf_spf::RouteTable;
use ospf_table::table_line;
use serde_json::{Value, json};
use std::alloc::{AllocError, Global};
use std::fmt::Write;

/// The routing table of each router whose router-LSA is listed, in the order of Router IDs, each
/// below a line `router R` (RFC 2328, section 16.1).
///
/// `AllocError` where memory runs out.
pub fn tables_text(alloc: Global, listing: &Listing) -> Result<String, AllocError>
    ensures { IfOk result (λ text. AreLines (SaysTableOf (advertisements_of listing.now))
        listing.now (string_bytes text)) }
{
    let mut text = String::new(alloc);
    for lsa in listing.lsas() {
        text.push_str(&table_at(alloc, listing, lsa)?)?;
    }
    Ok(text)
}

/// The routing table of each router whose router-LSA is listed, as one value of JSON on a line: an
/// array, in the order of Router IDs, of an object each with the router as `root` and its
/// `routes`, as `table_json` has them.
///
/// `AllocError` where memory runs out.
pub fn tables_json(alloc: Global, listing: &Listing) -> Result<String, AllocError>
    ensures { IfOk result (λ text. SaysTablesInJson (advertisements_of listing.now) listing.now
        (string_bytes text)) }
{
    let value = tables_value(alloc, listing)?;
    json_line(alloc, &value)
}

/// The routing table of a router as one value of JSON on a line: an array of an object a route,
/// with its prefix, its cost and its hops, in the order of the table (RFC 2328, section 11).
///
/// `AllocError` where memory runs out.
pub fn table_json(alloc: Global, listing: &Listing, router: RouterId) -> Result<String, AllocError>
    ensures { IfOk result (λ text. SaysTableInJson (advertisements_of listing.now) router.0
        (string_bytes text)) }
{
    let value = table_value(alloc, listing, router)?;
    json_line(alloc, &value)
}

/// The routing table of each router whose router-LSA is listed, in the order of Router IDs, as an
/// object of JSON on a line each (`ospf_table::table_line`).
///
/// `AllocError` where memory runs out.
pub fn tables_lines(alloc: Global, listing: &Listing) -> Result<String, AllocError>
    ensures { IfOk result (λ text. AreLines (SaysTableLineOf (advertisements_of listing.now))
        listing.now (string_bytes text)) }
{
    let mut text = String::new(alloc);
    for lsa in listing.lsas() {
        text.push_str(&line_at(alloc, listing, lsa)?)?;
    }
    Ok(text)
}

/// The routing table of a router and lookups in it, as an object of JSON on a line
/// (`ospf_table::table_line`).
///
/// `AllocError` where memory runs out.
pub fn table_lines(
    alloc: Global,
    listing: &Listing,
    router: RouterId,
    addresses: &[Addr],
) -> Result<String, AllocError>
    ensures { IfOk result (λ text. SaysTableLine (advertisements_of listing.now) router.0
        addresses.now (string_bytes text)) }
{
    let table = RouteTable::of(alloc, listing, router)?;
    table_line(alloc, router, &table, addresses)
}

// The line of the table of the router of a router-LSA.
fn line_at(alloc: Global, listing: &Listing, lsa: &Lsa) -> Result<String, AllocError>
    ensures { IfOk result (λ text. SaysTableLineOf (advertisements_of listing.now) lsa.now
        (string_bytes text)) }
{
    let key = lsa.view().key();
    match key.kind {
        Kind::Router => table_lines(alloc, listing, key.router, &[]),
        Kind::Network => {
            let line = String::new(alloc);
            Ok(line)
        }
    }
}

// The table of the router of a router-LSA.
fn table_at(alloc: Global, listing: &Listing, lsa: &Lsa) -> Result<String, AllocError>
    ensures { IfOk result (λ text. SaysTableOf (advertisements_of listing.now) lsa.now
        (string_bytes text)) }
{
    let key = lsa.view().key();
    match key.kind {
        Kind::Router => table_text(alloc, listing, key.router),
        Kind::Network => Ok(String::new(alloc)),
    }
}

// The table of a router, below its name.
fn table_text(alloc: Global, listing: &Listing, router: RouterId) -> Result<String, AllocError>
    ensures { IfOk result (λ text. SaysTable (advertisements_of listing.now) router.0
        (string_bytes text)) }
{
    let table = RouteTable::of(alloc, listing, router)?;
    let mut text = format!(in alloc; "router {router}\n")?;
    text.push_str(&routes_text(alloc, table.routes())?)?;
    Ok(text)
}

// The lines of routes.
fn routes_text(alloc: Global, routes: &[Route]) -> Result<String, AllocError>
    ensures { IfOk result (λ text. string_bytes text ≡ routes_text routes.now) }
{
    let mut text = String::new(alloc);
    for route in routes {
        writeln!(text, "{route}")?;
    }
    Ok(text)
}

// The tables of all routers as an array.
fn tables_value(alloc: Global, listing: &Listing) -> Result<Value, AllocError>
    ensures { IfOk result (λ value. TellsTables (advertisements_of listing.now) listing.now
        (view value)) }
{
    let mut items = Vec::new(alloc);
    for lsa in listing.lsas() {
        let key = lsa.view().key();
        match key.kind {
            Kind::Router => items.push(root_value(alloc, listing, key.router)?)?,
            Kind::Network => {}
        }
    }
    Ok(Value::Array(items))
}

// A router and its table as an object.
fn root_value(alloc: Global, listing: &Listing, router: RouterId) -> Result<Value, AllocError>
    ensures { IfOk result (λ value. TellsRoot (advertisements_of listing.now) router.0
        (view value)) }
{
    let routes = table_value(alloc, listing, router)?;
    root_object(alloc, router, routes)
}

// A router and its routes as an object.
fn root_object(alloc: Global, router: RouterId, routes: Value) -> Result<Value, AllocError>
    ensures { IfOk result (λ value. view value ≡ root_data router.0 (view routes)) }
{
    let root = format!(in alloc; "{router}")?;
    json!(in alloc; {"root": root, "routes": routes})
}

// The table of a router as an array.
fn table_value(alloc: Global, listing: &Listing, router: RouterId) -> Result<Value, AllocError>
    ensures { IfOk result (λ value. TellsTable (advertisements_of listing.now) router.0
        (view value)) }
{
    let table = RouteTable::of(alloc, listing, router)?;
    routes_value(alloc, table.routes())
}

// Routes as an array.
fn routes_value(alloc: Global, routes: &[Route]) -> Result<Value, AllocError>
    ensures { IfOk result (λ value. view value ≡ routes_data routes.now) }
{
    let mut items = Vec::new(alloc);
    for route in routes {
        items.push(route_value(alloc, route)?)?;
    }
    Ok(Value::Array(items))
}

// A route as an object.
fn route_value(alloc: Global, route: &Route) -> Result<Value, AllocError>
    ensures { IfOk result (λ value. view value ≡ route_data route.now) }
{
    let prefix = format!(in alloc; "{}", route.prefix)?;
    let hops = hops_value(alloc, route.hops.as_slice())?;
    json!(in alloc; {"prefix": prefix, "cost": route.cost, "hops": hops})
}

// Hops as an array.
fn hops_value(alloc: Global, hops: &[NextHop]) -> Result<Value, AllocError>
    ensures { IfOk result (λ value. view value ≡ hops_data hops.now) }
{
    let mut items = Vec::new(alloc);
    for hop in hops {
        items.push(Value::String(format!(in alloc; "{hop}")?))?;
    }
    Ok(Value::Array(items))
}
