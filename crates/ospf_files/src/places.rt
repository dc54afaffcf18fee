//! The places that have a fault.

ghost use Rattle.std.specs.List.{list_all};
ghost use Rattle.std.specs.Prelude.{◌≡◌, ◌↔◌, Bool, List, IsTrue, IsSome, Some, IfOk, OnOk, All, Any, map, string_bytes};
ghost use Rattle.toml.specs.Data.{Members, as_table};
ghost use Rattle.toml.specs.View.{view, table_view, items_view};
ghost use Rattle.ospf_files.specs.Explained.{ArePlacesOf, IsKeyPlace, IsKeyText, is_bare, is_bare_byte, IsUnknownPlace, IsValueText, IsPlaceWhere, AreTopPlaces, AreInterfacePlaces, AreHostPlaces, AreAllPlaces, AreTablePlaces, AreInConflict};
ghost use Rattle.ospf_files.specs.Rows.{AddsRows};
ghost use Rattle.ospf_config.specs.Tables.{IsOtherKey, IsTableWith, HasTakenAddress, keys_of, tables_among};

use crate::explained::{Explained, KeyExplained, Section};
use crate::rows::{Row, host_rows, interface_rows, top_rows};
use ospf_config::{
    ConfigFault, address_at, asks_rfc3021, host_names, host_values, interface_names,
    interface_values, is_dead_not_over_hello, is_other, is_taken, table_in, top_names, value_at,
};
use std::alloc::{AllocError, Global};
use toml::{Table, Value};

// The places of a table that have this fault.
pub(crate) fn table_explained(
    alloc: Global,
    table: &Table,
    fault: ConfigFault,
) -> Result<Vec<Explained>, AllocError>
    ensures { IfOk result (λ places. AreTablePlaces (table_view table.now) fault places.items) }
{
    let mut out = Vec::new(alloc);
    let interfaces = interface_values(table);
    let rfc3021 = asks_rfc3021(table);
    add_top(alloc, &mut out, table, fault)?;
    add_interfaces(alloc, &mut out, interfaces, rfc3021, fault)?;
    add_hosts(
        alloc,
        &mut out,
        interfaces,
        host_values(table),
        rfc3021,
        fault,
    )?;
    Ok(out)
}

// Adds what the top has of this fault.
fn add_top(
    alloc: Global,
    out: &mut Vec<Explained>,
    table: &Table,
    fault: ConfigFault,
) -> Result<(), AllocError>
    ensures { OnOk result (AddsRows (AreTopPlaces (table_view table.now) fault) out.old.items
        out.new.items) }
{
    match fault {
        ConfigFault::Unknown => add_unknown(alloc, out, Section::Top, table, &top_names()),
        fault => add_rows(alloc, out, Section::Top, table, &top_rows(table), fault),
    }
}

// Adds the keys of a table that are none of these.
fn add_unknown(
    alloc: Global,
    out: &mut Vec<Explained>,
    section: Section,
    table: &Table,
    known: &[&str],
) -> Result<(), AllocError>
    ensures { OnOk result (AddsRows (ArePlacesOf (IsOtherKey (map (λ k. k.now) known.now))
        (IsUnknownPlace section (table_view table.now)) (keys_of (table_view table.now)))
        out.old.items out.new.items) }
{
    for key in table.keys() {
        let name = key.as_str();
        let holds = is_other(name, known);
        add_where(alloc, out, section, table, name, "a known key", holds)?;
    }
    Ok(())
}

// Adds a key of a table where that is so.
fn add_where(
    alloc: Global,
    out: &mut Vec<Explained>,
    section: Section,
    table: &Table,
    key: &str,
    wanted: &'static str,
    holds: bool,
) -> Result<(), AllocError>
    ensures { OnOk result (AddsRows (IsPlaceWhere (IsTrue holds)
        (IsKeyPlace section (table_view table.now) key.now wanted.now)) out.old.items
        out.new.items) }
{
    if holds {
        out.push(key_of(alloc, section, table, key, wanted)?)?;
    }
    Ok(())
}

// The place of a key.
fn key_of(
    alloc: Global,
    section: Section,
    table: &Table,
    key: &str,
    wanted: &'static str,
) -> Result<Explained, AllocError>
    ensures { IfOk result (IsKeyPlace section (table_view table.now) key.now wanted.now) }
{
    let found = match value_at(table, key) {
        None => None,
        Some(value) => Some(found_in(alloc, value)?),
    };
    let key = key_text(alloc, key)?;
    Ok(Explained::Key(KeyExplained {
        section,
        key,
        wanted,
        found,
    }))
}

// A key as it is shown: a terminal gets no commands, and a line no end, by one that was quoted.
fn key_text(alloc: Global, key: &str) -> Result<String, AllocError>
    ensures { IfOk result (λ text. IsKeyText key.now (string_bytes text)) }
{
    if is_bare(key) {
        String::from_str(alloc, key)
    } else {
        format!(in alloc; "{key:?}")
    }
}

// Whether a key needs no quotes.
fn is_bare(key: &str) -> bool
    ensures { result ≡ is_bare key.now }
{
    !key.is_empty() && are_bare(key.as_bytes())
}

// Whether all bytes of a key need none.
fn are_bare(bytes: &[u8]) -> bool
    ensures { result ≡ list_all is_bare_byte bytes.now }
{
    bytes.iter().all(|byte| is_bare_byte(*byte))
}

// Whether a byte of a key needs none.
fn is_bare_byte(byte: u8) -> bool
    ensures { result ≡ is_bare_byte byte }
{
    byte.is_ascii_alphanumeric() || byte == b'_' || byte == b'-'
}

// The value of a key, in words.
fn found_in(alloc: Global, value: &Value) -> Result<String, AllocError>
    ensures { IfOk result (λ text. IsValueText (view value.now) (string_bytes text)) }
{
    if let Some(number) = value.as_integer() {
        return format!(in alloc; "{number}");
    }
    if let Some(text) = value.as_str() {
        return format!(in alloc; "{text:?}");
    }
    if let Some(values) = value.as_array() {
        return format!(in alloc; "a list of {}", values.len());
    }
    format!(in alloc; "a {}", value.type_str())
}

// Adds the keys of a table that have this fault.
fn add_rows(
    alloc: Global,
    out: &mut Vec<Explained>,
    section: Section,
    table: &Table,
    rows: &[Row],
    fault: ConfigFault,
) -> Result<(), AllocError>
    ensures { OnOk result (AddsRows (ArePlacesOf (λ row. row.fault ≡ Some fault)
        (λ row. IsKeyPlace section (table_view table.now) row.key.now row.wanted.now) rows.now)
        out.old.items out.new.items) }
{
    for row in rows {
        let holds = has_fault(row, fault);
        add_where(alloc, out, section, table, row.key, row.wanted, holds)?;
    }
    Ok(())
}

// Whether a key has this fault.
fn has_fault(row: &Row, fault: ConfigFault) -> bool
    ensures { IsTrue result ↔ (row.now.fault ≡ Some fault) }
{
    match row.fault {
        None => false,
        Some(found) => found == fault,
    }
}

// Adds what the interfaces have of this fault.
fn add_interfaces(
    alloc: Global,
    out: &mut Vec<Explained>,
    values: &[Value],
    rfc3021: bool,
    fault: ConfigFault,
) -> Result<(), AllocError>
    requires { All (λ v. IsSome (as_table (view v))) values.now }
    ensures { OnOk result (AddsRows (AreAllPlaces (AreInterfacePlaces rfc3021 fault)
        (tables_among (items_view values.now))) out.old.items out.new.items) }
{
    for (interface, value) in values.iter().enumerate() {
        let before = &values[..interface];
        add_interface(
            alloc,
            out,
            interface,
            before,
            table_in(value),
            rfc3021,
            fault,
        )?;
    }
    Ok(())
}

// Adds what an interface has of this fault.
fn add_interface(
    alloc: Global,
    out: &mut Vec<Explained>,
    interface: usize,
    before: &[Value],
    table: &Table,
    rfc3021: bool,
    fault: ConfigFault,
) -> Result<(), AllocError>
    ensures { OnOk result (AddsRows (AreInterfacePlaces rfc3021 fault interface
        (tables_among (items_view before.now)) (table_view table.now)) out.old.items
        out.new.items) }
{
    let section = Section::Interface(interface);
    match fault {
        ConfigFault::SamePrefix => {
            let wanted = "a prefix and an address that no earlier interface has";
            let holds = is_any_in_conflict(before, table, rfc3021);
            add_where(alloc, out, section, table, "address", wanted, holds)
        }
        ConfigFault::DeadNotOverHello => {
            let holds = is_dead_not_over_hello(table);
            add_where(
                alloc,
                out,
                section,
                table,
                "dead",
                "more than `hello` (defaults: dead 40, hello 10)",
                holds,
            )
        }
        ConfigFault::Unknown => add_unknown(alloc, out, section, table, &interface_names()),
        fault => {
            let rows = interface_rows(table, rfc3021);
            add_rows(alloc, out, section, table, &rows, fault)
        }
    }
}

// Adds what the hosts have of this fault.
fn add_hosts(
    alloc: Global,
    out: &mut Vec<Explained>,
    interfaces: &[Value],
    values: &[Value],
    rfc3021: bool,
    fault: ConfigFault,
) -> Result<(), AllocError>
    requires { All (λ v. IsSome (as_table (view v))) values.now }
    ensures { OnOk result (AddsRows (AreAllPlaces (AreHostPlaces rfc3021
        (tables_among (items_view interfaces.now)) fault) (tables_among (items_view values.now)))
        out.old.items out.new.items) }
{
    for (host, value) in values.iter().enumerate() {
        let table = table_in(value);
        let holds = is_taken(interfaces, &values[..host], table, rfc3021);
        add_host(alloc, out, host, table, holds, fault)?;
    }
    Ok(())
}

// Adds what a host has of this fault, whose address is taken or is not.
fn add_host(
    alloc: Global,
    out: &mut Vec<Explained>,
    host: usize,
    table: &Table,
    is_taken: bool,
    fault: ConfigFault,
) -> Result<(), AllocError>
    ensures { (q : Bool) → (interfaces before : List Members)
        → (IsTrue is_taken ↔ HasTakenAddress q interfaces before (table_view table.now))
        → OnOk result (AddsRows (AreHostPlaces q interfaces fault host before
        (table_view table.now)) out.old.items out.new.items) }
{
    let section = Section::Host(host);
    match fault {
        ConfigFault::SamePrefix => {
            let wanted = "an address that no interface and no earlier host has";
            add_where(alloc, out, section, table, "address", wanted, is_taken)
        }
        ConfigFault::Unknown => add_unknown(alloc, out, section, table, &host_names()),
        fault => add_rows(alloc, out, section, table, &host_rows(table), fault),
    }
}

// Whether one of the interfaces before has the prefix or the address of this one.
fn is_any_in_conflict(before: &[Value], table: &Table, rfc3021: bool) -> bool
    ensures { IsTrue result ↔ Any (λ v. IsTableWith (λ t. AreInConflict rfc3021 t
        (table_view table.now)) (view v)) before.now }
{
    before
        .iter()
        .any(|value| is_value_in_conflict(value, table, rfc3021))
}

// Whether a value is the table of an interface that is in conflict with this one.
fn is_value_in_conflict(value: &Value, table: &Table, rfc3021: bool) -> bool
    ensures { IsTrue result ↔ IsTableWith (λ t. AreInConflict rfc3021 t (table_view table.now))
        (view value.now) }
{
    match value.as_table() {
        None => false,
        Some(first) => are_in_conflict(first, table, rfc3021),
    }
}

// Whether the addresses of two interfaces are in conflict.
fn are_in_conflict(first: &Table, second: &Table, rfc3021: bool) -> bool
    ensures { IsTrue result ↔ AreInConflict rfc3021 (table_view first.now)
        (table_view second.now) }
{
    match (address_at(first, rfc3021), address_at(second, rfc3021)) {
        (Ok(one), Ok(other)) => one.conflicts_with(&other),
        _ => false,
    }
}
