//! The least fault of keys.

ghost use Rattle.std.specs.Prelude.{◌≡◌, Any, All, IsSome, is_some, option_and_then, unwrap_or, []};
ghost use Rattle.std.specs.List.{list_all};
ghost use Rattle.toml.specs.Data.{as_table, get_member};
ghost use Rattle.toml.specs.View.{view, table_view, items_view};
ghost use Rattle.ospf_config.specs.Fault.{IsLeastIfAny, IsFaultIfAny};
ghost use Rattle.ospf_config.specs.Tables.{HasTopFault, HasInterfaceFault, HasKeyFault, ReadsInterfaces, IsTableWith, as_tables, interface_tables, tables_among};

use crate::fault::{ConfigFault, earlier};
use crate::hosts::{host_list_fault, host_values, hosts_fault};
use crate::keys::{
    address_at, cost_at, dead_at, hello_at, kind_at, mtu_at, passive_at, port_at,
    prefix_suppression_at, priority_at, retransmit_at, transmit_delay_at, value_at,
};
use crate::passive::is_any_active;
use crate::peers::peers_fault;
use crate::top::{area_at, asks_rfc3021, other_lsas_at, rfc3021_at, router_id_at, stub_router_at};
use ospf_base::MOST_INTERFACES;
use toml::{Table, Value};

/// The fault of the key `interface`, if it has one.
pub fn list_fault(table: &Table) -> Option<ConfigFault>
    ensures { IsFaultIfAny (ReadsInterfaces (table_view table.now)) result }
{
    let Some(value) = value_at(table, "interface") else {
        return Some(ConfigFault::Missing);
    };
    match value.as_array() {
        None => Some(ConfigFault::Type),
        Some(values) => {
            if !are_all_tables(values) {
                return Some(ConfigFault::Type);
            }
            if !is_any_active(values) {
                return Some(ConfigFault::Range);
            }
            if values.len() > MOST_INTERFACES {
                return Some(ConfigFault::Range);
            }
            None
        }
    }
}

/// The tables of the interfaces, or none where the key `interface` is no list of tables.
pub fn interface_values(table: &Table) -> &[Value]
    ensures tables { tables_among (items_view result.now)
        ≡ interface_tables (table_view table.now) }
    ensures all { All (λ v. IsSome (as_table (view v))) result.now }
{
    tables_at(table, "interface")
}

// The least fault of any key.
pub(crate) fn key_fault(table: &Table) -> Option<ConfigFault>
    ensures { IsLeastIfAny (HasKeyFault (table_view table.now)) result }
{
    let interfaces = interfaces_fault(interface_values(table), asks_rfc3021(table));
    let hosts = hosts_fault(host_values(table));
    earlier(top_fault(table), earlier(interfaces, hosts))
}

// The tables at a key, or none where that is no list of tables.
pub(crate) fn tables_at<'a>(table: &'a Table, key: &str) -> &'a [Value]
    ensures tables { tables_among (items_view result.now)
        ≡ unwrap_or (option_and_then as_tables (get_member key.now (table_view table.now))) [] }
    ensures all { All (λ v. IsSome (as_table (view v))) result.now }
{
    let Some(value) = value_at(table, key) else {
        return &[];
    };
    match value.as_array() {
        None => &[],
        Some(values) => { if are_all_tables(values) { values } else { &[] } }
    }
}

// Whether each value is a table.
pub(crate) fn are_all_tables(values: &[Value]) -> bool
    ensures { result ≡ list_all (λ v. is_some (as_table (view v))) values.now }
{
    values.iter().all(|value| value.is_table())
}

// The least fault of the keys at the top.
fn top_fault(table: &Table) -> Option<ConfigFault>
    ensures { IsLeastIfAny (HasTopFault (table_view table.now)) result }
{
    let ids = earlier(router_id_at(table).err(), area_at(table).err());
    let ways = earlier(stub_router_at(table).err(), other_lsas_at(table).err());
    let lists = earlier(list_fault(table), host_list_fault(table));
    let others = earlier(ways, rfc3021_at(table).err());
    earlier(ids, earlier(others, lists))
}

// The least fault of the keys of interfaces.
fn interfaces_fault(values: &[Value], rfc3021: bool) -> Option<ConfigFault>
    ensures { IsLeastIfAny (λ f. Any (λ v. IsTableWith (λ t. HasInterfaceFault rfc3021 t f)
        (view v)) values.now) result }
{
    let mut least = None;
    for value in values {
        least = earlier(least, value_fault(value, rfc3021));
    }
    least
}

// The first fault of a value that should be an interface; one that is no table has none of these.
fn value_fault(value: &Value, rfc3021: bool) -> Option<ConfigFault>
    ensures { IsLeastIfAny (λ f. IsTableWith (λ t. HasInterfaceFault rfc3021 t f) (view value.now))
        result }
{
    match value.as_table() {
        None => None,
        Some(table) => interface_fault(table, rfc3021),
    }
}

// The least fault of the keys of an interface.
fn interface_fault(table: &Table, rfc3021: bool) -> Option<ConfigFault>
    ensures { IsLeastIfAny (HasInterfaceFault rfc3021 (table_view table.now)) result }
{
    let texts = earlier(kind_at(table).err(), address_at(table, rfc3021).err());
    let hellos = earlier(hello_at(table).err(), dead_at(table).err());
    let delays = earlier(retransmit_at(table).err(), transmit_delay_at(table).err());
    let ranks = earlier(cost_at(table).err(), priority_at(table).err());
    let ports = earlier(port_at(table).err(), peers_fault(table));
    let flags = earlier(passive_at(table).err(), prefix_suppression_at(table).err());
    let times = earlier(hellos, delays);
    let sizes = earlier(ranks, mtu_at(table).err());
    earlier(earlier(texts, times), earlier(sizes, earlier(ports, flags)))
}
