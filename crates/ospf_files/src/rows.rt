//! Keys with their faults, and what belongs there.

ghost use Rattle.std.specs.Prelude.{◌≡◌, Bool};
ghost use Rattle.std.specs.List.{AllZip};
ghost use Rattle.toml.specs.View.{table_view};
ghost use Rattle.ospf_files.specs.Explained.{keys_at_top, keys_of_host, keys_of_interface};
ghost use Rattle.ospf_config.specs.Keys.{asks_rfc3021};
ghost use Rattle.ospf_files.specs.Rows.{IsRowOf};

use ospf_config::{
    ConfigFault, address_at, area_at, cost_at, dead_at, hello_at, host_address_at, host_cost_at,
    host_list_fault, kind_at, list_fault, mtu_at, other_lsas_at, passive_at, peers_fault, port_at,
    prefix_suppression_at, priority_at, retransmit_at, rfc3021_at, router_id_at, stub_router_at,
    transmit_delay_at,
};
use toml::Table;

// A key with its fault, and what belongs there.
#[derive(Clone, Copy)]
pub(crate) struct Row {
    pub(crate) key: &'static str,
    pub(crate) fault: Option<ConfigFault>,
    pub(crate) wanted: &'static str,
}

// The keys at the top.
pub(crate) fn top_rows(table: &Table) -> [Row; 7]
    ensures { AllZip (IsRowOf (asks_rfc3021 (table_view table.now)) (table_view table.now))
        keys_at_top result }
{
    let dotted = "a dotted string such as \"10.0.0.1\", not \"0.0.0.0\",";
    [
        key_row("router_id", router_id_at(table).err(), dotted),
        key_row(
            "area",
            area_at(table).err(),
            "a dotted string such as \"0.0.0.1\",",
        ),
        key_row("stub_router", stub_router_at(table).err(), "true or false"),
        key_row(
            "other_lsas",
            other_lsas_at(table).err(),
            "\"refuse\" or \"pass over\"",
        ),
        key_row("rfc3021", rfc3021_at(table).err(), "true or false"),
        key_row(
            "interface",
            list_fault(table),
            "1 to 32 tables [[interface]], not all passive,",
        ),
        key_row("host", host_list_fault(table), "at most 32 tables [[host]]"),
    ]
}

// The keys of an interface.
pub(crate) fn interface_rows(table: &Table, rfc3021: bool) -> [Row; 13]
    ensures { AllZip (IsRowOf rfc3021 (table_view table.now)) keys_of_interface result }
{
    let address =
        "a host address and prefix length, 1 to 30 (31 with rfc3021), such as \"10.0.0.1/30\",";
    let ticks = "1 to 65535";
    let kind = "\"point-to-point\" or \"broadcast\"";
    let flag = "true or false";
    let peers = "an array of at most 32 ports, each 1024 to 65535,";
    [
        key_row("kind", kind_at(table).err(), kind),
        key_row("address", address_at(table, rfc3021).err(), address),
        key_row("cost", cost_at(table).err(), ticks),
        key_row("priority", priority_at(table).err(), "0 to 255"),
        key_row("hello", hello_at(table).err(), ticks),
        key_row("dead", dead_at(table).err(), ticks),
        key_row("retransmit", retransmit_at(table).err(), ticks),
        key_row(
            "transmit_delay",
            transmit_delay_at(table).err(),
            "1 to 3600",
        ),
        key_row("mtu", mtu_at(table).err(), "576 to 9000"),
        key_row("port", port_at(table).err(), "0, or 1024 to 65535,"),
        key_row("peers", peers_fault(table), peers),
        key_row("passive", passive_at(table).err(), flag),
        key_row(
            "prefix_suppression",
            prefix_suppression_at(table).err(),
            flag,
        ),
    ]
}

// The keys of a host. That of an interface's address alone depends on `rfc3021`.
pub(crate) fn host_rows(table: &Table) -> [Row; 2]
    ensures { (q : Bool) → AllZip (IsRowOf q (table_view table.now)) keys_of_host result }
{
    let address = "a dotted unicast address such as \"192.0.2.1\",";
    [
        key_row("address", host_address_at(table).err(), address),
        key_row("cost", host_cost_at(table).err(), "0 to 65535"),
    ]
}

fn key_row(key: &'static str, fault: Option<ConfigFault>, wanted: &'static str) -> Row
    ensures key { result.key.now ≡ key.now }
    ensures fault { result.fault ≡ fault }
    ensures wanted { result.wanted.now ≡ wanted.now }
{
    Row { key, fault, wanted }
}
