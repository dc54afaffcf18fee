//! The configuration of a router of OSPF version 2, read from TOML, whole and key by key.
#![tactic(auto)]

mod address;
mod config;
mod fault;
mod faults;
mod hosts;
mod interface;
mod keys;
mod passive;
mod peers;
mod read;
mod rules;
mod top;

pub use crate::address::InterfaceAddress;
pub use crate::config::Config;
pub use crate::fault::ConfigFault;
pub use crate::faults::{interface_values, list_fault};
pub use crate::hosts::{
    host_address_at, host_cost_at, host_list_fault, host_names, host_values, is_taken,
};
pub use crate::interface::{Interface, Port};
pub use crate::keys::{
    address_at, cost_at, dead_at, hello_at, is_passive, kind_at, mtu_at, passive_at, port_at,
    prefix_suppression_at, priority_at, retransmit_at, transmit_delay_at, value_at,
};
pub use crate::peers::peers_fault;
pub use crate::rules::{interface_names, is_dead_not_over_hello, is_other, table_in, top_names};
pub use crate::top::{
    area_at, asks_rfc3021, other_lsas_at, rfc3021_at, router_id_at, stub_router_at,
};
