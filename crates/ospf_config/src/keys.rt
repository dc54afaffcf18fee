//! The values at keys.

ghost use Rattle.std.specs.Prelude.{◌≡◌, ◌≤◌, ◌↔◌, IsTrue, IfOk, false, option_map, option_copied, Ok, codes};
ghost use Rattle.ospf_base.specs.Constants.{max_age};
ghost use Rattle.ospf_base.specs.declared.interface.InterfaceKind.TheVariants.{PointToPoint};
ghost use Rattle.toml.specs.Data.{get_member, as_bool, as_integer, as_str};
ghost use Rattle.toml.specs.View.{view, table_view};
ghost use Rattle.ospf_config.specs.Reading.{ReadsValue, Optional, IsNumberIn, integer_or};
ghost use Rattle.ospf_config.specs.Texts.{IsKindText, IsAddressText};
ghost use Rattle.ospf_config.specs.Keys.{ReadsKind, MayHave31Bits, ReadsInterfaceAddress, ReadsCostValue, ReadsCost, IsPortNumber, ReadsPriority, ReadsHello, ReadsDead, ReadsRetransmit, ReadsTransmitDelay, ReadsMtu, ReadsPort, ReadsPassive, is_passive, ReadsPrefixSuppression};

use crate::address::InterfaceAddress;
use crate::fault::ConfigFault;
use crate::interface::{LEAST_PORT, Port};
use ospf_base::{InterfaceKind, MAX_AGE};
use toml::{Table, Value};

// HelloInterval where the key `hello` is not there.
const DEFAULT_HELLO: u16 = 10;

// RouterDeadInterval where the key `dead` is not there.
const DEFAULT_DEAD: u16 = 40;

/// What the table holds at a key.
pub fn value_at<'a>(table: &'a Table, key: &str) -> Option<&'a Value>
    ensures { option_map (λ v. view v.now) result ≡ get_member key.now (table_view table.now) }
{
    table.get(key)
}

/// The kind of interface at the key `kind`, or the fault of the key.
pub fn kind_at(table: &Table) -> Result<InterfaceKind, ConfigFault>
    ensures { ReadsKind (table_view table.now) result }
{
    match value_at(table, "kind") {
        None => Err(ConfigFault::Missing),
        Some(value) => kind_of(value.as_str()),
    }
}

/// The address at the key `address` of an interface, or the fault of the key.
///
/// With `rfc3021` a point-to-point interface may have a prefix of 31 bits.
pub fn address_at(table: &Table, rfc3021: bool) -> Result<InterfaceAddress, ConfigFault>
    ensures { ReadsInterfaceAddress rfc3021 (table_view table.now) result }
{
    match value_at(table, "address") {
        None => Err(ConfigFault::Missing),
        Some(value) => address_of(value.as_str(), table, rfc3021),
    }
}

/// The interface output cost at the key `cost`, or the fault of the key.
pub fn cost_at(table: &Table) -> Result<u16, ConfigFault>
    ensures reads { ReadsCost (table_view table.now) result }
    ensures range { IfOk result (λ n. 1 ≤ n) }
{
    match value_at(table, "cost") {
        None => Err(ConfigFault::Missing),
        Some(value) => cost_of(value.as_integer()),
    }
}

/// The Router Priority at the key `priority`, 1 where nothing is there, or the fault of the key.
pub fn priority_at(table: &Table) -> Result<u8, ConfigFault>
    ensures { ReadsPriority (table_view table.now) result }
{
    let priority = number_at(table, "priority", 0, 255, 1)?;
    Ok(priority as u8)
}

/// HelloInterval in ticks at the key `hello`, 10 where nothing is there, or the fault of the key.
pub fn hello_at(table: &Table) -> Result<u16, ConfigFault>
    ensures reads { ReadsHello (table_view table.now) result }
    ensures range { IfOk result (λ n. 1 ≤ n) }
{
    number_at(table, "hello", 1, 65535, DEFAULT_HELLO)
}

/// RouterDeadInterval in ticks at the key `dead`, 40 where nothing is
/// there, or the fault of the key.
pub fn dead_at(table: &Table) -> Result<u16, ConfigFault>
    ensures reads { ReadsDead (table_view table.now) result }
    ensures range { IfOk result (λ n. 1 ≤ n) }
{
    number_at(table, "dead", 1, 65535, DEFAULT_DEAD)
}

/// RxmtInterval in ticks at the key `retransmit`, 5 where nothing is
/// there, or the fault of the key.
pub fn retransmit_at(table: &Table) -> Result<u16, ConfigFault>
    ensures reads { ReadsRetransmit (table_view table.now) result }
    ensures range { IfOk result (λ n. 1 ≤ n) }
{
    number_at(table, "retransmit", 1, 65535, 5)
}

/// InfTransDelay in ticks at the key `transmit_delay`, 1 where nothing is
/// there, or the fault of the key.
pub fn transmit_delay_at(table: &Table) -> Result<u16, ConfigFault>
    ensures reads { ReadsTransmitDelay (table_view table.now) result }
    ensures range { IfOk result (λ n. (1 ≤ n) × (n ≤ max_age)) }
{
    number_at(table, "transmit_delay", 1, MAX_AGE, 1)
}

/// The largest IP datagram in bytes at the key `mtu`, 1500 where nothing is
/// there, or the fault of the key.
pub fn mtu_at(table: &Table) -> Result<u16, ConfigFault>
    ensures reads { ReadsMtu (table_view table.now) result }
    ensures range { IfOk result (λ n. (576 ≤ n) × (n ≤ 9000)) }
{
    number_at(table, "mtu", 576, 9000, 1500)
}

/// The UDP port at the key `port`, none where it is 0 or nothing is there, or the fault of the key.
pub fn port_at(table: &Table) -> Result<Option<Port>, ConfigFault>
    ensures { ReadsPort (table_view table.now) result }
{
    match value_at(table, "port") {
        None => Ok(None),
        Some(value) => port_of(value.as_integer()),
    }
}

/// Whether the interface is passive, at the key `passive`: not where nothing is there; or the fault
/// of the key.
pub fn passive_at(table: &Table) -> Result<bool, ConfigFault>
    ensures { ReadsPassive (table_view table.now) result }
{
    flag_at(table, "passive")
}

/// Whether the prefix of the interface's link is not advertised (RFC 6860), at the key
/// `prefix_suppression`: not where nothing is there; or the fault of the key.
pub fn prefix_suppression_at(table: &Table) -> Result<bool, ConfigFault>
    ensures { ReadsPrefixSuppression (table_view table.now) result }
{
    flag_at(table, "prefix_suppression")
}

/// Whether the interface is passive: the key `passive` is true, and not of another type.
pub fn is_passive(table: &Table) -> bool
    ensures { result ≡ is_passive (table_view table.now) }
{
    match value_at(table, "passive") {
        None => false,
        Some(value) => value.as_bool().unwrap_or(false),
    }
}

// The truth value at a key, false where nothing is there.
pub(crate) fn flag_at(table: &Table, key: &str) -> Result<bool, ConfigFault>
    ensures { Optional as_bool (λ b c. b ≡ c) false (get_member key.now (table_view table.now))
        result }
{
    match value_at(table, key) {
        None => Ok(false),
        Some(value) => value.as_bool().ok_or(ConfigFault::Type),
    }
}

// The integer at the key `hello`, whatever its size: 10 where nothing is there, and none where the
// value is no integer.
pub(crate) fn hello_integer(table: &Table) -> Option<i64>
    ensures { result ≡ integer_or 10 (get_member (codes "hello") (table_view table.now)) }
{
    integer_at(table, "hello", DEFAULT_HELLO)
}

// The integer at the key `dead`, likewise: 40 where nothing is there.
pub(crate) fn dead_integer(table: &Table) -> Option<i64>
    ensures { result ≡ integer_or 40 (get_member (codes "dead") (table_view table.now)) }
{
    integer_at(table, "dead", DEFAULT_DEAD)
}

// A number of a range.
pub(crate) fn number_in(number: Option<i64>, low: u16, high: u16) -> Result<u16, ConfigFault>
    ensures { ReadsValue (IsNumberIn low high) number result }
{
    match number {
        None => Err(ConfigFault::Type),
        Some(n) => match u16::try_from(n) {
            Ok(n) if low <= n && n <= high => Ok(n),
            _ => Err(ConfigFault::Range),
        },
    }
}

// The kind of an interface that a text names.
fn kind_of(text: Option<&str>) -> Result<InterfaceKind, ConfigFault>
    ensures { ReadsValue IsKindText (option_copied text.entry) result }
{
    match text {
        None => Err(ConfigFault::Type),
        Some("point-to-point") => Ok(InterfaceKind::PointToPoint),
        Some("broadcast") => Ok(InterfaceKind::Broadcast),
        Some(_) => Err(ConfigFault::Range),
    }
}

// Whether the interface may have a prefix of 31 bits.
fn may_have_31(table: &Table, rfc3021: bool) -> bool
    ensures { IsTrue result ↔ MayHave31Bits rfc3021 (table_view table.now) }
{
    rfc3021 && is_point_to_point(table)
}

// Whether the table is that of a point-to-point interface.
fn is_point_to_point(table: &Table) -> bool
    ensures { IsTrue result ↔ ReadsKind (table_view table.now) (Ok PointToPoint) }
{
    match kind_at(table) {
        Ok(InterfaceKind::PointToPoint) => true,
        Ok(InterfaceKind::Broadcast) => false,
        Err(_) => false,
    }
}

// The address that a text spells, under its prefix, at the interface of a table.
fn address_of(
    text: Option<&str>,
    table: &Table,
    rfc3021: bool,
) -> Result<InterfaceAddress, ConfigFault>
    ensures { ReadsValue (IsAddressText (MayHave31Bits rfc3021 (table_view table.now)))
        (option_copied text.entry) result }
{
    address_spelled(text, may_have_31(table, rfc3021))
}

// The address that a text spells, under its prefix, at an interface that may have one of 31 bits or
// may not.
fn address_spelled(text: Option<&str>, may_have_31: bool) -> Result<InterfaceAddress, ConfigFault>
    ensures { ReadsValue (IsAddressText (IsTrue may_have_31)) (option_copied text.entry) result }
{
    match text {
        None => Err(ConfigFault::Type),
        Some(text) => InterfaceAddress::read(text, may_have_31).ok_or(ConfigFault::Range),
    }
}

// A cost, which is not zero.
fn cost_of(number: Option<i64>) -> Result<u16, ConfigFault>
    ensures reads { ReadsCostValue number result }
    ensures range { IfOk result (λ n. 1 ≤ n) }
{
    match number {
        Some(0) => Err(ConfigFault::ZeroCost),
        number => number_in(number, 1, 65535),
    }
}

// The number of a range at a key, or the default.
fn number_at(
    table: &Table,
    key: &str,
    low: u16,
    high: u16,
    default: u16,
) -> Result<u16, ConfigFault>
    requires low { low ≤ default }
    requires high { default ≤ high }
    ensures reads { Optional as_integer (IsNumberIn low high) default
        (get_member key.now (table_view table.now)) result }
    ensures range { IfOk result (λ n. (low ≤ n) × (n ≤ high)) }
{
    match value_at(table, key) {
        None => Ok(default),
        Some(value) => number_in(value.as_integer(), low, high),
    }
}

// The integer at a key, whatever its size, or the default.
fn integer_at(table: &Table, key: &str, default: u16) -> Option<i64>
    ensures { result ≡ integer_or default (get_member key.now (table_view table.now)) }
{
    match value_at(table, key) {
        None => Some(i64::from(default)),
        Some(value) => value.as_integer(),
    }
}

// A port, or 0 for none.
fn port_of(number: Option<i64>) -> Result<Option<Port>, ConfigFault>
    ensures { ReadsValue IsPortNumber number result }
{
    match number {
        Some(0) => Ok(None),
        number => {
            let number = number_in(number, LEAST_PORT, 65535)?;
            Ok(Some(Port { number }))
        }
    }
}
