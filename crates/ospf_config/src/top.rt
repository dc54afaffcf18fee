//! The keys at the top.

ghost use Rattle.std.specs.Prelude.{◌≡◌, ◌<◌, IfOk, option_copied};
ghost use Rattle.toml.specs.View.{table_view};
ghost use Rattle.ospf_config.specs.Reading.{ReadsValue};
ghost use Rattle.ospf_config.specs.Texts.{IsRouterIdText, IsAreaText, IsOtherLsasText};
ghost use Rattle.ospf_config.specs.Keys.{ReadsOwnRouterId, ReadsArea, ReadsStubRouter, ReadsOtherLsas, ReadsRfc3021, asks_rfc3021};

use crate::address::dotted_number;
use crate::fault::ConfigFault;
use crate::keys::{flag_at, value_at};
use ospf_base::{AreaId, RouterId};
use toml::Table;

/// The Router ID at the key `router_id`, or the fault of the key.
pub fn router_id_at(table: &Table) -> Result<RouterId, ConfigFault>
    ensures reads { ReadsOwnRouterId (table_view table.now) result }
    ensures range { IfOk result (λ id. 0 < id.0) }
{
    match value_at(table, "router_id") {
        None => Err(ConfigFault::Missing),
        Some(value) => router_id_of(value.as_str()),
    }
}

/// The Area ID at the key `area`, or the fault of the key.
pub fn area_at(table: &Table) -> Result<AreaId, ConfigFault>
    ensures { ReadsArea (table_view table.now) result }
{
    match value_at(table, "area") {
        None => Err(ConfigFault::Missing),
        Some(value) => area_of(value.as_str()),
    }
}

/// Whether the router is a stub router (RFC 6987), at the key `stub_router`: not where nothing is
/// there; or the fault of the key.
pub fn stub_router_at(table: &Table) -> Result<bool, ConfigFault>
    ensures { ReadsStubRouter (table_view table.now) result }
{
    flag_at(table, "stub_router")
}

/// Whether LSAs of LS types 3, 4 and 5 are passed over, at the key `other_lsas`: not where nothing
/// is there; or the fault of the key.
pub fn other_lsas_at(table: &Table) -> Result<bool, ConfigFault>
    ensures { ReadsOtherLsas (table_view table.now) result }
{
    match value_at(table, "other_lsas") {
        None => Ok(false),
        Some(value) => other_lsas_of(value.as_str()),
    }
}

/// Whether point-to-point interfaces may have prefixes of 31 bits (RFC 3021), at the key `rfc3021`:
/// not where nothing is there; or the fault of the key.
pub fn rfc3021_at(table: &Table) -> Result<bool, ConfigFault>
    ensures { ReadsRfc3021 (table_view table.now) result }
{
    flag_at(table, "rfc3021")
}

/// Whether prefixes of 31 bits are asked for: the key `rfc3021` is true, and not of another type.
pub fn asks_rfc3021(table: &Table) -> bool
    ensures { result ≡ asks_rfc3021 (table_view table.now) }
{
    match value_at(table, "rfc3021") {
        None => false,
        Some(value) => value.as_bool().unwrap_or(false),
    }
}

// The Router ID that a text spells, which is not zero.
fn router_id_of(text: Option<&str>) -> Result<RouterId, ConfigFault>
    ensures reads { ReadsValue IsRouterIdText (option_copied text.entry) result }
    ensures range { IfOk result (λ id. 0 < id.0) }
{
    let Some(text) = text else {
        return Err(ConfigFault::Type);
    };
    match dotted_number(text) {
        Some(number) if number > 0 => Ok(RouterId(number)),
        _ => Err(ConfigFault::Range),
    }
}

// The area that a text spells.
fn area_of(text: Option<&str>) -> Result<AreaId, ConfigFault>
    ensures { ReadsValue IsAreaText (option_copied text.entry) result }
{
    let Some(text) = text else {
        return Err(ConfigFault::Type);
    };
    match dotted_number(text) {
        Some(number) => Ok(AreaId(number)),
        None => Err(ConfigFault::Range),
    }
}

// Whether LSAs of LS types 3, 4 and 5 are passed over, as a text says.
fn other_lsas_of(text: Option<&str>) -> Result<bool, ConfigFault>
    ensures { ReadsValue IsOtherLsasText (option_copied text.entry) result }
{
    match text {
        None => Err(ConfigFault::Type),
        Some("refuse") => Ok(false),
        Some("pass over") => Ok(true),
        Some(_) => Err(ConfigFault::Range),
    }
}
