//! Ids and addresses from text.

ghost use Rattle.std.specs.Net.Grammar.{Parses};
ghost use Rattle.ospf_base.specs.Text.{IsDottedNumber};

use crate::ids::{Addr, RouterId};
use std::net::{AddrParseError, Ipv4Addr};
use std::str::FromStr;

/// Dotted text: four decimal numbers below 256 without leading zeros.
impl FromStr for Addr {
    type Err = AddrParseError;

    ghost use Rattle.ospf_base.specs.Text.{ReadsAddress};

    ghost from_str_gives = { ReadsAddress };

    fn from_str(text: &str) -> Result<Addr, AddrParseError> {
        match dotted(text) {
            Ok(number) => Ok(Addr(number)),
            Err(error) => Err(error),
        }
    }
}

/// Dotted text: four decimal numbers below 256 without leading zeros.
impl FromStr for RouterId {
    type Err = AddrParseError;

    ghost use Rattle.ospf_base.specs.Text.{ReadsRouterId};

    ghost from_str_gives = { ReadsRouterId };

    fn from_str(text: &str) -> Result<RouterId, AddrParseError> {
        match dotted(text) {
            Ok(number) => Ok(RouterId(number)),
            Err(error) => Err(error),
        }
    }
}

// The number whose four bytes a dotted text spells.
fn dotted(text: &str) -> Result<u32, AddrParseError>
    ensures { Parses IsDottedNumber text.now result }
{
    match text.parse::<Ipv4Addr>() {
        Ok(address) => Ok(address.to_bits()),
        Err(error) => Err(error),
    }
}
