//! The addresses of interfaces.

ghost use Rattle.std.specs.Prelude.{◌≡◌, ◌^◌, ◌<◌, ◌≤◌, ◌↔◌, ℕ, IsTrue, IfSome, IfNone, decimal};
ghost use Rattle.ospf_base.specs.Text.{IsDottedNumber};
ghost use Rattle.ospf_config.specs.Host.{IsHostAddress, IsUnicast};

use ospf_base::{Addr, Prefix, mask_of};

// The longest prefix under which there is another address: of two addresses, both of hosts (RFC
// 3021).
const LONGEST: u8 = 31;

// The first octet of the last addresses that are of one host.
const LAST_UNICAST: u32 = 223;

/// The address of an interface, and the length of its prefix.
#[derive(Clone, Copy, Debug, PartialEq, Eq)]
pub struct InterfaceAddress {
    pub address: Addr,
    /// 1 to 30; 31 at a point-to-point interface whose configuration asks for that.
    pub length: u8,
    ghost host: { IsHostAddress address.0 length },
}

impl InterfaceAddress {
    ghost use Rattle.std.specs.Prelude.{◌↔◌, IsTrue, IfSome, IfNone};
    ghost use Rattle.ospf_base.specs.Masks as spec;
    ghost use Rattle.ospf_base.specs.Prefixes.{IsPrefixOf};
    ghost use Rattle.ospf_config.specs.Conflicts.{Conflict};
    ghost use Rattle.ospf_config.specs.declared.address.InterfaceAddress.{InterfaceAddress};
    ghost use Rattle.ospf_config.specs.Texts.{IsAddressText};

    /// The prefix of the network that the interface is attached to.
    pub fn prefix(&self) -> Prefix
        ensures { IsPrefixOf self.now.address.0 (spec.mask_of self.now.length) result }
    {
        let address = Addr(self.address.0 & mask_of(self.length));
        let length = self.length;
        Prefix { address, length }
    }

    /// Whether two interfaces have one prefix or one address.
    pub fn conflicts_with(&self, other: &InterfaceAddress) -> bool
        ensures { IsTrue result ↔ Conflict self.now other.now }
    {
        let (here, there) = (self.address.0, other.address.0);
        let one_prefix = self.length == other.length
            && here & mask_of(self.length) == there & mask_of(other.length);
        one_prefix || here == there
    }

    // The address that a text spells, if an interface can have it that may have a prefix of 31 bits
    // or may not.
    pub(crate) fn read(text: &str, may_have_31: bool) -> Option<InterfaceAddress>
        ensures some { IfSome result (IsAddressText (IsTrue may_have_31) text.now) }
        ensures none { IfNone result ((a : InterfaceAddress)
            → IsAddressText (IsTrue may_have_31) text.now a → ⊥) }
    {
        let (dotted, length) = text.split_once('/')?;
        let length = length_of(length)?;
        let number = dotted_number(dotted)?;
        if !is_allowed(length, may_have_31) {
            return None;
        }
        if is_host(number, length) {
            let address = Addr(number);
            Some(InterfaceAddress { address, length })
        } else {
            None
        }
    }
}

// The number that a dotted text spells.
pub(crate) fn dotted_number(text: &str) -> Option<u32>
    ensures some { IfSome result (λ n. IsDottedNumber text.now n × (n < 2 ^ 32)) }
    ensures none { IfNone result ((n : ℕ) → IsDottedNumber text.now n → ⊥) }
{
    match text.parse::<Addr>() {
        Ok(address) => {
            let number = address.0;
            Some(number)
        }
        Err(_) => None,
    }
}

// The length of a prefix that a text spells, without leading zeros.
fn length_of(text: &str) -> Option<u8>
    ensures some { IfSome result (λ n. (text.now ≡ decimal n) × (n < 256)) }
    ensures none { IfNone result ((n : ℕ) → 1 ≤ n → n ≤ 31 → text.now ≡ decimal n → ⊥) }
{
    match text.as_bytes() {
        [b'1'..=b'9', ..] => match text.parse::<u8>() {
            Ok(length) => Some(length),
            Err(_) => None,
        },
        _ => None,
    }
}

// Whether an interface that may have a prefix of 31 bits, or may not, can have one of this length.
fn is_allowed(length: u8, may_have_31: bool) -> bool
    ensures { IsTrue result ↔ (length ≡ 31 → IsTrue may_have_31) }
{
    if length == LONGEST { may_have_31 } else { true }
}

// Whether an interface can have the address under a prefix of this length.
fn is_host(address: u32, length: u8) -> bool
    ensures { IsTrue result ↔ IsHostAddress address length }
{
    if length < 1 || length > LONGEST {
        return false;
    }
    let size = 1u32 << (32 - length);
    let host = address % size;
    let inside = length == LONGEST || (host > 0 && host + 1 < size);
    inside && is_unicast(address)
}

// Whether the address can be that of one host.
pub(crate) fn is_unicast(address: u32) -> bool
    ensures { IsTrue result ↔ IsUnicast address }
{
    let octet = address >> 24;
    octet >= 1 && octet <= LAST_UNICAST
}
