//! Address prefixes and masks.

ghost use Rattle.std.specs.Prelude.{◌≡◌, ◌≤◌, ◌↔◌, IsTrue, IfSome, IfNone, bit_and};
ghost use Rattle.ospf_base.specs.Masks as spec;
ghost use Rattle.ospf_base.specs.Masks.{IsMask};

use crate::ids::Addr;

/// A destination: an address, and how many of its leading bits count. All other bits are zero.
#[derive(Clone, Copy, Debug, PartialEq, Eq, PartialOrd, Ord, Hash)]
pub struct Prefix {
    pub address: Addr,
    /// At most 32.
    pub length: u8,
    ghost short: { length ≤ 32 },
    ghost masked: { bit_and address.0 (spec.mask_of length) ≡ address.0 },
}

impl Prefix {
    ghost use Rattle.std.specs.Prelude.{◌↔◌, IsTrue, IfSome, IfNone};
    ghost use Rattle.ospf_base.specs.Masks.{IsMask};
    ghost use Rattle.ospf_base.specs.Prefixes.{IsPrefixOf, Holds};

    /// The prefix of an address under a mask; `None` where the mask has a hole.
    pub fn under(address: Addr, mask: u32) -> Option<Prefix>
        ensures found { IfSome result (λ prefix. IsPrefixOf address.0 mask prefix) }
        ensures hole { IfNone result (IsMask mask → ⊥) }
    {
        let length = mask_length(mask)?;
        Some(Prefix {
            address: Addr(address.0 & mask_of(length)),
            length,
        })
    }

    /// Whether the prefix holds an address.
    pub fn holds(&self, address: Addr) -> bool
        ensures { IsTrue result ↔ Holds self.now address.0 }
    {
        address.0 & mask_of(self.length) == self.address.0
    }
}

/// The mask of a prefix of this length, in host order (RFC 2328, section 1.2).
pub fn mask_of(length: u8) -> u32
    requires { length ≤ 32 }
    ensures { result ≡ spec.mask_of length }
{
    ((1u64 << 32) - (1u64 << (32 - length))) as u32
}

/// The length of the prefix that a mask denotes; `None` where the mask has a hole.
pub fn mask_length(mask: u32) -> Option<u8>
    ensures found { IfSome result (λ n. (n ≤ 32) × (mask ≡ spec.mask_of n)) }
    ensures hole { IfNone result (IsMask mask → ⊥) }
{
    for length in 0..33 {
        if mask == mask_of(length) {
            return Some(length);
        }
    }
    None
}

/// Whether a mask has no hole.
pub fn is_mask(mask: u32) -> bool
    ensures { IsTrue result ↔ IsMask mask }
{
    mask_length(mask).is_some()
}
