//! LSAs that are read where they lie.

ghost use Rattle.std.specs.Prelude.{◌≡◌, ◌≤◌, ◌↔◌, ◌⊎◌, IsTrue, IfSome, IfNone, IfOk, IfErr, length, All};
ghost use Rattle.ospf_lsa.specs.declared.fault.LsaFault.TheVariants as fault;
ghost use Rattle.ospf_lsa.specs.Lsa.{IsFreeOf, IsFirstFault, IsLsa, IsRouterLsa, IsNetworkLsa, HasLinks, HasRouters, HasMask, HasCost, links_of};

use crate::attached::Attached;
use crate::fault::LsaFault;
use crate::header::LsaHeader;
use crate::layout::{
    COUNT_AT, ENTRIES_AT, ID_AT, LENGTH_AT, NUMBER_AT, ROUTER_AT, ROUTER_SIZE, SUM_AT, TYPE_AT,
};
use crate::link::Links;
use ospf_base::{
    Instance, Kind, LSA_HEADER, LsaKey, NETWORK_LSA, RESERVED_SEQUENCE_NUMBER, ROUTER_LSA,
    RouterId, i32_at, is_mask, lsa_sum_holds, u16_at, u32_at,
};
use std::marker::Model;

/// A slice that is an LSA.
#[derive(Drop)]
pub struct LsaView<'a> {
    bytes: &'a [u8],
}

impl<'a> Model for LsaView<'a> {
    ghost use Rattle.std.specs.Prelude.{ℕ, List};

    ghost Value = { List ℕ };

    ghost use Rattle.ospf_lsa.specs.Lsa.{IsLsa};

    ghost view = { λ v. v.bytes.now };

    ghost invariant = { λ v. IsLsa v.bytes.now };
}

impl<'a> LsaView<'a> {
    ghost use Rattle.ospf_lsa.specs.Header.{header_of, HeaderFits};
    ghost use Rattle.ospf_lsa.specs.Lsa.{key_of, instance_of, kind_of, links_of, attached_of, network_mask_of};

    /// The LSA that the bytes are, or their first fault.
    pub fn read(bytes: &'a [u8]) -> Result<LsaView<'a>, LsaFault>
        ensures ok { IfOk result (λ v. (v ≡ bytes.now) × IsLsa bytes.now) }
        ensures fault { IfErr result (λ f. IsFirstFault bytes.now f) }
    {
        match first_fault(bytes) {
            Some(fault) => Err(fault),
            None => Ok(LsaView { bytes }),
        }
    }

    /// The bytes of the LSA.
    pub fn as_bytes(&self) -> &'a [u8]
        // The bytes are those of the LSA, and so what the grammar says of one holds of them:
        ensures bytes { result.now ≡ self.now }
        ensures valid { IsLsa self.now }
        ensures long { 20 ≤ length self.now }
        // it has a body of its kind, and there are two kinds.
        ensures router { IsRouterLsa self.now → HasLinks self.now }
        ensures network { IsNetworkLsa self.now → HasRouters self.now }
        ensures kind { IsRouterLsa self.now ⊎ IsNetworkLsa self.now }
    {
        self.bytes
    }

    /// Its header (RFC 2328, appendix A.4.1).
    pub fn header(&self) -> LsaHeader
        ensures value { result ≡ header_of self.now }
        ensures fits { HeaderFits (header_of self.now) }
    {
        LsaHeader::read(self.as_bytes())
    }

    /// Whether it is a router-LSA or a network-LSA (RFC 2328, section 12.1.3).
    pub fn kind(&self) -> Kind
        ensures value { result ≡ kind_of self.now }
        ensures router { result ≡ Kind.Router → IsRouterLsa self.now }
        ensures network { result ≡ Kind.Network → IsNetworkLsa self.now }
    {
        if self.as_bytes()[TYPE_AT] == NETWORK_LSA {
            Kind::Network
        } else {
            Kind::Router
        }
    }

    /// What distinguishes it from other LSAs: LS type, Link State ID and Advertising
    /// Router (RFC 2328, section 12.1).
    pub fn key(&self) -> LsaKey
        ensures { result ≡ key_of self.now }
    {
        LsaKey {
            kind: self.kind(),
            id: u32_at(self.as_bytes(), ID_AT),
            router: RouterId(u32_at(self.as_bytes(), ROUTER_AT)),
        }
    }

    /// Its instance: key, LS sequence number and LS checksum (RFC 2328, section 13.1).
    pub fn instance(&self) -> Instance
        ensures { result ≡ instance_of self.now }
    {
        Instance {
            key: self.key(),
            number: i32_at(self.as_bytes(), NUMBER_AT),
            sum: u16_at(self.as_bytes(), SUM_AT),
        }
    }

    /// The links of a router-LSA.
    pub fn links(&self) -> Links<'a>
        requires { IsRouterLsa self.now }
        ensures { result ≡ links_of self.now }
    {
        Links::new(
            u16_at(self.as_bytes(), COUNT_AT),
            &self.as_bytes()[ENTRIES_AT..],
        )
    }

    /// The address mask of a network-LSA.
    pub fn mask(&self) -> u32
        requires { IsNetworkLsa self.now }
        ensures value { result ≡ network_mask_of self.now }
    {
        u32_at(self.as_bytes(), LSA_HEADER)
    }

    /// The routers attached to the network of a network-LSA.
    pub fn attached(&self) -> Attached<'a>
        requires { IsNetworkLsa self.now }
        ensures { result ≡ attached_of self.now }
    {
        Attached::new(&self.as_bytes()[ENTRIES_AT..])
    }

    // Bytes that are known to be an LSA.
    pub(crate) fn of_lsa(bytes: &'a [u8]) -> LsaView<'a>
        requires { IsLsa bytes.now }
        ensures { result ≡ bytes.now }
    {
        LsaView { bytes }
    }
}

// The first fault of the bytes.
fn first_fault(bytes: &[u8]) -> Option<LsaFault>
    ensures fault { IfSome result (λ f. IsFirstFault bytes.now f) }
    ensures none { IfNone result (IsLsa bytes.now) }
{
    if bytes.len() < LSA_HEADER || bytes.len() < usize::from(u16_at(bytes, LENGTH_AT)) {
        return Some(LsaFault::Short);
    }
    if bytes.len() > usize::from(u16_at(bytes, LENGTH_AT)) {
        return Some(LsaFault::Length);
    }
    if !lsa_sum_holds(bytes) {
        return Some(LsaFault::Sum);
    }
    if bytes[TYPE_AT] != ROUTER_LSA && bytes[TYPE_AT] != NETWORK_LSA {
        return Some(LsaFault::Kind);
    }
    if !has_body(bytes) {
        return Some(LsaFault::Links);
    }
    if !has_masks(bytes) {
        return Some(LsaFault::Mask);
    }
    if !has_costs(bytes) {
        return Some(LsaFault::ZeroMetric);
    }
    if bytes[TYPE_AT] == ROUTER_LSA && u32_at(bytes, ID_AT) != u32_at(bytes, ROUTER_AT) {
        return Some(LsaFault::IdMismatch);
    }
    if u32_at(bytes, NUMBER_AT) == RESERVED_SEQUENCE_NUMBER.cast_unsigned() {
        return Some(LsaFault::Number);
    }
    None
}

// Whether the body of bytes with a known LS type is one of that type.
fn has_body(bytes: &[u8]) -> bool
    requires whole { IsFreeOf fault.Short bytes.now }
    requires kind { IsFreeOf fault.Kind bytes.now }
    ensures { IsTrue result ↔ IsFreeOf fault.Links bytes.now }
{
    if bytes[TYPE_AT] == ROUTER_LSA {
        has_links(bytes)
    } else {
        has_routers(bytes)
    }
}

// Whether a router-LSA's body is the counted links.
fn has_links(bytes: &[u8]) -> bool
    ensures { IsTrue result ↔ HasLinks bytes.now }
{
    bytes.len() >= ENTRIES_AT && Links::are_all(u16_at(bytes, COUNT_AT), &bytes[ENTRIES_AT..])
}

// Whether a network-LSA's body is a mask and Router IDs.
fn has_routers(bytes: &[u8]) -> bool
    ensures { IsTrue result ↔ HasRouters bytes.now }
{
    bytes.len() >= ENTRIES_AT && (bytes.len() - LSA_HEADER) % ROUTER_SIZE == 0
}

// Whether no mask has a hole.
fn has_masks(bytes: &[u8]) -> bool
    requires whole { IsFreeOf fault.Short bytes.now }
    requires kind { IsFreeOf fault.Kind bytes.now }
    requires body { IsFreeOf fault.Links bytes.now }
    ensures { IsTrue result ↔ IsFreeOf fault.Mask bytes.now }
{
    if bytes[TYPE_AT] == ROUTER_LSA {
        have_masks(Links::new(u16_at(bytes, COUNT_AT), &bytes[ENTRIES_AT..]))
    } else {
        is_mask(u32_at(bytes, LSA_HEADER))
    }
}

// Whether each type 3 link has a mask without a hole.
fn have_masks(mut links: Links) -> bool
    ensures { IsTrue result ↔ All HasMask links.entry }
{
    links.all(|link| link.has_mask())
}

// Whether each link that has to cost something does.
fn has_costs(bytes: &[u8]) -> bool
    requires whole { IsFreeOf fault.Short bytes.now }
    requires kind { IsFreeOf fault.Kind bytes.now }
    requires body { IsFreeOf fault.Links bytes.now }
    ensures { IsTrue result ↔ IsFreeOf fault.ZeroMetric bytes.now }
{
    bytes[TYPE_AT] != ROUTER_LSA
        || have_costs(Links::new(u16_at(bytes, COUNT_AT), &bytes[ENTRIES_AT..]))
}

// Whether each link to a router or a transit network costs something.
fn have_costs(mut links: Links) -> bool
    ensures { IsTrue result ↔ All HasCost links.entry }
{
    links.all(|link| link.has_cost())
}
