//! LSAs that are made.

ghost use Rattle.std.specs.Prelude.{◌≡◌, ◌≤◌, ◌++◌, ◌↔◌, ◌<◌, ◌*◌, ◌+◌, ℕ, IsTrue, IfOk, IfErr, OnOk, All, length};
ghost use Rattle.std.specs.List.{flat_map, AllByRecursion};
ghost use Rattle.ospf_base.specs.Constants.{largest_lsa};
ghost use Rattle.ospf_base.specs.Sums.{IsChecksum, with_checksum};
ghost use Rattle.ospf_lsa.specs.Link.{link_bytes, LinkFits};
ghost use Rattle.ospf_lsa.specs.Lsa.{HasMask, HasCost};
ghost use Rattle.ospf_lsa.specs.Attached.{routers_bytes, RouterFits};
ghost use Rattle.ospf_lsa.specs.Value.{router_value, network_value, lsa_bytes, IsMade, ValueFits, RouterNeeds, NetworkNeeds, HasAll, IsUnmade, network_lsa_length, router_lsa_length};

use crate::fault::LsaFault;
use crate::header::LsaHeader;
use crate::layout::{ENTRIES_AT, LINK_SIZE, ROUTER_SIZE, SUM_AT};
use crate::link::Link;
use crate::lsa::Lsa;
use ospf_base::{
    Age, LARGEST_LSA, NETWORK_LSA, OPTIONS, RESERVED_SEQUENCE_NUMBER, ROUTER_LSA, RouterId,
    is_mask, lsa_sum,
};
use std::alloc::{AllocError, Global};

impl Lsa {
    /// A router-LSA of a router, at age 0 (RFC 2328, section 12.4.1).
    ///
    /// `Length` where it would be longer than `LARGEST_LSA`, else `Mask` where the Link Data of a
    /// stub link is no mask, else `ZeroMetric` where a link of type 1 or 2 has metric 0, else
    /// `Number` where the number is 0x80000000, else `Memory` where memory runs out.
    pub fn router(alloc: Global, id: RouterId, number: i32, links: &[Link]) -> Result<Lsa, LsaFault>
        ensures ok { IfOk result (λ lsa. IsMade (router_value id number links.now) lsa) }
        ensures needs { OnOk result (HasAll (RouterNeeds number links.now)) }
        ensures fault { IfErr result (λ f. IsUnmade (RouterNeeds number links.now) f) }
    {
        if links.len() > (LARGEST_LSA - ENTRIES_AT) / LINK_SIZE {
            return Err(LsaFault::Length);
        }
        if !have_masks(links) {
            return Err(LsaFault::Mask);
        }
        if !have_costs(links) {
            return Err(LsaFault::ZeroMetric);
        }
        if number == RESERVED_SEQUENCE_NUMBER {
            return Err(LsaFault::Number);
        }
        match router_bytes(alloc, id, number, links) {
            Ok(bytes) => Ok(Lsa::of_bytes(sealed(bytes))),
            Err(_) => Err(LsaFault::Memory),
        }
    }

    /// A network-LSA of a router, at age 0 (RFC 2328, section 12.4.2). `id` and `mask` are in host
    /// order.
    ///
    /// `Length` where it would be longer than `LARGEST_LSA`, else `Mask` where the mask is none,
    /// else `Number` where the number is 0x80000000, else `Memory` where memory runs out.
    pub fn network(
        alloc: Global,
        id: u32,
        router: RouterId,
        number: i32,
        mask: u32,
        routers: &[RouterId],
    ) -> Result<Lsa, LsaFault>
        ensures ok { IfOk result (λ lsa. IsMade (network_value id router number mask routers.now)
            lsa) }
        ensures needs { OnOk result (HasAll (NetworkNeeds number mask routers.now)) }
        ensures fault { IfErr result (λ f. IsUnmade (NetworkNeeds number mask routers.now) f) }
    {
        if routers.len() > (LARGEST_LSA - ENTRIES_AT) / ROUTER_SIZE {
            return Err(LsaFault::Length);
        }
        if !is_mask(mask) {
            return Err(LsaFault::Mask);
        }
        if number == RESERVED_SEQUENCE_NUMBER {
            return Err(LsaFault::Number);
        }
        match network_bytes(alloc, id, router, number, mask, routers) {
            Ok(bytes) => Ok(Lsa::of_bytes(sealed(bytes))),
            Err(_) => Err(LsaFault::Memory),
        }
    }
}

// Whether each type 3 link has a mask without a hole.
fn have_masks(links: &[Link]) -> bool
    ensures { IsTrue result ↔ All HasMask links.now }
{
    links.iter().all(|link| link.has_mask())
}

// Whether each link to a router or a transit network costs something.
fn have_costs(links: &[Link]) -> bool
    ensures { IsTrue result ↔ All HasCost links.now }
{
    links.iter().all(|link| link.has_cost())
}

// A router-LSA without its checksum.
fn router_bytes(
    alloc: Global,
    id: RouterId,
    number: i32,
    links: &[Link],
) -> Result<Vec<u8>, AllocError>
    requires { router_lsa_length links.now ≤ largest_lsa }
    ensures bytes { IfOk result (λ v. v.items ≡ lsa_bytes (router_value id number links.now)) }
    ensures fits { OnOk result (ValueFits (router_value id number links.now)) }
{
    let size = ENTRIES_AT + LINK_SIZE * links.len();
    let count = links.len() as u16;
    let header = LsaHeader {
        age: Age::new(0),
        options: OPTIONS,
        kind: ROUTER_LSA,
        id: id.0,
        router: id,
        number,
        sum: 0,
        length: size as u16,
    };
    let [high, low] = count.to_be_bytes();
    let mut bytes = Vec::with_capacity(alloc, size)?;
    bytes.extend_from_slice(&header.to_bytes())?;
    bytes.extend_from_slice(&[0, 0, high, low])?;
    push_links(&mut bytes, links)?;
    Ok(bytes)
}

// Puts the bytes of links at the end.
fn push_links(out: &mut Vec<u8>, links: &[Link]) -> Result<(), AllocError>
    ensures links { OnOk result (out.new.items ≡ out.old.items ++ flat_map link_bytes links.now) }
    ensures fit { OnOk result (AllByRecursion LinkFits links.now) }
{
    for link in links {
        out.extend_from_slice(&link.to_bytes())?;
    }
    Ok(())
}

// Puts the checksum in.
fn sealed(mut bytes: Vec<u8>) -> Vec<u8>
    requires { 20 ≤ length bytes.items }
    ensures { (x : ℕ) × (y : ℕ) × IsChecksum bytes.items x y
        × (result.items ≡ with_checksum bytes.items x y) }
{
    let sum = lsa_sum(&bytes);
    bytes[SUM_AT] = (sum / 256) as u8;
    bytes[SUM_AT + 1] = (sum % 256) as u8;
    bytes
}

// A network-LSA without its checksum.
fn network_bytes(
    alloc: Global,
    id: u32,
    router: RouterId,
    number: i32,
    mask: u32,
    routers: &[RouterId],
) -> Result<Vec<u8>, AllocError>
    requires { network_lsa_length routers.now ≤ largest_lsa }
    ensures bytes { IfOk result (λ v. v.items
        ≡ lsa_bytes (network_value id router number mask routers.now)) }
    ensures fits { OnOk result (ValueFits (network_value id router number mask routers.now)) }
{
    let size = ENTRIES_AT + ROUTER_SIZE * routers.len();
    let header = LsaHeader {
        age: Age::new(0),
        options: OPTIONS,
        kind: NETWORK_LSA,
        id,
        router,
        number,
        sum: 0,
        length: size as u16,
    };
    let mut bytes = Vec::with_capacity(alloc, size)?;
    bytes.extend_from_slice(&header.to_bytes())?;
    bytes.extend_from_slice(&mask.to_be_bytes())?;
    push_routers(&mut bytes, routers)?;
    Ok(bytes)
}

// Puts the bytes of Router IDs at the end.
fn push_routers(out: &mut Vec<u8>, routers: &[RouterId]) -> Result<(), AllocError>
    ensures routers { OnOk result (out.new.items ≡ out.old.items ++ routers_bytes routers.now) }
    ensures fit { OnOk result (AllByRecursion RouterFits routers.now) }
{
    for router in routers {
        let number = router.0;
        out.extend_from_slice(&number.to_be_bytes())?;
    }
    Ok(())
}
