//! The listing of an area after a failure.

ghost use Rattle.std.specs.Prelude.{◌≡◌, ◌≢◌, ◌↔◌, ◌++◌, ◌<◌, ◌∷◌, [], Err, IfOk, OnOk, IsTrue, map};
ghost use Rattle.std.specs.List.{AllZip};
ghost use Rattle.ospf_base.specs.Constants.{max_age};
ghost use Rattle.ospf_lsa.specs.Header.{header_of};
ghost use Rattle.ospf_lsa.specs.Lsa.{key_of, IsRouterLsa};
ghost use Rattle.ospf_lsa.specs.Listing.{IsListable};
ghost use Rattle.ospf_graph.specs.EdgeLists.Listed.{advertisement_of, advertisements_of};
ghost use Rattle.ospf_whatif.specs.Failure.{HasLarge, HasLeftLarge, HasLeftLargeBy, IsLeftBy, IsLeftLarge, IsLeftLsa, left_of_lsa, kept_links, without, without_all};

use crate::failure::AreaFailure;
use crate::subnets::inner_of;
use ospf_base::{Kind, RouterId};
use ospf_lsa::{Link, Links, Listing, Lsa, LsaFault, LsaView};
use std::alloc::{AllocError, Global};

/// Why there is no listing of the area after a failure.
#[derive(Clone, Copy, Debug, PartialEq, Eq)]
pub enum WithoutFault {
    /// Memory ran out.
    Memory,
    /// A router-LSA that the failure changes keeps more links than an LSA that is made may have.
    Links,
}

impl From<AllocError> for WithoutFault {
    ghost use Rattle.std.specs.Prelude.{◌≡◌};
    ghost use Rattle.ospf_whatif.specs.declared.area.WithoutFault.TheVariants as fault;

    ghost from_gives = { λ _ f. f ≡ fault.Memory };

    fn from(_error: AllocError) -> WithoutFault {
        WithoutFault::Memory
    }
}

impl From<LsaFault> for WithoutFault {
    ghost use Rattle.std.specs.Prelude.{◌≡◌};
    ghost use Rattle.ospf_lsa.specs.declared.fault.LsaFault.TheVariants as lsa_fault;
    ghost use Rattle.ospf_whatif.specs.declared.area.WithoutFault.TheVariants as fault;

    ghost from_gives = { λ lsa f. f ≡ fault.Links → lsa ≡ lsa_fault.Length };

    fn from(fault: LsaFault) -> WithoutFault {
        match fault {
            LsaFault::Length => WithoutFault::Links,
            _ => WithoutFault::Memory,
        }
    }
}

/// The LSAs of an area after a failure, once its routers have advertised it: those of the same
/// keys, without the links that the failure takes. An LSA that it does not touch stays the same
/// byte for byte; a changed router-LSA is rebuilt, with its number and age 0.
///
/// `Links` if a changed router-LSA keeps more than the 1,361 links that fit into `LARGEST_LSA`
/// bytes; else `Memory`.
pub fn without(
    alloc: Global,
    listing: &Listing,
    failure: &AreaFailure,
) -> Result<Listing, WithoutFault>
    ensures left { IfOk result (λ left. advertisements_of left
        ≡ without failure.now (advertisements_of listing.now)) }
    ensures bytes { IfOk result (AllZip
        (IsLeftLsa (advertisements_of listing.now) (failure.now ∷ [])) listing.now) }
    // `Links` is returned only if an LSA would have too many, and then there is no listing.
    ensures large { result ≡ Err WithoutFault.Links →
        HasLeftLarge failure.now (advertisements_of listing.now) }
    ensures small { OnOk result
        (HasLeftLarge failure.now (advertisements_of listing.now) → ⊥) }
{
    let inner = inner_of(alloc, listing, failure)?;
    without_taken(alloc, listing, failure, &inner)
}

// The LSAs of an area after a failure, which takes no link of these longer subnets.
fn without_taken(
    alloc: Global,
    listing: &Listing,
    failure: &AreaFailure,
    inner: &[Link],
) -> Result<Listing, WithoutFault>
    ensures left { IfOk result (λ left. advertisements_of left
        ≡ map (left_of_lsa inner.now failure.now) (advertisements_of listing.now)) }
    ensures bytes { IfOk result (AllZip (IsLeftBy (kept_links inner.now failure.now))
        listing.now) }
    ensures large { result ≡ Err WithoutFault.Links →
        HasLeftLargeBy inner.now failure.now (advertisements_of listing.now) }
    ensures small { OnOk result
        (HasLeftLargeBy inner.now failure.now (advertisements_of listing.now) → ⊥) }
{
    let mut left = Listing::new(alloc);
    for lsa in listing.lsas() {
        let kept = lsa_without(alloc, failure, inner, &lsa.view())?;
        left.append(kept)?;
    }
    Ok(left)
}

/// The LSAs of an area after failures, one after the other.
///
/// `AllocError` where memory runs out.
pub fn without_all(
    alloc: Global,
    listing: Listing,
    failures: &[AreaFailure],
) -> Result<Listing, AllocError>
    requires { failures.now ≢ [] → HasLarge (advertisements_of listing) → ⊥ }
    ensures left { IfOk result (λ left. advertisements_of left
        ≡ without_all failures.now (advertisements_of listing)) }
    ensures bytes { IfOk result (AllZip
        (IsLeftLsa (advertisements_of listing) failures.now) listing) }
{
    let mut left = listing;
    for failure in failures {
        left = without_small(alloc, &left, failure)?;
    }
    Ok(left)
}

/// The LSAs of an area without large router-LSAs, after a failure and others that happen with it.
///
/// `AllocError` where memory runs out.
pub(crate) fn without_more(
    alloc: Global,
    listing: &Listing,
    first: &AreaFailure,
    rest: &[AreaFailure],
) -> Result<Listing, AllocError>
    requires { HasLarge (advertisements_of listing.now) → ⊥ }
    ensures { IfOk result (λ left. advertisements_of left
        ≡ without_all (first.now ∷ rest.now) (advertisements_of listing.now)) }
{
    let left = without_small(alloc, listing, first)?;
    without_all(alloc, left, rest)
}

// The LSAs of an area without large router-LSAs, after a failure.
fn without_small(
    alloc: Global,
    listing: &Listing,
    failure: &AreaFailure,
) -> Result<Listing, AllocError>
    requires { HasLarge (advertisements_of listing.now) → ⊥ }
    ensures left { IfOk result (λ left. advertisements_of left
        ≡ without failure.now (advertisements_of listing.now)) }
    ensures bytes { IfOk result (AllZip
        (IsLeftLsa (advertisements_of listing.now) (failure.now ∷ [])) listing.now) }
{
    match without(alloc, listing, failure) {
        Ok(left) => Ok(left),
        Err(WithoutFault::Memory) => Err(AllocError),
        Err(WithoutFault::Links) => unreachable!(),
    }
}

// An LSA after the failure.
fn lsa_without(
    alloc: Global,
    failure: &AreaFailure,
    inner: &[Link],
    lsa: &LsaView,
) -> Result<Lsa, LsaFault>
    requires listed { IsListable lsa.now }
    // The LSA has what the failure leaves of it, under the same key, and is below the greatest age.
    ensures advertisement { IfOk result (λ left. advertisement_of left
        ≡ left_of_lsa inner.now failure.now (advertisement_of lsa.now)) }
    ensures bytes { IfOk result (IsLeftBy (kept_links inner.now failure.now) lsa.now) }
    ensures key { IfOk result (λ left. key_of left ≡ key_of lsa.now) }
    ensures young { IfOk result (λ left. (header_of left).age < max_age) }
    // It is too long only if it is rebuilt with more links than one of the largest size has.
    ensures large { result ≡ Err LsaFault.Length →
        IsLeftLarge inner.now failure.now (advertisement_of lsa.now) }
    ensures small { OnOk result
        (IsLeftLarge inner.now failure.now (advertisement_of lsa.now) → ⊥) }
{
    match lsa.kind() {
        Kind::Router => router_without(alloc, failure, inner, lsa),
        Kind::Network => Lsa::copy(alloc, lsa),
    }
}

// A router-LSA after the failure: the same where it keeps all links.
fn router_without(
    alloc: Global,
    failure: &AreaFailure,
    inner: &[Link],
    lsa: &LsaView,
) -> Result<Lsa, LsaFault>
    requires router { IsRouterLsa lsa.now }
    requires listed { IsListable lsa.now }
    // The LSA has what the failure leaves of it, under the same key, and is below the greatest age.
    ensures advertisement { IfOk result (λ left. advertisement_of left
        ≡ left_of_lsa inner.now failure.now (advertisement_of lsa.now)) }
    ensures bytes { IfOk result (IsLeftBy (kept_links inner.now failure.now) lsa.now) }
    ensures key { IfOk result (λ left. key_of left ≡ key_of lsa.now) }
    ensures young { IfOk result (λ left. (header_of left).age < max_age) }
    // It is too long only if it is rebuilt with more links than one of the largest size has.
    ensures large { result ≡ Err LsaFault.Length →
        IsLeftLarge inner.now failure.now (advertisement_of lsa.now) }
    ensures small { OnOk result
        (IsLeftLarge inner.now failure.now (advertisement_of lsa.now) → ⊥) }
{
    let router = lsa.key().router;
    if keeps_all(failure, inner, router, lsa.links()) {
        return Lsa::copy(alloc, lsa);
    }
    match kept_links(alloc, failure, inner, router, lsa.links()) {
        Ok(links) => Lsa::router(alloc, router, lsa.header().number, &links),
        Err(_) => Err(LsaFault::Memory),
    }
}

// Whether a router keeps all links.
fn keeps_all(failure: &AreaFailure, inner: &[Link], router: RouterId, mut links: Links) -> bool
    ensures { IsTrue result
        ↔ (kept_links inner.now failure.now router links.entry ≡ links.entry) }
{
    links.all(|link| !failure.takes(inner, router, link))
}

// The links that a router keeps.
fn kept_links(
    alloc: Global,
    failure: &AreaFailure,
    inner: &[Link],
    router: RouterId,
    links: Links,
) -> Result<Vec<Link>, AllocError>
    ensures { IfOk result (λ kept. kept.items
        ≡ kept_links inner.now failure.now router links.entry) }
{
    let mut kept = Vec::new(alloc);
    for link in links {
        push_kept(failure, inner, router, link, &mut kept)?;
    }
    Ok(kept)
}

// Adds a link, if the router keeps it.
fn push_kept(
    failure: &AreaFailure,
    inner: &[Link],
    router: RouterId,
    link: Link,
    kept: &mut Vec<Link>,
) -> Result<(), AllocError>
    ensures { OnOk result (kept.new.items ≡ kept.old.items
        ++ kept_links inner.now failure.now router (link ∷ [])) }
{
    if !failure.takes(inner, router, link) {
        kept.push(link)?;
    }
    Ok(())
}
