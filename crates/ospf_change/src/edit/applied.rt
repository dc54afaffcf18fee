//! The listing of an area after changes.

ghost use Rattle.std.specs.Prelude.{◌≡◌, ◌<◌, ◌↔◌, All, Err, IfOk, IsTrue, OnOk, map};
ghost use Rattle.std.specs.List.{AllZip, list_all};
ghost use Rattle.ospf_base.specs.Constants.{max_age};
ghost use Rattle.ospf_lsa.specs.Header.{header_of};
ghost use Rattle.ospf_lsa.specs.Listing.{IsListable};
ghost use Rattle.ospf_lsa.specs.Lsa.{IsRouterLsa, key_of};
ghost use Rattle.ospf_graph.specs.EdgeLists.Listed.{advertisement_of, advertisements_of};
ghost use Rattle.ospf_whatif.specs.Failure.{IsLeftBy};
ghost use Rattle.ospf_change.specs.Edit.Change.{AreChanged, AreChangedBy, HasChangedLarge, HasChangedLargeBy, HasLargeThen, HasRightCost, IsChangedLarge, changed_area, changed_by, changed_lsa, keeps_cost, priced_link, priced_links};

use crate::edit::change::Change;
use ospf_base::{Kind, RouterId};
use ospf_lsa::{Link, Links, Listing, Lsa, LsaFault, LsaView};
use ospf_whatif::{WithoutFault, without};
use std::alloc::{AllocError, Global};

/// The LSAs of an area after changes, applied one after the other: what its routers originate once
/// they have converged. An LSA that no change touches is the same byte for byte. A router-LSA whose
/// links change is rebuilt as by `ospf_whatif::without`: with its sequence number, at age 0,
/// without the flags B, E and V and without TOS metrics.
///
/// `Links` if a changed router-LSA has more than 1,361 links, which do not fit in `LARGEST_LSA`
/// bytes; otherwise `Memory`.
pub fn apply(alloc: Global, listing: Listing, changes: &[Change]) -> Result<Listing, WithoutFault>
    // The metric of a link to a router or a transit network is not 0.
    requires { All HasRightCost changes.now }
    ensures changed_area { IfOk result (λ new. advertisements_of new
        ≡ changed_by changes.now (advertisements_of listing)) }
    ensures bytes { IfOk result (AreChangedBy changes.now listing) }
    // `Links` is returned exactly if an LSA would have too many.
    ensures large { result ≡ Err WithoutFault.Links →
        HasChangedLargeBy changes.now (advertisements_of listing) }
    ensures small { OnOk result
        (HasChangedLargeBy changes.now (advertisements_of listing) → ⊥) }
{
    let mut left = listing;
    for change in changes {
        left = changed_area(alloc, &left, change)?;
    }
    Ok(left)
}

// The LSAs of an area after a change.
fn changed_area(alloc: Global, listing: &Listing, change: &Change) -> Result<Listing, WithoutFault>
    ensures changed_area { IfOk result (λ new. advertisements_of new
        ≡ changed_area change.now (advertisements_of listing.now)) }
    ensures bytes { IfOk result (AreChanged change.now listing.now) }
    ensures large { result ≡ Err WithoutFault.Links →
        HasChangedLarge change.now (advertisements_of listing.now) }
    ensures small { OnOk result
        (HasChangedLarge change.now (advertisements_of listing.now) → ⊥) }
{
    match change {
        Change::Down(failure) => without(alloc, listing, failure),
        Change::Cost { .. } => priced(alloc, listing, change),
        Change::CostTo { .. } => priced(alloc, listing, change),
        Change::Drain(_) => priced(alloc, listing, change),
    }
}

// The LSAs of an area after a change of costs.
fn priced(alloc: Global, listing: &Listing, change: &Change) -> Result<Listing, WithoutFault>
    ensures changed_area { IfOk result (λ new. advertisements_of new
        ≡ map (changed_lsa (priced_links change.now)) (advertisements_of listing.now)) }
    ensures bytes { IfOk result (AllZip (IsLeftBy (priced_links change.now)) listing.now) }
    ensures large { result ≡ Err WithoutFault.Links →
        HasLargeThen (priced_links change.now) (advertisements_of listing.now) }
    ensures small { OnOk result
        (HasLargeThen (priced_links change.now) (advertisements_of listing.now) → ⊥) }
{
    let mut new = Listing::new(alloc);
    for lsa in listing.lsas() {
        let priced = lsa_priced(alloc, change, &lsa.view())?;
        new.append(priced)?;
    }
    Ok(new)
}

// An LSA after a change of costs.
fn lsa_priced(alloc: Global, change: &Change, lsa: &LsaView) -> Result<Lsa, LsaFault>
    requires { IsListable lsa.now }
    ensures advertisement { IfOk result (λ new. advertisement_of new
        ≡ changed_lsa (priced_links change.now) (advertisement_of lsa.now)) }
    ensures bytes { IfOk result (IsLeftBy (priced_links change.now) lsa.now) }
    ensures key { IfOk result (λ new. key_of new ≡ key_of lsa.now) }
    ensures young { IfOk result (λ new. (header_of new).age < max_age) }
    // It is too long exactly if it changes and has more links than the largest LSA holds.
    ensures large { result ≡ Err LsaFault.Length →
        IsChangedLarge (priced_links change.now) (advertisement_of lsa.now) }
    ensures small { OnOk result
        (IsChangedLarge (priced_links change.now) (advertisement_of lsa.now) → ⊥) }
{
    match lsa.kind() {
        Kind::Router => router_priced(alloc, change, lsa),
        Kind::Network => Lsa::copy(alloc, lsa),
    }
}

// A router-LSA after a change of costs: the same where all costs stay.
fn router_priced(alloc: Global, change: &Change, lsa: &LsaView) -> Result<Lsa, LsaFault>
    requires router { IsRouterLsa lsa.now }
    requires listed { IsListable lsa.now }
    ensures advertisement { IfOk result (λ new. advertisement_of new
        ≡ changed_lsa (priced_links change.now) (advertisement_of lsa.now)) }
    ensures bytes { IfOk result (IsLeftBy (priced_links change.now) lsa.now) }
    ensures key { IfOk result (λ new. key_of new ≡ key_of lsa.now) }
    ensures young { IfOk result (λ new. (header_of new).age < max_age) }
    // It is too long exactly if it changes and has more links than the largest LSA holds.
    ensures large { result ≡ Err LsaFault.Length →
        IsChangedLarge (priced_links change.now) (advertisement_of lsa.now) }
    ensures small { OnOk result
        (IsChangedLarge (priced_links change.now) (advertisement_of lsa.now) → ⊥) }
{
    let router = lsa.key().router;
    let Ok(links) = listed(alloc, lsa.links()) else {
        return Err(LsaFault::Memory);
    };
    if keeps_all(change, router, &links) {
        return Lsa::copy(alloc, lsa);
    }
    match links_priced(alloc, change, router, &links) {
        Ok(priced) => Lsa::router(alloc, router, lsa.header().number, &priced),
        Err(_) => Err(LsaFault::Memory),
    }
}

// Whether a router of these links keeps all costs.
fn keeps_all(change: &Change, router: RouterId, links: &[Link]) -> bool
    ensures { IsTrue result ↔ (priced_links change.now router links.now ≡ links.now) }
{
    !change.changes_costs_of(router) || keep_costs(change, links)
}

// Whether these links of the router whose costs change keep theirs.
fn keep_costs(change: &Change, links: &[Link]) -> bool
    ensures { result ≡ list_all (keeps_cost change.now links.now) links.now }
{
    links.iter().all(|link| change.keeps(links, *link))
}

// The links of a router after a change of costs.
fn links_priced(
    alloc: Global,
    change: &Change,
    router: RouterId,
    links: &[Link],
) -> Result<Vec<Link>, AllocError>
    ensures { IfOk result (λ new. new.items ≡ priced_links change.now router links.now) }
{
    if change.changes_costs_of(router) {
        each_priced(alloc, change, links)
    } else {
        Vec::from_slice(alloc, links)
    }
}

// These links of the router whose costs change, after that.
fn each_priced(alloc: Global, change: &Change, links: &[Link]) -> Result<Vec<Link>, AllocError>
    ensures { IfOk result (λ new. new.items
        ≡ map (priced_link change.now links.now) links.now) }
{
    let mut new = Vec::new(alloc);
    for link in links {
        new.push(change.priced(links, *link))?;
    }
    Ok(new)
}

// Links one by one.
fn listed(alloc: Global, links: Links) -> Result<Vec<Link>, AllocError>
    ensures { IfOk result (λ all. all.items ≡ links.entry) }
{
    let mut all = Vec::new(alloc);
    for link in links {
        all.push(link)?;
    }
    Ok(all)
}
