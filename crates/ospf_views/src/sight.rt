//! What is seen of routers.

ghost use Rattle.std.specs.Prelude.{◌≡◌, ◌++◌, IfOk, OnOk, flat_map};
ghost use Rattle.ospf_base.specs.Sums.{contents};
ghost use Rattle.ospf_views.specs.Sight.{area_listed, area_sight, slot_sight};

use crate::views::add_view;
use ospf_lsa::Lsa;
use ospf_router::Router;
use ospf_script::View;
use ospf_world::Slot;
use std::alloc::{AllocError, Global};

// Where the age of an LSA ends (RFC 2328, appendix A.4.1).
const AGE_END: usize = 2;

/// What is seen of all routers, in their order: of each that runs its neighbours, as `neighbours`
/// prints them, and what it lists, but for ages. Two that are equal are of routers that look so.
///
/// `AllocError` where memory runs out.
pub fn sight_of(slots: &[Slot], alloc: Global) -> Result<Vec<u8>, AllocError>
    ensures { IfOk result (λ seen. seen.items ≡ flat_map slot_sight slots.now) }
{
    let mut seen = Vec::new(alloc);
    for slot in slots {
        push_slot(&mut seen, slot, alloc)?;
    }
    Ok(seen)
}

/// What a router lists: each LSA whole but for its age (RFC 2328, appendix A.4.1).
///
/// `AllocError` where memory runs out.
pub fn listed_by(router: &Router, alloc: Global) -> Result<Vec<u8>, AllocError>
    ensures { IfOk result (λ lsas. lsas.items ≡ area_listed router.now.area) }
{
    let mut lsas = Vec::new(alloc);
    push_listed(&mut lsas, router)?;
    Ok(lsas)
}

// Adds what is seen of a router.
fn push_slot(seen: &mut Vec<u8>, slot: &Slot, alloc: Global) -> Result<(), AllocError>
    ensures { OnOk result (seen.new.items ≡ seen.old.items ++ slot_sight slot.now) }
{
    seen.extend_from_slice(format!(in alloc; "{}\n", slot.config().router_id)?.as_bytes())?;
    match slot.router() {
        Some(router) => push_router(seen, router, alloc),
        None => Ok(()),
    }
}

// Adds what is seen of one that runs.
fn push_router(seen: &mut Vec<u8>, router: &Router, alloc: Global) -> Result<(), AllocError>
    ensures { OnOk result (seen.new.items ≡ seen.old.items ++ area_sight router.now.area) }
{
    add_view(seen, View::Neighbours, router, alloc)?;
    push_listed(seen, router)
}

// Adds what it lists, but for ages: its table was made of just that, so no LSA is copied.
fn push_listed(seen: &mut Vec<u8>, router: &Router) -> Result<(), AllocError>
    ensures { OnOk result (seen.new.items ≡ seen.old.items ++ area_listed router.now.area) }
{
    match router.kept_listing() {
        Some(listing) => push_contents(seen, listing.lsas()),
        None => Ok(()),
    }
}

// Adds LSAs, but for their ages.
fn push_contents(seen: &mut Vec<u8>, lsas: &[Lsa]) -> Result<(), AllocError>
    ensures { OnOk result (seen.new.items ≡ seen.old.items ++ flat_map contents lsas.now) }
{
    for lsa in lsas {
        seen.extend_from_slice(contents(lsa))?;
    }
    Ok(())
}

// An LSA, but for its age.
fn contents(lsa: &Lsa) -> &[u8]
    ensures { result.now ≡ contents lsa.now }
{
    &lsa.view().as_bytes()[AGE_END..]
}
