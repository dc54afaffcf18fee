//! Whether all running routers have the same listing.

ghost use Rattle.std.specs.Prelude.{◌≡◌, IfOk};
ghost use Rattle.ospf_commands.specs.Judged.{AreFirstToDiffer, IsFirstOther, both, some_run};

use ospf_base::RouterId;
use ospf_views::listed_by;
use ospf_world::Slot;
use std::alloc::{AllocError, Global};

// Finds the first running router, and the first after it with another listing, if there is one.
pub(crate) fn apart(
    slots: &[Slot],
    alloc: Global,
) -> Result<Option<(RouterId, RouterId)>, AllocError>
    ensures { IfOk result (AreFirstToDiffer slots.now) }
{
    let mut rest = slots;
    while let Some((slot, behind)) = rest.split_first() {
        if let Some(router) = slot.router() {
            let lsas = listed_by(router, alloc)?;
            let other = first_other(&lsas, behind, alloc)?;
            return Ok(both(slot.config().router_id, other));
        }
        rest = behind;
    }
    Ok(None)
}

// Whether a router runs.
pub(crate) fn some_run(slots: &[Slot]) -> bool
    ensures { result ≡ some_run slots.now }
{
    slots.iter().any(|slot| slot.runs())
}

// Finds the first of these routers that runs and has another listing.
fn first_other(lsas: &[u8], slots: &[Slot], alloc: Global) -> Result<Option<RouterId>, AllocError>
    ensures { IfOk result (IsFirstOther lsas.now slots.now) }
{
    let mut rest = slots;
    while let Some((slot, behind)) = rest.split_first() {
        if let Some(router) = slot.router() {
            let other = listed_by(router, alloc)?;
            if other.as_slice() != lsas {
                return Ok(Some(slot.config().router_id));
            }
        }
        rest = behind;
    }
    Ok(None)
}

fn both(router: RouterId, other: Option<RouterId>) -> Option<(RouterId, RouterId)>
    ensures { result ≡ both router other }
{
    match other {
        Some(other) => Some((router, other)),
        None => None,
    }
}
