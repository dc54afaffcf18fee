//! The routers whose tables are compared.

ghost use Rattle.std.specs.Prelude.{◌≡◌, ◌↔◌, ◌<◌, AllPairs, Contains, IfOk, OnOk};
ghost use Rattle.ospf_base.specs.declared.ids.RouterId.{RouterId};
ghost use Rattle.ospf_graph.specs.Adds.{Adds};
ghost use Rattle.ospf_whatif.specs.declared.failure.AreaFailure.TheVariants.{Router};
ghost use Rattle.ospf_change.specs.Diff.Sights.{AreRoutersAmong};

use ospf_base::RouterId;
use ospf_whatif::AreaFailure;
use std::alloc::{AllocError, Global};

// All routers among the elements of two areas, in the order of Router IDs.
pub(crate) fn all_routers(
    alloc: Global,
    before: &[AreaFailure],
    after: &[AreaFailure],
) -> Result<Vec<RouterId>, AllocError>
    ensures { IfOk result (λ routers. AreRoutersAmong before.now after.now routers.items) }
{
    let mut routers = Vec::new(alloc);
    add_routers(before, &mut routers)?;
    add_routers(after, &mut routers)?;
    put_in_order(&mut routers);
    Ok(routers)
}

// Adds the routers among elements.
fn add_routers(elements: &[AreaFailure], routers: &mut Vec<RouterId>) -> Result<(), AllocError>
    ensures { OnOk result (Adds (λ r. Contains elements.now (Router r)) routers.old.items
        routers.new.items) }
{
    for element in elements {
        add_router(element, routers)?;
    }
    Ok(())
}

// Adds the router that an element is, if it is one.
fn add_router(element: &AreaFailure, routers: &mut Vec<RouterId>) -> Result<(), AllocError>
    ensures { OnOk result (Adds (λ r. element.now ≡ Router r) routers.old.items
        routers.new.items) }
{
    match *element {
        AreaFailure::Router(router) => {
            routers.push(router)?;
            Ok(())
        }
        AreaFailure::Link { .. } => Ok(()),
        AreaFailure::End { .. } => Ok(()),
        AreaFailure::Links { .. } => Ok(()),
        AreaFailure::Attachment { .. } => Ok(()),
        AreaFailure::Network(_) => Ok(()),
        AreaFailure::Stub { .. } => Ok(()),
    }
}

// Puts routers in the order of their IDs, each once.
fn put_in_order(routers: &mut Vec<RouterId>)
    ensures same { (r : RouterId) → Contains routers.new.items r ↔ Contains routers.old.items r }
    ensures rising { AllPairs (λ r s. r.0 < s.0) routers.new.items }
{
    routers.sort_unstable();
    routers.dedup();
}
