//! Drawings of what routers list.

ghost use Rattle.std.specs.Prelude.{◌≡◌, IfOk, string_bytes};
ghost use Rattle.ospf_inspect.specs.AreaDrawing.Graph.{graph_text};
ghost use Rattle.ospf_views.specs.RecordFiles.Drawings.{drawing_of, first_listing, stopped_in};

use ospf_base::RouterId;
use ospf_inspect::drawing::Graph;
use ospf_lsa::Listing;
use ospf_world::{Slot, World};
use std::alloc::{AllocError, Global};

/// What the first router that runs lists (RFC 2328, section 14), in the order of the
/// configurations, as a drawing for Graphviz; nothing where none runs. Routers that do not run are
/// grey, and a red arrow leads from each router that a walk met to the next.
///
/// `AllocError` where memory runs out.
pub fn drawing(world: &World, walked: &[RouterId], alloc: Global) -> Result<String, AllocError>
    ensures { IfOk result (λ text. string_bytes text
        ≡ drawing_of world.now.slots walked.now) }
{
    let listing = first_listing(world.slots(), alloc)?;
    let stopped = stopped_in(world.slots(), alloc)?;
    draw(&listing, &stopped, walked, alloc)
}

// What the first router that runs lists; nothing where none runs.
fn first_listing(slots: &[Slot], alloc: Global) -> Result<Listing, AllocError>
    ensures { IfOk result (λ l. l ≡ first_listing slots.now) }
{
    for slot in slots {
        if let Some(router) = slot.router() {
            return router.listing(alloc);
        }
    }
    Ok(Listing::new(alloc))
}

// The routers that do not run.
fn stopped_in(slots: &[Slot], alloc: Global) -> Result<Vec<RouterId>, AllocError>
    ensures { IfOk result (λ routers. routers.items ≡ stopped_in slots.now) }
{
    slots
        .iter()
        .filter(|slot| !slot.runs())
        .map(|slot| slot.config().router_id)
        .collect(alloc)
}

// A listing, the routers that do not run and a walk as a drawing.
fn draw(
    listing: &Listing,
    stopped: &[RouterId],
    walked: &[RouterId],
    alloc: Global,
) -> Result<String, AllocError>
    ensures { IfOk result (λ text. string_bytes text
        ≡ graph_text listing.now stopped.now walked.now) }
{
    let graph = Graph {
        listing,
        stopped,
        walked,
    };
    format!(in alloc; "{graph}")
}
