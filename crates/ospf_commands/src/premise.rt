//! Whether the premise of the headline holds for walks: each router that a router reaches in what
//! it lists runs, and lists the same LSAs.

ghost use Rattle.std.specs.Prelude.{◌≡◌, IfErr, IfOk, false};
ghost use Rattle.ospf_base.specs.declared.event.event.WorldFault.{WorldFault};
ghost use Rattle.ospf_commands.specs.Premise.{IsFirstOfVertices, IsFirstToDiffer, IsOfVertex, IsPremiseOf, IsPremiseOfSlots, difference_at};
ghost use Rattle.ospf_router.specs.Routers.{listing_of};
ghost use Rattle.ospf_world.specs.Worlds.{world_of};

use ospf_base::RouterId;
use ospf_graph::edges::{edges_of, is_listed};
use ospf_graph::{Settled, Vertex, shortest_paths};
use ospf_journal::{Difference, difference_between};
use ospf_lsa::Listing;
use ospf_router::Router;
use ospf_views::Disagreement;
use ospf_world::{Slot, World, WorldFault};
use std::alloc::{AllocError, Global};

/// Of the routers that a router reaches in what it lists, by Router ID, the first that does not run
/// or lists other LSAs, and how it differs; `None` if the premise holds.
///
/// `NoRouter` or `NotRunning` if the router cannot be asked, `Memory` if memory runs out.
pub fn disagreement(
    world: &World,
    router: RouterId,
    alloc: Global,
) -> Result<Option<Disagreement>, WorldFault>
    ensures { IsPremiseOf (world_of world.now) router result }
{
    let lent = world.router(router)?;
    match of_router(world, router, lent, alloc) {
        Ok(found) => Ok(found),
        Err(AllocError) => Err(WorldFault::Memory { stopped: false }),
    }
}

/// The first router for which the premise does not hold, in the order of the configurations, and
/// why; `None` if it holds for every router that runs.
///
/// `Memory` if memory runs out.
pub fn any_disagreement(world: &World, alloc: Global) -> Result<Option<Disagreement>, WorldFault>
    ensures found { IfOk result (IsPremiseOfSlots (world_of world.now) world.now.slots) }
    ensures memory { IfErr result (λ fault. fault ≡ WorldFault.Memory false) }
{
    match first_of_slots(world, world.slots(), alloc) {
        Ok(found) => Ok(found),
        Err(AllocError) => Err(WorldFault::Memory { stopped: false }),
    }
}

// The first of these routers for which the premise does not hold, and why.
fn first_of_slots(
    world: &World,
    slots: &[Slot],
    alloc: Global,
) -> Result<Option<Disagreement>, AllocError>
    ensures { IfOk result (IsPremiseOfSlots (world_of world.now) slots.now) }
{
    let mut rest = slots;
    while let Some((slot, behind)) = rest.split_first() {
        let router = slot.config().router_id;
        match world.router(router) {
            Ok(lent) => {
                let found = of_router(world, router, lent, alloc)?;
                if found.is_some() {
                    return Ok(found);
                }
            }
            Err(_fault) => {}
        }
        rest = behind;
    }
    Ok(None)
}

// Of the routers that a running router reaches, the first that differs.
fn of_router(
    world: &World,
    from: RouterId,
    lent: &Router,
    alloc: Global,
) -> Result<Option<Disagreement>, AllocError>
    ensures { IfOk result
        (IsFirstToDiffer (world_of world.now) from (listing_of lent.now.area)) }
{
    let listing = lent.listing(alloc)?;
    let edges = edges_of(alloc, &listing)?;
    let paths = shortest_paths(alloc, &edges, Vertex::Router(from))?;
    first_among(world, from, &listing, &paths.settled, alloc)
}

// Of the routers at these vertices, the first that is listed and differs.
fn first_among(
    world: &World,
    from: RouterId,
    listing: &Listing,
    settled: &[Settled],
    alloc: Global,
) -> Result<Option<Disagreement>, AllocError>
    ensures { IfOk result (IsFirstOfVertices (world_of world.now) from listing.now settled.now) }
{
    let mut rest = settled;
    while let Some((reached, behind)) = rest.split_first() {
        let found = at_vertex(world, from, listing, reached.vertex, alloc)?;
        if found.is_some() {
            return Ok(found);
        }
        rest = behind;
    }
    Ok(None)
}

// The router at a vertex, if it is listed and differs.
fn at_vertex(
    world: &World,
    from: RouterId,
    listing: &Listing,
    vertex: Vertex,
    alloc: Global,
) -> Result<Option<Disagreement>, AllocError>
    ensures { IfOk result (IsOfVertex (world_of world.now) from listing.now vertex) }
{
    let Vertex::Router(router) = vertex else {
        return Ok(None);
    };
    if !is_listed(listing, router) {
        return Ok(None);
    }
    match difference_at(world, listing, router, alloc)? {
        Some(difference) => Ok(Some(Disagreement {
            from,
            router,
            difference,
        })),
        None => Ok(None),
    }
}

// How a router differs from one that lists these LSAs.
fn difference_at(
    world: &World,
    listing: &Listing,
    router: RouterId,
    alloc: Global,
) -> Result<Option<Difference>, AllocError>
    ensures { IfOk result (λ found. found ≡ difference_at (world_of world.now) listing.now router) }
{
    match world.router(router) {
        Ok(lent) => Ok(difference_between(listing, &lent.listing(alloc)?)),
        Err(_fault) => Ok(Some(Difference::Stopped)),
    }
}
