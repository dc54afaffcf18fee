//! What failures change at one router after the other.
//!
//! Each router's shortest paths are kept while all failures are looked at, and then let go: the
//! memory is that of the routers, the routes and the failures, and one tree a thread.

ghost use Rattle.std.specs.Prelude.{◌≡◌, ◌<◌, ◌^◌, ◌++◌, [], List, All, IfOk, OnOk, flat_map, length};
ghost use Rattle.std.specs.List.{AllZip};
ghost use Rattle.rayon.specs.Lists.{chunks_of};
ghost use Rattle.ospf_base.specs.declared.ids.RouterId.{RouterId};
ghost use Rattle.ospf_graph.specs.Advertisements.{Advertisement};
ghost use Rattle.ospf_graph.specs.EdgeLists.Listed.{advertisements_of};
ghost use Rattle.ospf_whatif.specs.Outage.{IsAreaGraph};
ghost use Rattle.ospf_failures.specs.Overall.{AreSumsOfBoth, AreOutages, AreSeenAt, AreSeenMore, FitTogether, HasRoomForOne, IsOutageOf, IsSeenAt, failing_router, roots_in};
ghost use Rattle.ospf_harm.specs.Cases.{IsTableBefore};
ghost use Rattle.ospf_harm.specs.Together.{IsComputable};
ghost use Rattle.ospf_failures.specs.declared.overall.RouteDetail.{RouteDetail};

use crate::overall::{Overall, RouteDetail};
use crate::progress::Progress;
use ospf_base::RouterId;
use ospf_harm::{Before, Breakdown, before_of};
use ospf_lsa::Listing;
use ospf_whatif::{AreaFailure, AreaGraph, Outage};
use rayon::current_num_threads;
use rayon::prelude::*;
use std::alloc::{AllocError, Global};
use std::thread::Threads;

// Routers are gone through in at most this many parts; after each, progress is reported.
const PARTS: usize = 16;

// The routers of a part are shared out in so many groups a thread, so that threads end together.
const GROUPS: usize = 2;

/// A failure, and what it takes from the graph of the area with all that fails together with it.
#[derive(Drop)]
pub(crate) struct FailureOutage {
    pub(crate) failure: AreaFailure,
    pub(crate) outage: Outage,
}

/// What each of these failures changes in the tables of these routers.
pub(crate) fn overalls_at<P: Progress>(
    alloc: Global,
    rt: &(impl Threads + Sync),
    at: (&Listing, &AreaGraph),
    outages: &[FailureOutage],
    roots: &[RouterId],
    detail: RouteDetail,
    progress: &mut P,
) -> Result<Vec<Overall>, AllocError>
    requires graph { IsAreaGraph (advertisements_of at.0.now) at.1.now }
    requires outages { AreOutages (advertisements_of at.0.now) outages.now }
    ensures { IfOk result (λ overalls.
        AllZip (IsSeenAt (advertisements_of at.entry.0.now) detail roots.now) outages.now
        overalls.items) }
{
    let most = roots.len() / PARTS + 1;
    let mut overalls = nothing_of(alloc, outages)?;
    let mut rest = roots;
    while !rest.is_empty() {
        let (part, behind) = rest.split_at(most.min(rest.len()));
        let found = overalls_in_threads(alloc, rt, at, outages, part, detail)?;
        add_all(&mut overalls, found)?;
        progress.comes(roots.len() - behind.len(), roots.len());
        rest = behind;
    }
    Ok(overalls)
}

/// The routers of an area, by its failures.
pub(crate) fn roots_of(alloc: Global, failures: &[AreaFailure]) -> Result<Vec<RouterId>, AllocError>
    ensures { IfOk result (λ roots. roots.items ≡ roots_in failures.now) }
{
    let mut roots = Vec::new(alloc);
    for failure in failures {
        add_root(failure, &mut roots)?;
    }
    Ok(roots)
}

/// What each of these failures takes from the area, with all that fails together with it.
pub(crate) fn outages_of(
    alloc: Global,
    rt: &(impl Threads + Sync),
    listing: &Listing,
    area: &AreaGraph,
    breakdowns: &[Breakdown],
) -> Result<Vec<FailureOutage>, AllocError>
    requires graph { IsAreaGraph (advertisements_of listing.now) area.now }
    requires small { All (IsComputable (advertisements_of listing.now)) breakdowns.now }
    ensures { IfOk result (λ outages.
        AllZip (IsOutageOf (advertisements_of listing.now)) breakdowns.now outages.items) }
{
    breakdowns
        .par_iter()
        .with_min_len(1)
        .map(
            |breakdown: &Breakdown| -> Result<FailureOutage, AllocError>
                requires graph { IsAreaGraph (advertisements_of listing.now) area.now }
                requires small { IsComputable (advertisements_of listing.now) breakdown.now }
                ensures { IfOk result (IsOutageOf (advertisements_of listing.entry.now)
                    breakdown.now) }
            { outage_of(alloc, listing, area, breakdown) },
        )
        .collect::<Result<Vec<FailureOutage>, AllocError>>(rt, alloc)?
}

// What a failure takes from the area, with all that fails together with it.
fn outage_of(
    alloc: Global,
    listing: &Listing,
    area: &AreaGraph,
    breakdown: &Breakdown,
) -> Result<FailureOutage, AllocError>
    requires graph { IsAreaGraph (advertisements_of listing.now) area.now }
    requires small { IsComputable (advertisements_of listing.now) breakdown.now }
    ensures { IfOk result (IsOutageOf (advertisements_of listing.now) breakdown.now) }
{
    let outage = Outage::of_all(alloc, listing, area, &breakdown.parts)?;
    Ok(FailureOutage {
        failure: breakdown.failure,
        outage,
    })
}

// What each of these failures changes in the tables of these routers, in several threads.
fn overalls_in_threads(
    alloc: Global,
    rt: &(impl Threads + Sync),
    at: (&Listing, &AreaGraph),
    outages: &[FailureOutage],
    roots: &[RouterId],
    detail: RouteDetail,
) -> Result<Vec<Overall>, AllocError>
    requires graph { IsAreaGraph (advertisements_of at.0.now) at.1.now }
    requires outages { AreOutages (advertisements_of at.0.now) outages.now }
    ensures { IfOk result (λ overalls.
        AllZip (IsSeenAt (advertisements_of at.entry.0.now) detail roots.now) outages.now
        overalls.items) }
{
    let size = group_size(rt, roots);
    let pieces = pieces_in_threads(alloc, rt, at, outages, roots, size, detail)?;
    let overalls = added_up(alloc, outages, pieces)?;
    Ok(overalls)
}

// How many routers each group has, but the last.
fn group_size(rt: &impl Threads, roots: &[RouterId]) -> usize
    ensures { 0 < result }
{
    roots.len() / GROUPS / current_num_threads(rt) + 1
}

// What each of these failures changes in the tables of each group of so many of these routers.
fn pieces_in_threads(
    alloc: Global,
    rt: &(impl Threads + Sync),
    at: (&Listing, &AreaGraph),
    outages: &[FailureOutage],
    roots: &[RouterId],
    size: usize,
    detail: RouteDetail,
) -> Result<Vec<Vec<Overall>>, AllocError>
    requires graph { IsAreaGraph (advertisements_of at.0.now) at.1.now }
    requires outages { AreOutages (advertisements_of at.0.now) outages.now }
    requires size { 0 < size }
    ensures { IfOk result (λ pieces.
        AllZip (AreSeenAt (advertisements_of at.entry.0.now) detail outages.now)
        (chunks_of size roots.now) pieces.items) }
{
    let (listing, area) = at;
    roots
        .par_chunks(size)
        .with_min_len(1)
        .map(
            |piece: &[RouterId]| -> Result<Vec<Overall>, AllocError>
                requires graph { IsAreaGraph (advertisements_of listing.now) area.now }
                requires outages { AreOutages (advertisements_of listing.now) outages.now }
                ensures { IfOk result (AreSeenAt (advertisements_of listing.entry.now) detail
                    outages.entry.now piece.now) }
            { overalls_over(alloc, listing, area, outages, piece, detail) },
        )
        .collect::<Result<Vec<Vec<Overall>>, AllocError>>(rt, alloc)?
}

// What each of these failures changes in the tables of these routers, one router after the other.
fn overalls_over(
    alloc: Global,
    listing: &Listing,
    area: &AreaGraph,
    outages: &[FailureOutage],
    roots: &[RouterId],
    detail: RouteDetail,
) -> Result<Vec<Overall>, AllocError>
    requires graph { IsAreaGraph (advertisements_of listing.now) area.now }
    requires outages { AreOutages (advertisements_of listing.now) outages.now }
    ensures { IfOk result (λ overalls.
        AllZip (IsSeenAt (advertisements_of listing.now) detail roots.now) outages.now
        overalls.items) }
{
    let mut overalls = nothing_of(alloc, outages)?;
    for root in roots {
        let before = before_of(alloc, listing, area, *root)?;
        see_all(
            alloc,
            listing,
            area,
            outages,
            &before,
            detail,
            &mut overalls,
        )?;
    }
    Ok(overalls)
}

// The sums of what was found of failures at several groups of routers, in the order of these.
fn added_up(
    alloc: Global,
    outages: &[FailureOutage],
    pieces: Vec<Vec<Overall>>,
) -> Result<Vec<Overall>, AllocError>
    requires { (adverts : List Advertisement) × (detail : RouteDetail)
        × (groups : List (List RouterId)) × (length (flat_map (λ group. group) groups) < 2 ^ 64)
        × AllZip (AreSeenAt adverts detail outages.now) groups pieces.items }
    ensures { IfOk result (λ overalls. (adverts : List Advertisement) (detail : RouteDetail)
        (groups : List (List RouterId)) →
        AllZip (AreSeenAt adverts detail outages.now) groups pieces.items →
        AllZip (IsSeenAt adverts detail (flat_map (λ group. group) groups)) outages.now
        overalls.items) }
{
    let mut overalls = nothing_of(alloc, outages)?;
    for piece in pieces {
        add_all(&mut overalls, piece)?;
    }
    Ok(overalls)
}

// Of each failure nothing yet.
fn nothing_of(alloc: Global, outages: &[FailureOutage]) -> Result<Vec<Overall>, AllocError>
    ensures { IfOk result (λ overalls. (adverts : List Advertisement) (detail : RouteDetail) →
        AllZip (IsSeenAt adverts detail []) outages.now overalls.items) }
{
    let mut overalls = Vec::with_capacity(alloc, outages.len())?;
    for outage in outages {
        overalls.push(Overall::none(alloc, outage.failure))?;
    }
    Ok(overalls)
}

// Adds the router that fails.
fn add_root(failure: &AreaFailure, roots: &mut Vec<RouterId>) -> Result<(), AllocError>
    ensures { OnOk result (roots.new.items ≡ roots.old.items ++ failing_router failure.now) }
{
    match *failure {
        AreaFailure::Router(root) => roots.push(root).map_err(AllocError::from),
        AreaFailure::Link { .. } => Ok(()),
        AreaFailure::End { .. } => Ok(()),
        AreaFailure::Links { .. } => Ok(()),
        AreaFailure::Attachment { .. } => Ok(()),
        AreaFailure::Network(_) => Ok(()),
        AreaFailure::Stub { .. } => Ok(()),
    }
}

// Adds what each of these failures changes in the table of a router more.
fn see_all(
    alloc: Global,
    listing: &Listing,
    area: &AreaGraph,
    outages: &[FailureOutage],
    before: &Before,
    detail: RouteDetail,
    overalls: &mut Vec<Overall>,
) -> Result<(), AllocError>
    requires graph { IsAreaGraph (advertisements_of listing.now) area.now }
    requires outages { AreOutages (advertisements_of listing.now) outages.now }
    requires before { IsTableBefore (advertisements_of listing.now) before.now }
    requires long { length overalls.old.items ≡ length outages.now }
    requires room { All HasRoomForOne overalls.old.items }
    // Each has one table more.
    ensures { OnOk result (AreSeenMore (advertisements_of listing.now) before.now detail
        outages.now overalls.old.items overalls.new.items) }
{
    for (place, overall) in overalls.iter_mut().enumerate() {
        let outage = &outages[place].outage;
        overall.see(alloc, listing, area, outage, before, detail)?;
    }
    Ok(())
}

// Adds what was found of failures at more routers.
fn add_all(overalls: &mut Vec<Overall>, more: Vec<Overall>) -> Result<(), AllocError>
    requires { AllZip FitTogether overalls.old.items more.items }
    ensures { OnOk result (AreSumsOfBoth overalls.old.items more.items overalls.new.items) }
{
    let mut place = 0;
    for one in more {
        overalls[place].add(one)?;
        place += 1;
    }
    Ok(())
}
