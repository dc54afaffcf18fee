//! The router.

ghost use Rattle.std.specs.Prelude.{◌≡◌, ◌≢◌, ◌<◌, ◌↔◌, [], IsTrue, IfErr, IfOk, IfSome, OnErr, OnOk, None, Some, is_some, map};
ghost use Rattle.ospf_base.specs.Sums.{contents};
ghost use Rattle.ospf_graph.specs.EdgeLists.Listed.{advertisements_of};
ghost use Rattle.ospf_flood.specs.Rules.{max_sequence_number};
ghost use Rattle.ospf_router.specs.Listings.{ListsAs, ListsBut};
ghost use Rattle.ospf_router.specs.AreaStep.Same.{IsSameRouter};
ghost use Rattle.ospf_router.specs.AreaStep.Drops.{dropped_by};
ghost use Rattle.ospf_router.specs.AreaStep.Events.{happening};
ghost use Rattle.ospf_area.specs.State.{AreaValue};
ghost use Rattle.ospf_router.specs.Routers.{IsKept, awaits_in, greatest_in, listing_of, neighbours_on, stopped};
ghost use Rattle.ospf_router.specs.Routes.{AreRoutes};
ghost use Rattle.ospf_router.specs.Starts.{IsStarted};
ghost use Rattle.ospf_router.specs.Steps.{Steps};
ghost use Rattle.ospf_router.specs.AreaStep.Steps.{StepsArea};

use crate::fault::{StartFault, Stopped};
use crate::routes::KeptRoutes;
use crate::start::area_of;
use crate::step::{Dropped, Event, StepResult};
use ospf_area::{Area, Outputs};
use ospf_base::{Instance, MAX_SEQUENCE_NUMBER, RouterId};
use ospf_config::Config;
use ospf_lsa::Listing;
use ospf_neighbour::Neighbour;
use ospf_originate::starts_sound;
use ospf_spf::RouteTable;
use std::alloc::{AllocError, Global};
use std::marker::Model;

/// What a step gives.
#[derive(Drop)]
pub struct Step {
    /// Its outputs.
    pub out: Outputs,
    /// Why the datagram is dropped, if it is.
    pub dropped: Option<Dropped>,
    /// Whether the routing table is different from the one before.
    pub table_changed: bool,
}

/// A router (RFC 2328).
#[derive(Drop)]
pub struct Router {
    links: usize,
    floor: i32,
    routes: KeptRoutes,
    area: Option<Area>,
}

impl Model for Router {
    ghost use Rattle.ospf_router.specs.Routers.{IsRouter, RouterValue};

    ghost Value = { RouterValue };

    ghost view = { λ r. record {
      links = r.links;
      floor = r.floor;
      table = r.routes.table;
      area = r.area;
    } };

    ghost invariant = { λ r. IsRouter r.links r.routes r.area };
}

impl Router {
    /// A router that starts with this configuration: all its links are down, and its database is
    /// empty. The numbers of its own LSAs begin above the floor (RFC 2328, section 12.1.6);
    /// `0x80000000` as an `i32` means none. `dd_start` is the DD sequence number that the first
    /// adjacency begins with (section 10.3).
    ///
    /// `StartFault::Floor` where the floor is the greatest number, else
    /// `StartFault::Memory` where memory runs out.
    pub fn start(
        config: &Config,
        dd_start: u32,
        floor: i32,
        alloc: Global,
    ) -> Result<Router, StartFault>
        ensures started { IfOk result (λ r. IsStarted config.now dd_start floor r) }
        ensures above { OnOk result (floor ≢ max_sequence_number) }
        ensures refused { IfErr result (λ f. (f ≡ StartFault.Floor)
            ↔ (floor ≡ max_sequence_number)) }
    {
        if floor == MAX_SEQUENCE_NUMBER {
            return Err(StartFault::Floor);
        }
        // For the proof.
        starts_sound();
        let area = match area_of(config, dd_start, floor, alloc) {
            Ok(area) => area,
            Err(AllocError) => return Err(StartFault::Memory),
        };
        Ok(Router {
            links: config.interfaces.len(),
            floor,
            routes: KeptRoutes::new(config.router_id, alloc),
            area: Some(area),
        })
    }

    /// Takes an event (RFC 2328, section 8.2): a datagram that is dropped, for the first cause that
    /// applies, changes nothing; what any other event does is followed by the elections that are
    /// due, the router's own LSAs, the LSAs that leave the database, and the routing table.
    ///
    /// `Stopped` where memory runs out, and from then on.
    pub fn step(&mut self, event: Event<'_>, alloc: Global) -> Result<Step, Stopped>
        ensures taken { IfOk result (λ t. Steps (happening event.entry) self.old t self.new) }
        ensures stopped { OnErr result (self.new ≡ stopped self.old) }
        ensures stands_still { self.old.area ≡ None → OnOk result ⊥ }
        ensures memory { (s : AreaValue) → self.old.area ≡ Some s →
            OnErr result (dropped_by (happening event.entry) s ≡ None) }
    {
        let Some(area) = &mut self.area else {
            return Err(Stopped);
        };
        match advance(area, &mut self.routes, event, alloc) {
            Ok(advanced) => {
                let StepResult { out, dropped } = advanced.taken;
                Ok(Step {
                    out,
                    dropped,
                    table_changed: advanced.table_changed,
                })
            }
            Err(AllocError) => {
                self.area = None;
                self.routes.clear(alloc);
                Err(Stopped)
            }
        }
    }

    /// What each step needs of the state of a router that runs, and keeps: by it each step is
    /// lawful (`crate::step::steps_are_lawful`). It is there for proofs, and costs nothing.
    pub fn keeps(&self)
        ensures { (s : AreaValue) → self.now.area ≡ Some s → IsKept s }
    {
        // For the proof.
        let _links = self.links;
    }

    /// The routing table (RFC 2328, section 11); one that has stopped
    /// routes nothing. No memory is allocated.
    pub fn table(&self) -> &RouteTable
        ensures { result.now ≡ self.now.table }
    {
        self.routes.table()
    }

    /// The LSAs below `MAX_AGE` (section 14).
    ///
    /// `AllocError` where memory runs out.
    pub fn listing(&self, alloc: Global) -> Result<Listing, AllocError>
        ensures { IfOk result (λ l. l ≡ listing_of self.now.area) }
    {
        match &self.area {
            Some(area) => area.database.listing(alloc),
            None => Ok(Listing::new(alloc)),
        }
    }

    /// The LSAs that the routing table was last made of, if it was made of any: those that the
    /// router lists (section 14), each at an age that it had before. No memory is allocated.
    pub fn kept_listing(&self) -> Option<&Listing>
        ensures same { IfSome result (λ l. map contents l.now
            ≡ map contents (listing_of self.now.area)) }
        ensures told { IfSome result (λ l. advertisements_of l.now
            ≡ advertisements_of (listing_of self.now.area)) }
        ensures none { result ≡ None → listing_of self.now.area ≡ [] }
    {
        match &self.area {
            Some(_) => self.routes.listing(),
            None => None,
        }
    }

    /// Its part of the area: links with their interfaces and neighbours, and the database (RFC
    /// 2328, sections 9, 10 and 12.2); `None` of one that has stopped. No memory is allocated.
    pub fn area(&self) -> Option<&Area>
        ensures some { IfSome result (λ s. self.now.area ≡ Some s.now) }
        ensures none { result ≡ None → self.now.area ≡ None }
    {
        match &self.area {
            Some(area) => Some(area),
            None => None,
        }
    }

    /// Whether the router has a link of this number. No memory is allocated.
    pub fn has_link(&self, link: usize) -> bool
        ensures { IsTrue result ↔ (link < self.now.links) }
    {
        link < self.links
    }

    /// The neighbours of a link, in rising Router ID (section 10). No memory is allocated.
    pub fn neighbours(&self, link: usize) -> &[Neighbour]
        ensures { result.now ≡ neighbours_on self.now.area link }
    {
        let Some(area) = &self.area else {
            return &[];
        };
        match area.links.get(link) {
            Some(link) => link.neighbours.all(),
            None => &[],
        }
    }

    /// Whether an instance is on the retransmission list of a neighbour on a link
    /// (section 13.6). No memory is allocated.
    pub fn awaits(&self, link: usize, neighbour: RouterId, instance: &Instance) -> bool
        ensures { result ≡ awaits_in self.now.area link neighbour instance.now }
    {
        let Some(area) = &self.area else {
            return false;
        };
        let Some(link) = area.links.get(link) else {
            return false;
        };
        match link.neighbours.get(neighbour) {
            Some(neighbour) => neighbour.is_listed(instance),
            None => false,
        }
    }

    /// The greatest of the floor of the start and all numbers of LSAs of the router's own that were
    /// issued or installed since; for one that has stopped, the floor. No memory is allocated.
    pub fn floor(&self) -> i32
        ensures { result ≡ greatest_in self.now.floor self.now.area }
    {
        match &self.area {
            Some(area) => area.max_seq,
            None => self.floor,
        }
    }
}

// The area's step, and whether the routing table changed.
#[derive(Drop)]
struct Advanced {
    taken: StepResult,
    table_changed: bool,
}

// A step of the area, and then its routes.
fn advance(
    area: &mut Area,
    routes: &mut KeptRoutes,
    event: Event<'_>,
    alloc: Global,
) -> Result<Advanced, AllocError>
    // The area can be stepped, and the routes are those of what it lists.
    requires kept { IsKept area.old }
    requires routes { AreRoutes area.old.router area.old.database routes.old.table }
    requires listing { ListsAs area.old.database routes.old.listing }
    requires router { routes.old.router ≡ area.old.router }
    // The area takes its step by the rules, stays the same router, and can be stepped again.
    ensures steps { IfOk result (λ a. StepsArea (happening event.entry) area.old a.taken.dropped
        a.taken.out area.new) }
    ensures same { OnOk result (IsSameRouter area.old area.new) }
    ensures kept { OnOk result (IsKept area.new) }
    // The routes are those of what it lists then, and an event that is dropped needs no memory.
    ensures routes { OnOk result
        (AreRoutes area.new.router area.new.database routes.new.table) }
    ensures listing { OnOk result (ListsAs area.new.database routes.new.listing) }
    ensures changed { IfOk result (λ a. IsTrue a.table_changed
        ↔ (routes.new.table ≢ routes.old.table)) }
    ensures router { routes.new.router ≡ routes.old.router }
    ensures memory { OnErr result (dropped_by (happening event.entry) area.old ≡ None) }
{
    let taken = crate::step::step(area, event, alloc)?;
    let table_changed = refresh(&taken, area, routes, alloc)?;
    Ok(Advanced {
        taken,
        table_changed,
    })
}

// The routes after a step: if its datagram is dropped they are unchanged, with no look at the
// database.
fn refresh(
    taken: &StepResult,
    area: &Area,
    routes: &mut KeptRoutes,
    alloc: Global,
) -> Result<bool, AllocError>
    // The routes are of this router and, where the datagram is dropped, those of what it lists.
    requires router { routes.old.router ≡ area.now.router }
    requires as_before { IsTrue (is_some taken.now.dropped) →
        AreRoutes area.now.router area.now.database routes.old.table }
    requires as_listed { IsTrue (is_some taken.now.dropped) →
        ListsAs area.now.database routes.old.listing }
    // What it lists besides was listed before, except at the keys that were taken or issued.
    requires listed { ListsBut taken.now.out area.now.database routes.old.listing }
    // Then they are those of what it lists in any case, and the result says whether they changed.
    ensures routes { OnOk result
        (AreRoutes area.now.router area.now.database routes.new.table) }
    ensures listing { OnOk result (ListsAs area.now.database routes.new.listing) }
    ensures changed { IfOk result (λ b. IsTrue b ↔ (routes.new.table ≢ routes.old.table)) }
    // They remain those of this router, and a datagram that is dropped needs no memory.
    ensures router { routes.new.router ≡ routes.old.router }
    ensures memory { OnErr result (IsTrue (is_some taken.now.dropped) → ⊥) }
{
    if taken.dropped.is_some() {
        return Ok(false);
    }
    routes.follow(&taken.out, &area.database, alloc)
}
