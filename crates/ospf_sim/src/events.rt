//! The journal of a simulation.

ghost use Rattle.std.specs.Prelude.{◌≡◌, ◌≢◌, ◌≤◌, None, Some, IfOk, OnOk, drop, length, map, option_map};
ghost use Rattle.ospf_base.specs.declared.ids.RouterId.{RouterId};
ghost use Rattle.ospf_world.specs.Running.{delivery};
ghost use Rattle.ospf_base.specs.Events.Events.{router_in};
ghost use Rattle.ospf_world.specs.World.{router_at};
ghost use Rattle.ospf_base.specs.declared.event.event.WorldEvent.TheVariants.{Deliver};
ghost use Rattle.ospf_journal.specs.Causes.{cause_of};
ghost use Rattle.ospf_journal.specs.Changes.{AreChanges};
ghost use Rattle.ospf_router.specs.AreaStep.Step.Event.{Datagram};
ghost use Rattle.ospf_sim.specs.Followed.{drop_coming, followed_in, issued_instance, known_before, not_followed, report_of, report_seen, report_taken, seen_in, ticks_then};
ghost use Rattle.ospf_world.specs.Worlds.{world_of};

use ospf_base::{Instance, RouterId};
use ospf_files::Failure;
use ospf_journal::{Dropped, DroppedAt, Reported, RouterChange, Seen, dropped_of};
use ospf_router::{Router, Sent};
use ospf_views::records::Journal;
use ospf_world::{EventWatch, Issued, World, WorldEvent, WorldFault};
use std::alloc::{AllocError, Global};
use std::collections::BTreeMap;
use std::io::Write;
use std::marker::Model;

/// Writes a journal of the routers of a simulation, if one is wanted. The tick of a line is the
/// most that any router has taken so far, so that lines of routers that started at different times
/// can be distinguished by it.
#[derive(Drop)]
pub struct Events<F: Write + Drop> {
    alloc: Global,
    journal: Option<Journal<F>>,
    routers: BTreeMap<RouterId, Followed>,
    // What was known before the current event.
    coming: Coming,
    // The most ticks that a router has taken.
    most_ticks: u64,
}

impl<F: Write + Drop> Model for Events<F> {
    ghost use Rattle.ospf_sim.specs.Followed.{EventsValue};

    ghost Value = { EventsValue };

    ghost view = { λ e. record {
      journal = e.journal;
      routers = e.routers.entries;
      coming = e.coming;
      most_ticks = e.most_ticks;
    } };
}

impl<F: Write + Drop> Events<F> {
    ghost use Rattle.std.specs.Prelude.{◌≡◌, IfNone, IfSome, None};
    ghost use Rattle.ospf_base.specs.declared.ids.RouterId.{RouterId};
    ghost use Rattle.ospf_sim.specs.Followed.{followed_of, not_followed, nothing_coming};

    /// Nothing has happened yet.
    pub fn new(alloc: Global, journal: Option<Journal<F>>) -> Events<F>
        ensures journal { result.journal ≡ journal }
        ensures routers { (q : RouterId) → followed_of result q ≡ not_followed }
        ensures coming { result.coming ≡ nothing_coming }
        ensures most_ticks { result.most_ticks ≡ 0 }
    {
        Events {
            alloc,
            journal,
            routers: BTreeMap::new(alloc),
            coming: Coming {
                dropped: None,
                issued: 0,
            },
            most_ticks: 0,
        }
    }

    /// Why the journal is incomplete, if it is (`Journal::failure`).
    pub fn failure(&self) -> Option<Failure>
        ensures some { IfSome self.now.journal (λ journal. result ≡ journal.failure) }
        ensures none { IfNone self.now.journal (result ≡ None) }
    {
        match &self.journal {
            Some(journal) => journal.failure(),
            None => None,
        }
    }
}

impl<F: Write + Drop> EventWatch for Events<F> {
    ghost use Rattle.ospf_sim.specs.Followed.{FollowsEvent, LooksAhead};

    ghost comes_gives = { λ w event old new. LooksAhead w event old new };

    ghost came_gives = { λ w event answer old new. FollowsEvent w event answer old new };

    fn comes(&mut self, world: &World, event: &WorldEvent) {
        if self.journal.is_some() {
            self.coming = known_before(world, event);
        }
    }

    fn came(&mut self, world: &World, event: &WorldEvent, answer: &Result<(), WorldFault>) {
        let Some(journal) = &mut self.journal else {
            return;
        };
        let (alloc, router) = (self.alloc, event.router());
        let changes = follow(&mut self.routers, world, event, answer, self.coming, alloc);
        self.most_ticks = self.most_ticks.max(ticks_of(&self.routers, router));
        journal.write(alloc, self.most_ticks, router, changes);
    }
}

// What was known before an event: why a delivery will be dropped, and how many LSAs were issued.
#[derive(Clone, Copy, Debug, PartialEq, Eq)]
pub(crate) struct Coming {
    pub(crate) dropped: Option<DroppedAt>,
    pub(crate) issued: usize,
}

// The state stored for a router.
#[derive(Drop)]
struct Followed {
    seen: Seen,
    ticks: u64,
}

impl Model for Followed {
    ghost use Rattle.ospf_sim.specs.Followed.{FollowedRouter};

    ghost Value = { FollowedRouter };

    ghost view = { λ f. record { seen = f.seen; ticks = f.ticks } };
}

impl Followed {
    // No event has named it yet.
    fn nothing(alloc: Global) -> Followed
        ensures { result ≡ not_followed }
    {
        Followed {
            seen: Seen::nothing(alloc),
            ticks: 0,
        }
    }

    // Returns what changed of the router by an event there, given what was known before it.
    fn follow(
        &mut self,
        world: &World,
        event: &WorldEvent,
        answer: &Result<(), WorldFault>,
        coming: Coming,
        alloc: Global,
    ) -> Result<Vec<RouterChange>, AllocError>
        ensures changes { IfOk result (λ changes. AreChanges self.old.seen
            (seen_in world.now (router_in event.now))
            (report_of world.now (router_in event.now) answer.now coming) changes.items) }
        ensures seen { OnOk result (self.new.seen ≡ seen_in world.now (router_in event.now)) }
        ensures ticks { self.new.ticks ≡ ticks_then event.now answer.now self.old.ticks }
    {
        self.ticks = ticks_then(event, answer, self.ticks);
        let reported = report_of(world, answer, coming, alloc)?;
        go_to(&mut self.seen, world, event.router(), reported, alloc)
    }
}

// Returns what changed of the router that an event names.
fn follow(
    routers: &mut BTreeMap<RouterId, Followed>,
    world: &World,
    event: &WorldEvent,
    answer: &Result<(), WorldFault>,
    coming: Coming,
    alloc: Global,
) -> Result<Vec<RouterChange>, AllocError>
    ensures changes { IfOk result (λ changes. AreChanges
        (followed_in routers.old.entries (router_in event.now)).seen
        (seen_in world.now (router_in event.now))
        (report_of world.now (router_in event.now) answer.now coming) changes.items) }
    ensures seen { OnOk result ((followed_in routers.new.entries (router_in event.now)).seen
        ≡ seen_in world.now (router_in event.now)) }
    ensures ticks { OnOk result ((followed_in routers.new.entries (router_in event.now)).ticks
        ≡ ticks_then event.now answer.now
        (followed_in routers.old.entries (router_in event.now)).ticks) }
    ensures others { (q : RouterId) → q ≢ router_in event.now →
        followed_in routers.new.entries q ≡ followed_in routers.old.entries q }
{
    let router = event.router();
    let mut followed = take(routers, router, alloc);
    let changes = followed.follow(world, event, answer, coming, alloc);
    put(routers, router, followed)?;
    changes
}

// Takes the stored state of a router out of the map.
fn take(routers: &mut BTreeMap<RouterId, Followed>, router: RouterId, alloc: Global) -> Followed
    ensures taken { result ≡ followed_in routers.old.entries router }
    ensures others { (q : RouterId) → q ≢ router →
        followed_in routers.new.entries q ≡ followed_in routers.old.entries q }
{
    match routers.remove(&router) {
        Some(followed) => followed,
        None => Followed::nothing(alloc),
    }
}

// Puts the stored state of a router into the map.
fn put(
    routers: &mut BTreeMap<RouterId, Followed>,
    router: RouterId,
    followed: Followed,
) -> Result<(), AllocError>
    ensures kept { OnOk result (followed_in routers.new.entries router ≡ followed) }
    ensures others { (q : RouterId) → q ≢ router →
        followed_in routers.new.entries q ≡ followed_in routers.old.entries q }
{
    match routers.insert(router, followed) {
        Ok(_) => Ok(()),
        Err(_) => Err(AllocError),
    }
}

// How many ticks a router has taken.
fn ticks_of(routers: &BTreeMap<RouterId, Followed>, router: RouterId) -> u64
    ensures { result ≡ (followed_in routers.now.entries router).ticks }
{
    match routers.get(&router) {
        Some(followed) => followed.ticks,
        None => 0,
    }
}

// Returns what changed of a router in a world since it was last seen, by an event that reported
// this. The new state is stored as seen.
fn go_to(
    seen: &mut Seen,
    world: &World,
    router: RouterId,
    reported: Reported,
    alloc: Global,
) -> Result<Vec<RouterChange>, AllocError>
    ensures changes { IfOk result (λ changes. AreChanges seen.old (seen_in world.now router)
        (report_seen world.now router reported) changes.items) }
    ensures seen { OnOk result (seen.new ≡ seen_in world.now router) }
{
    match world.router(router) {
        Ok(router) => seen.follow(router, reported, alloc),
        Err(_) => seen.end(alloc),
    }
}

// How many ticks a router has taken after an event, given the count before it.
fn ticks_then(event: &WorldEvent, answer: &Result<(), WorldFault>, ticks: u64) -> u64
    ensures { result ≡ ticks_then event.now answer.now ticks }
{
    match (event, answer) {
        (WorldEvent::Tick { .. }, Ok(())) => ticks.saturating_add(1),
        _ => ticks,
    }
}

// What an event reported, given what was known before it: nothing if it was refused.
fn report_of(
    world: &World,
    answer: &Result<(), WorldFault>,
    coming: Coming,
    alloc: Global,
) -> Result<Reported, AllocError>
    ensures { IfOk result (λ reported. reported ≡ report_taken world.now answer.now coming) }
{
    match answer {
        Ok(()) => Ok(Reported {
            dropped: coming.dropped,
            issued: instances_of(since(world.issued(), coming.issued), alloc)?,
        }),
        Err(_) => Ok(Reported::nothing(alloc)),
    }
}

// The LSAs that were issued after the first `first` ones.
fn since(issued: &[Issued], first: usize) -> &[Issued]
    ensures { result.now ≡ drop first issued.now }
{
    match issued.get(first..) {
        Some(rest) => rest,
        None => &[],
    }
}

// The instances of LSAs that were issued.
fn instances_of(issued: &[Issued], alloc: Global) -> Result<Vec<Instance>, AllocError>
    ensures { IfOk result (λ instances. instances.items ≡ map issued_instance issued.now) }
{
    let mut instances = Vec::with_capacity(alloc, issued.len())?;
    for one in issued {
        instances.push(one.lsa.view().instance())?;
    }
    Ok(instances)
}

// What is known before an event.
fn known_before(world: &World, event: &WorldEvent) -> Coming
    ensures { result ≡ known_before world.now event.now }
{
    Coming {
        dropped: drop_coming(world, event),
        issued: world.issued().len(),
    }
}

// Why a delivery will be dropped, if it will.
fn drop_coming(world: &World, event: &WorldEvent) -> Option<DroppedAt>
    ensures { result ≡ drop_coming world.now event.now }
{
    match event {
        WorldEvent::Deliver {
            datagram,
            router,
            link,
        } => delivery_drop(world, *datagram, *router, *link),
        _ => None,
    }
}

// Why a router will drop a datagram that arrives on a link, if it will.
fn delivery_drop(world: &World, datagram: usize, router: RouterId, link: usize) -> Option<DroppedAt>
    ensures { result ≡ drop_coming world.now (Deliver datagram router link) }
{
    let datagram = world.datagrams().get(datagram)?;
    let cause = cause_of(world, router, link, datagram)?;
    Some(DroppedAt {
        link,
        source: datagram.sent.source,
        cause,
    })
}

// The reason, looked up in the world.
fn cause_of(
    world: &World,
    router: RouterId,
    link: usize,
    datagram: &ospf_world::Datagram,
) -> Option<Dropped>
    ensures { result ≡ cause_of (delivery link datagram.now)
        (option_map (λ x. x.state) (router_at (world_of world.now) router)) }
{
    let Ok(router) = world.router(router) else {
        return None;
    };
    cause_in(router, link, &datagram.sent)
}

// The reason, for this router.
fn cause_in(router: &Router, link: usize, sent: &Sent) -> Option<Dropped>
    ensures { result ≡ cause_of (Datagram link sent.now.source sent.now.destination
        sent.now.bytes) router.now.area }
{
    dropped_of(router, link, sent.source, sent.destination, &sent.bytes)
}
