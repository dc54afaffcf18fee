//! Walks along next hops, from router to router.

ghost use Rattle.std.specs.Prelude.{◌≡◌, ◌≢◌, ◌<◌, ◌%◌, ℕ, None, Some, IfOk, drop, is_some, length, slice_get};
ghost use Rattle.ospf_graph.specs.EdgeLists.Listed.{advertisements_of};
ghost use Rattle.ospf_graph.specs.Walk.{HasLinkFor, IsNext};
ghost use Rattle.ospf_graph.specs.declared.hop.NextHop.TheVariants as hops;
ghost use Rattle.ospf_world.specs.Sound.{NoCollision};
ghost use Rattle.ospf_world.specs.Walks.{AllListedAgree, AllReachedAgree, WorldWalk, choice_of};
ghost use Rattle.ospf_world.specs.World.{Running, member, router_at};
ghost use Rattle.ospf_world.specs.declared.walk.WalkEnd.TheVariants as ends;
ghost use Rattle.ospf_router.specs.Routers.{listing_of};
ghost use Rattle.ospf_world.specs.Legs.{IsLeg, LegsOver, Walks};
ghost use Rattle.ospf_world.specs.Worlds.{world_of};

use crate::laws::headline;
use crate::world::World;
use ospf_base::event::WorldFault;
use ospf_base::{Addr, RouterId};
use ospf_graph::edges::link_cost;
use ospf_graph::{NextHop, Route};
use ospf_router::Router;
use std::alloc::{AllocError, Global};

/// A walk along next hops: the routers that it met, from the first, what it paid, and how it ended.
#[derive(Debug, Drop)]
pub struct Walk {
    pub routers: Vec<RouterId>,
    pub cost: u128,
    pub end: WalkEnd,
}

/// How a walk ends.
#[derive(Clone, Copy, Debug, PartialEq, Eq)]
pub enum WalkEnd {
    /// It has reached a network or a stub of the last router's own.
    Arrived,
    /// The last router has no route.
    NoRoute,
    /// The last router does not run.
    NotRunning,
    /// It has taken as many hops as the world has routers.
    Turns,
}

/// What a walk does at one router.
#[derive(Clone, Copy)]
pub(crate) enum Leg {
    /// It ends, at this cost.
    Ends { cost: u64, end: WalkEnd },
    /// It continues at the next router, over a link of this cost.
    Goes { next: RouterId, cost: u16 },
}

impl World {
    /// The walk to an address from a router: at each router it takes the hop at the choice modulo
    /// the number of hops of the best route, the first where choices are missing, and pays its
    /// link's cost; where the network is the router's own it pays the route's cost, and the walk
    /// has arrived. It may have as many hops as the world has routers. Nothing is changed, and only
    /// the list of routers takes memory.
    ///
    /// `NoRouter` where the world has no such router, `Memory` where memory runs out.
    pub fn walk(
        &self,
        from: RouterId,
        address: Addr,
        choices: &[u32],
        alloc: Global,
    ) -> Result<Walk, WorldFault>
        ensures walks { Walks (world_of self.now) from address.0 choices.now result }
        ensures never_turns { (x : Running) → NoCollision self.now.logs.issued →
            router_at (world_of self.now) from ≡ Some x → AllListedAgree (world_of self.now) x →
            IfOk result (λ walk. walk.end ≢ ends.Turns) }
        ensures never_turns_where_reached { (x : Running) → NoCollision self.now.logs.issued →
            router_at (world_of self.now) from ≡ Some x →
            AllReachedAgree (world_of self.now) from x →
            IfOk result (λ walk. walk.end ≢ ends.Turns) }
    {
        // For the proof.
        headline();
        self.reached();
        if !self.has_router(from) {
            return Err(WorldFault::NoRouter);
        }
        match self.walk_from(from, address, choices, alloc) {
            Ok(walk) => Ok(walk),
            Err(AllocError) => Err(WorldFault::Memory { stopped: false }),
        }
    }

    // Whether the world has a router, running or not.
    fn has_router(&self, router: RouterId) -> bool
        ensures { result ≡ is_some (member (world_of self.now) router) }
    {
        self.place(router).is_some()
    }

    // The walk, from a router of the world.
    fn walk_from(
        &self,
        from: RouterId,
        address: Addr,
        choices: &[u32],
        alloc: Global,
    ) -> Result<Walk, AllocError>
        ensures { IfOk result (λ walk. WorldWalk (world_of self.now) address.0 choices.now from
            walk.routers.items walk.cost walk.end) }
    {
        let mut routers = Vec::new(alloc);
        let mut cost: u128 = 0;
        let mut at = from;
        let count = self.slots().len();
        for i in 0..count {
            routers.push(at)?;
            match self.leg(at, address, choice_at(choices, i)) {
                Leg::Ends { cost: last, end } => {
                    return Ok(Walk {
                        routers,
                        cost: cost + last as u128,
                        end,
                    });
                }
                Leg::Goes { next, cost: link } => {
                    cost += link as u128;
                    at = next;
                }
            }
        }
        routers.push(at)?;
        Ok(Walk {
            routers,
            cost,
            end: WalkEnd::Turns,
        })
    }

    // What a walk does at a router.
    fn leg(&self, at: RouterId, address: Addr, choice: u32) -> Leg
        ensures { IsLeg (world_of self.now) address.0 choice at result }
    {
        // For the proof.
        headline();
        self.reached();
        let Ok(router) = self.router(at) else {
            return Leg::Ends {
                cost: 0,
                end: WalkEnd::NotRunning,
            };
        };
        let Some(route) = router.table().lookup(address) else {
            return Leg::Ends {
                cost: 0,
                end: WalkEnd::NoRoute,
            };
        };
        let hop = hop_in(route, choice);
        leg_over(router, at, &hop, route.cost)
    }
}

// The choice at a router: 0 where it is missing.
fn choice_at(choices: &[u32], place: usize) -> u32
    ensures { result ≡ choice_of (drop place choices.now) }
{
    if place < choices.len() {
        choices[place]
    } else {
        0
    }
}

// The hop of a route that a choice takes.
fn hop_in(route: &Route, choice: u32) -> NextHop
    requires { 0 < length route.now.hops }
    ensures { slice_get route.now.hops (choice % length route.now.hops) ≡ Some result }
{
    let hops = route.hops.as_slice();
    hops[choice as usize % hops.len()]
}

// What a hop does, at the cost of its route.
fn leg_over(router: &Router, at: RouterId, hop: &NextHop, cost: u64) -> Leg
    requires { hop.now ≢ hops.Attached →
        (metric : ℕ) × HasLinkFor (advertisements_of (listing_of router.now.area)) at hop.now
        metric }
    ensures { LegsOver (advertisements_of (listing_of router.now.area)) at hop.now cost result }
{
    match hop {
        NextHop::Attached => Leg::Ends {
            cost,
            end: WalkEnd::Arrived,
        },
        NextHop::PointToPoint { router: next, .. } => crossing(router, at, hop, *next),
        NextHop::Lan { router: next, .. } => crossing(router, at, hop, *next),
    }
}

// A leg over a hop's link to the next router.
fn crossing(router: &Router, at: RouterId, hop: &NextHop, next: RouterId) -> Leg
    requires next { IsNext hop.now next }
    requires linked { (metric : ℕ) × HasLinkFor (advertisements_of (listing_of router.now.area)) at
        hop.now metric }
    ensures { (paid : ℕ) → LegsOver (advertisements_of (listing_of router.now.area)) at hop.now paid
        result }
{
    let Some(listing) = router.kept_listing() else {
        unreachable!()
    };
    match link_cost(listing, at, hop) {
        Some(cost) => Leg::Goes { next, cost },
        None => unreachable!(),
    }
}
