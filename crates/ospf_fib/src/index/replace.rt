//! Changes that put routes in the places of others to the same prefixes. No
//! other route is looked at for them.

ghost use Rattle.std.specs.Prelude.{◌≡◌, ◌≤◌, ◌<◌, ◌^◌, ◌↔◌, All, AllPairs, IsTrue, length};
ghost use Rattle.ospf_graph.specs.Routes.{IsRouteBefore};
ghost use Rattle.ospf_fib.specs.PrefixIndex.Ranges.{AreStartsRising};
ghost use Rattle.ospf_fib.specs.PrefixIndex.Replaced.{AreAnsweredAnew, AreBefore, AreFew, AreRoutesBefore, Replaces};
ghost use Rattle.ospf_spf.specs.Changes.{edited, PutsHops};

use crate::index::counts::count_hops_put;
use crate::index::entries::Entry;
use crate::index::index::Index;
use crate::index::sets::HopSets;
use crate::index::sweep::end_address;
use ospf_base::Prefix;
use ospf_graph::Route;
use ospf_spf::{Change, RouteTable, is_same_prefix, prefix_order};
use std::alloc::Global;
use std::collections::VecDeque;
use std::mem;

// From one change for this many routes on, one pass over the table takes less time
// than a search for each change.
const ROUTES_FOR_A_CHANGE: usize = 8;

/// Whether to make changes in place: each puts a route in the place of one to the
/// same prefix, and they are few.
pub fn can_replace(routes: &[Route], changes: &[Change]) -> bool
    requires { AllPairs IsRouteBefore routes.now }
    ensures { IsTrue result
        ↔ (AreFew changes.now routes.now × All (Replaces routes.now) changes.now) }
{
    let few = routes.len() / ROUTES_FOR_A_CHANGE + ROUTES_FOR_A_CHANGE;
    changes.len() <= few && changes.iter().all(|change| is_replacing(routes, change))
}

/// Puts the routes of changes in the places of those to the same prefixes. It takes no memory.
pub fn put_routes(table: &mut RouteTable, alloc: Global, changes: Vec<Change>)
    requires replace { All (Replaces table.old) changes.items }
    requires have_hops { All PutsHops changes.items }
    ensures { table.new ≡ edited table.old changes.items }
{
    let mut routes = mem::replace(table, RouteTable::empty(alloc)).into_routes();
    let mut left = VecDeque::from_vec(changes);
    while let Some(change) = left.pop_front() {
        let Change::Put(route) = change else {
            unreachable!()
        };
        let place = routes_before(&routes, route.prefix);
        routes[place] = route;
    }
    *table = RouteTable::of_routes(routes);
}

impl Index {
    ghost use Rattle.std.specs.Prelude.{◌≡◌, ◌∷◌, [], All, IsTrue, length};
    ghost use Rattle.ospf_fib.specs.PrefixIndex.Indexes.{IsIndexOf};
    ghost use Rattle.ospf_fib.specs.PrefixIndex.Replaced.{AreSetsLonger, HasSetRoom, IsRoutePut, Replaces};
    ghost use Rattle.ospf_fib.specs.PrefixIndex.Sets.{AreSets};
    ghost use Rattle.ospf_spf.specs.Changes.{edited, PutsHops};
    ghost use Rattle.ospf_spf.specs.Table.{IsInOrder};

    /// Whether there is room for the sets of the routes that the changes put.
    pub fn has_set_room(&self, changes: &[Change]) -> bool
        ensures { IsTrue result → HasSetRoom changes.now self.now.sets }
    {
        let HopSets { hops, sets } = &self.sets;
        match count_hops_put(changes) {
            Some(put) => {
                changes.len() <= sets.capacity() - sets.len() && put <= hops.capacity() - hops.len()
            }
            None => false,
        }
    }

    /// Follows changes of the routes, each of which puts a route in the
    /// place of one to the same prefix.
    pub fn replace(&mut self, routes: &[Route], changes: &[Change])
        // The index is that of a table, and has room for the sets of hops.
        requires table { IsInOrder routes.now }
        requires index { IsIndexOf routes.now self.old }
        requires room { HasSetRoom changes.now self.old.sets }
        // Each change puts a route with a hop to a prefix that the table has.
        requires replace { All (Replaces routes.now) changes.now }
        requires have_hops { All PutsHops changes.now }
        ensures { IsIndexOf (edited routes.now changes.now) self.new }
    {
        for change in changes {
            let Change::Put(route) = change else {
                unreachable!()
            };
            self.put(route);
        }
    }

    // Puts a route in the place of the one to its prefix. There is an entry for each range.
    fn put(&mut self, route: &Route)
        requires rising { AreStartsRising self.old.starts.items }
        requires entries { length self.old.entries.items ≡ length self.old.starts.items }
        requires stand { AreSets self.old.sets }
        requires room { HasSetRoom (Change.Put route.now ∷ []) self.old.sets }
        // The route replaces the one to its prefix, and takes no room but that of its hops.
        ensures put { IsRoutePut self.old route.now self.new }
        ensures longer { AreSetsLonger self.old.sets route.now self.new.sets }
    {
        let entry = Entry {
            prefix: route.prefix,
            cost: route.cost,
            set: self.sets.sets.len(),
        };
        let from = ranges_before(&self.starts, route.prefix.address.0 as u64);
        let to = ranges_before(&self.starts, end_address(route.prefix));
        self.sets.push(route.hops.as_slice());
        answer_anew(&mut self.entries, from, to, entry);
    }
}

// Whether a change puts a route in the place of one to the same prefix.
fn is_replacing(routes: &[Route], change: &Change) -> bool
    requires { AllPairs IsRouteBefore routes.now }
    ensures { IsTrue result ↔ Replaces routes.now change.now }
{
    let Change::Put(route) = change else {
        return false;
    };
    match routes.get(routes_before(routes, route.prefix)) {
        Some(old) => is_same_prefix(old.prefix, route.prefix),
        None => false,
    }
}

// How many routes are before a prefix.
fn routes_before(routes: &[Route], prefix: Prefix) -> usize
    requires { AllPairs IsRouteBefore routes.now }
    ensures { AreRoutesBefore routes.now prefix result }
{
    let order = prefix_order(prefix);
    routes.partition_point(|r| prefix_order(r.prefix) < order)
}

// How many ranges begin before an address, as each of them begins at one.
fn ranges_before(starts: &[u32], address: u64) -> usize
    requires { AreStartsRising starts.now }
    ensures before { AreBefore starts.now address result }
    ensures addresses { All (λ start. start < 2 ^ 32) starts.now }
{
    starts.partition_point(|start| (*start as u64) < address)
}

// Has an entry answer those of these ranges that a route to its prefix answered.
fn answer_anew(entries: &mut Vec<Entry>, from: usize, to: usize, entry: Entry)
    requires { to ≤ length entries.old.items }
    ensures { AreAnsweredAnew entries.old.items entries.new.items from to entry }
{
    for range in from..to {
        let old = entries[range];
        if old.set > 0 && is_same_prefix(old.prefix, entry.prefix) {
            entries[range] = entry;
        }
    }
}
