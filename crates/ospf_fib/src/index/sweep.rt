//! The sweep over the routes of a table, which finds the ranges of
//! addresses that one route answers for.

ghost use Rattle.std.specs.Prelude.{◌≡◌, ◌≤◌, ◌<◌, ◌+◌, ◌-◌, ◌*◌, ℕ, AllPairs, IfOk, IfSome, MatchOption, get_or, length, vec_len, vec_capacity};
ghost use Rattle.ospf_graph.specs.Routes.{IsRouteBefore};
ghost use Rattle.ospf_fib.specs.PrefixIndex.Ranges.{HasRanges, end_of};
ghost use Rattle.ospf_fib.specs.PrefixIndex.Room.{HasRoom, IsRoomFor, IsSweptTo};
ghost use Rattle.ospf_fib.specs.PrefixIndex.Sweep.{IsRangeBegun, blocks_of, top};

use crate::index::ranges::Ranges;
use ospf_base::Prefix;
use ospf_graph::Route;
use std::alloc::{AllocError, Global};

/// How far a sweep has come: the ranges that have begun, and the places of
/// the routes that have not ended.
#[derive(Drop)]
pub(crate) struct Sweep {
    pub ranges: Ranges,
    pub opened: Vec<usize>,
}

impl Sweep {
    ghost use Rattle.std.specs.Prelude.{◌≡◌, ◌≤◌, ◌<◌, ◌+◌, ◌-◌, ℕ, AllPairs, IfOk, MatchOption, get_or, length, vec_len, vec_capacity};
    ghost use Rattle.ospf_graph.specs.Routes.{IsRouteBefore};
    ghost use Rattle.ospf_fib.specs.PrefixIndex.Room.{HasRoom, IsRoomFor, IsSweptTo};
    ghost use Rattle.ospf_fib.specs.PrefixIndex.Sweep.{IsRangeBegun, blocks_of, top};

    /// All the memory for a sweep over this many routes.
    ///
    /// `AllocError` where memory runs out.
    pub fn with_room(alloc: Global, count: usize) -> Result<Sweep, AllocError>
        ensures { IfOk result (IsRoomFor count) }
    {
        let most = most_ranges(count).ok_or(AllocError)?;
        let starts = Vec::with_capacity(alloc, most)?;
        let places = Vec::with_capacity(alloc, most)?;
        let opened = Vec::with_capacity(alloc, count)?;
        Ok(Sweep {
            ranges: Ranges { starts, places },
            opened,
        })
    }

    // Begins a range. The last one is left out where it has no address.
    fn begin_range(&mut self, start: u32, place: usize)
        // There is room for one more range.
        requires starts { vec_len self.old.ranges.starts < vec_capacity self.old.ranges.starts }
        requires places { vec_len self.old.ranges.places < vec_capacity self.old.ranges.places }
        // It comes after the last one, or in its place, and no route opens or ends by it.
        ensures begun { IsRangeBegun self.old.ranges.starts.items self.old.ranges.places.items start
            place self.new.ranges.starts.items self.new.ranges.places.items }
        ensures opened { self.new.opened ≡ self.old.opened }
        // No room is lost, and the lists are longer by one at most.
        ensures starts_room { vec_capacity self.old.ranges.starts
            ≤ vec_capacity self.new.ranges.starts }
        ensures places_room { vec_capacity self.old.ranges.places
            ≤ vec_capacity self.new.ranges.places }
        ensures starts_len { vec_len self.new.ranges.starts ≤ vec_len self.old.ranges.starts + 1 }
        ensures places_len { vec_len self.new.ranges.places ≤ vec_len self.old.ranges.places + 1 }
    {
        if self.ranges.starts.last().copied() == Some(start) {
            let _nobodys = self.ranges.places.pop();
        } else {
            match self.ranges.starts.push(start) {
                Ok(()) => {}
                Err(_) => unreachable!(),
            }
        }
        match self.ranges.places.push(place) {
            Ok(()) => {}
            Err(_) => unreachable!(),
        }
    }

    // The place of the route that was opened last; another where none is open.
    fn innermost(&self, otherwise: usize) -> usize
        ensures { result ≡ top otherwise self.now.opened.items }
    {
        self.opened.last().copied().unwrap_or(otherwise)
    }

    // The end of the route that was opened last, unless it is after the limit.
    fn ended(&self, routes: &[Route], begun: usize, limit: u32) -> Option<u32>
        requires { IsSweptTo routes.now begun self.now }
        ensures { MatchOption result
            (0 < length self.now.opened.items → limit
            < (blocks_of routes.now).end (get_or self.now.opened.items (length self.now.opened.items
            - 1) 0))
            (λ end. (0 < length self.now.opened.items) × (end ≤ limit)
            × (end ≡ (blocks_of routes.now).end (get_or self.now.opened.items
            (length self.now.opened.items - 1) 0))) }
    {
        let count = self.opened.len();
        if count == 0 {
            return None;
        }
        let place = self.opened[count - 1];
        let end = end_address(routes[place].prefix);
        if end <= limit as u64 {
            Some(end as u32)
        } else {
            None
        }
    }

    // Ends the routes that end at the limit or before it. The next route does not begin before it.
    fn close_to(&mut self, routes: &[Route], begun: usize, limit: u32)
        // This many routes have begun, and no other one begins before the limit.
        requires order { AllPairs IsRouteBefore routes.now }
        requires swept { IsSweptTo routes.now begun self.old }
        requires ahead { (k : ℕ) → begun ≤ k → k < length routes.now →
            limit ≤ (blocks_of routes.now).first k }
        // There is room for what is left.
        requires room { HasRoom (2 * length routes.now + 1) self.old (length routes.now - begun) }
        // The same routes have begun, all that is open goes on after the limit, and room is left.
        ensures swept { IsSweptTo routes.now begun self.new }
        ensures open { 0 < length self.new.opened.items →
            limit < (blocks_of routes.now).end
            (get_or self.new.opened.items (length self.new.opened.items - 1) 0) }
        ensures room { HasRoom (2 * length routes.now + 1) self.new (length routes.now - begun) }
    {
        while let Some(end) = self.ended(routes, begun, limit) {
            let _place = self.opened.pop();
            let place = self.innermost(routes.len());
            self.begin_range(end, place);
        }
    }

    // Opens the route at this place, which is the next.
    fn open(&mut self, routes: &[Route], place: usize)
        // The routes before this one have begun, with room for what is left.
        requires order { AllPairs IsRouteBefore routes.now }
        requires within { place < length routes.now }
        requires swept { IsSweptTo routes.now place self.old }
        requires room { HasRoom (2 * length routes.now + 1) self.old (length routes.now - place) }
        // Now this one has begun too.
        ensures swept { IsSweptTo routes.now (place + 1) self.new }
        ensures room { HasRoom (2 * length routes.now + 1) self.new
            (length routes.now - (place + 1)) }
    {
        let start = routes[place].prefix.address.0;
        self.close_to(routes, place, start);
        match self.opened.push(place) {
            Ok(()) => {}
            Err(_) => unreachable!(),
        }
        self.begin_range(start, place);
    }
}

/// How many ranges this many routes have at most; `None` where the number overflows.
pub(crate) fn most_ranges(count: usize) -> Option<usize>
    ensures { IfSome result (λ most. most ≡ 2 * count + 1) }
{
    count.checked_mul(2)?.checked_add(1)
}

/// The first address after a prefix.
pub(crate) fn end_address(prefix: Prefix) -> u64
    ensures { result ≡ end_of prefix }
{
    prefix.address.0 as u64 + (1u64 << (32 - prefix.length))
}

/// The ranges of the routes of a table. There is room for them.
pub(crate) fn ranges_of(sweep: Sweep, routes: &[Route]) -> Ranges
    requires order { AllPairs IsRouteBefore routes.now }
    requires room { IsRoomFor (length routes.now) sweep }
    ensures exact { HasRanges routes.now result.starts.items result.places.items }
    ensures few { length result.places.items ≤ 2 * length routes.now + 1 }
{
    let mut sweep = sweep;
    sweep.begin_range(0, routes.len());
    for place in 0..routes.len() {
        sweep.open(routes, place);
    }
    sweep.close_to(routes, routes.len(), u32::MAX);
    let Sweep { ranges, opened: _ } = sweep;
    ranges
}
