//! What lookups answer for each range.

ghost use Rattle.std.specs.Prelude.{◌≡◌, ◌≤◌, [], length, vec_capacity};
ghost use Rattle.ospf_fib.specs.PrefixIndex.Entries.{AreEntries, IsEntryAt};

use ospf_base::{Addr, Prefix};
use ospf_graph::{NextHop, Route};
use std::alloc::Global;

/// What a range's route says: its prefix, its cost, and the number of its set of hops. Where no
/// route answers for the range, that is the set of no hop.
#[derive(Clone, Copy)]
pub(crate) struct Entry {
    pub prefix: Prefix,
    pub cost: u64,
    pub set: usize,
}

/// The route that a lookup finds, with its hops where the table has them.
#[derive(Clone, Copy, Debug)]
pub struct FoundRoute<'a> {
    pub prefix: Prefix,
    pub cost: u64,
    /// Each once, in their order.
    pub hops: &'a [NextHop],
}

/// What the routes at these places say, whose sets have these numbers. There is room for it.
pub(crate) fn entries_of(
    room: Vec<Entry>,
    routes: &[Route],
    numbers: &[usize],
    places: &[usize],
) -> Vec<Entry>
    requires numbered { length numbers.now ≡ length routes.now }
    requires room { (room.items ≡ []) × (length places.now ≤ vec_capacity room) }
    ensures { AreEntries routes.now numbers.now places.now result.items }
{
    let mut entries = room;
    for place in places {
        match entries.push(entry_of(routes, numbers, *place)) {
            Ok(()) => {}
            Err(_) => unreachable!(),
        }
    }
    entries
}

// What the route at this place says.
fn entry_of(routes: &[Route], numbers: &[usize], place: usize) -> Entry
    requires { length numbers.now ≡ length routes.now }
    ensures { IsEntryAt routes.now numbers.now place result }
{
    match routes.get(place) {
        Some(route) => Entry {
            prefix: route.prefix,
            cost: route.cost,
            set: numbers[place],
        },
        None => Entry {
            prefix: Prefix {
                address: Addr(0),
                length: 0,
            },
            cost: 0,
            set: 0,
        },
    }
}
