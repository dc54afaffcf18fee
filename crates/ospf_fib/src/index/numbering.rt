//! The numbers of routes' sets of hops: routes with the same hops have the same number.

ghost use Rattle.std.specs.Prelude.{◌≡◌, ◌≤◌, ◌<◌, ◌+◌, ◌↔◌, [], IfOk, IfSome, IsTrue, length, vec_len, vec_capacity};
ghost use Rattle.ospf_fib.specs.PrefixIndex.Room.{hops_in};
ghost use Rattle.ospf_fib.specs.PrefixIndex.Sets.{AreChained, AreNumbersOf, IsBegunFor, IsGrown, hops_of};

use crate::index::sets::{HopSet, HopSets};
use ospf_graph::{NextHop, Route};
use std::alloc::{AllocError, Global};

// What numbers are multiplied by where they are mixed: 2^32 over the golden ratio.
const MIXER: u32 = 0x9e37_79b1;

/// The sets that were found so far, and what finds them again: chains of
/// those whose hops mix to the same.
#[derive(Drop)]
pub(crate) struct SetNumbers {
    pub sets: HopSets,
    // One more than the number of the last set of each chain; 0 where it has none.
    pub chains: Vec<usize>,
    // One more than the number of the set before each in its chain; 0 where there is none.
    pub links: Vec<usize>,
}

impl SetNumbers {
    ghost use Rattle.std.specs.Prelude.{◌≡◌, ◌≤◌, ◌<◌, ◌+◌, IfOk, IfSome, length, vec_len, vec_capacity};
    ghost use Rattle.ospf_fib.specs.PrefixIndex.Sets.{AreChained, IsBegunFor, IsGrown, hops_of};

    /// All the memory for the sets of this many routes, which have this many hops in all.
    ///
    /// `AllocError` where memory runs out.
    pub fn with_room(alloc: Global, routes: usize, hops: usize) -> Result<SetNumbers, AllocError>
        ensures { IfOk result (IsBegunFor routes hops) }
    {
        let most = routes.checked_add(1).ok_or(AllocError)?;
        let hops = Vec::with_capacity(alloc, hops)?;
        let mut sets = Vec::with_capacity(alloc, most)?;
        let mut links = Vec::with_capacity(alloc, most)?;
        let chains = vec![in alloc; 0; most]?;
        sets.push(HopSet { first: 0, count: 0 })?;
        links.push(0)?;
        Ok(SetNumbers {
            sets: HopSets { hops, sets },
            chains,
            links,
        })
    }

    // The set that has these hops, if it is in the chain.
    fn find(&self, chain: usize, hops: &[NextHop]) -> Option<usize>
        requires chained { AreChained self.now }
        requires within { chain < length self.now.chains.items }
        ensures { IfSome result (λ set. (set < vec_len self.now.sets.sets)
            × (hops_of self.now.sets set ≡ hops.now)) }
    {
        let mut link = self.chains[chain];
        while link > 0 {
            if are_same(self.sets.get(link - 1), hops) {
                return Some(link - 1);
            }
            link = self.links[link - 1];
        }
        None
    }

    // The number of the set that has these hops. They may be those that came last.
    fn number(&mut self, last: usize, hops: &[NextHop]) -> usize
        // The sets are chained, and one came last.
        requires chained { AreChained self.old }
        requires within { last < vec_len self.old.sets.sets }
        // There is room for one more.
        requires room_sets { vec_len self.old.sets.sets < vec_capacity self.old.sets.sets }
        requires room_hops { vec_len self.old.sets.hops + length hops.now
            ≤ vec_capacity self.old.sets.hops }
        requires room_links { vec_len self.old.links < vec_capacity self.old.links }
        // They stay chained, the number is of a set with just these hops,
        ensures chained { AreChained self.new }
        ensures within { result < vec_len self.new.sets.sets }
        ensures exact { hops_of self.new.sets result ≡ hops.now }
        // and no other set is new or changes.
        ensures grown { IsGrown (length hops.now) self.old self.new }
    {
        if are_same(self.sets.get(last), hops) {
            return last;
        }
        let chain = mixed(hops) as usize % self.chains.len();
        if let Some(set) = self.find(chain, hops) {
            return set;
        }
        let set = self.sets.sets.len();
        self.sets.push(hops);
        match self.links.push(self.chains[chain]) {
            Ok(()) => {}
            Err(_) => unreachable!(),
        }
        self.chains[chain] = set + 1;
        set
    }
}

/// The sets of the routes' hops, and the number of that of each route. There is room for them.
pub(crate) fn numbers_of(
    numbering: SetNumbers,
    room: Vec<usize>,
    routes: &[Route],
) -> (HopSets, Vec<usize>)
    requires begun { IsBegunFor (length routes.now) (hops_in routes.now) numbering }
    requires room { (room.items ≡ []) × (length routes.now ≤ vec_capacity room) }
    ensures { AreNumbersOf routes.now result.0 result.1.items }
{
    let mut numbering = numbering;
    let mut numbers = room;
    let mut last = 0;
    for route in routes {
        last = numbering.number(last, route.hops.as_slice());
        match numbers.push(last) {
            Ok(()) => {}
            Err(_) => unreachable!(),
        }
    }
    let SetNumbers {
        sets,
        chains: _,
        links: _,
    } = numbering;
    (sets, numbers)
}

// Whether hops are the same.
fn are_same(a: &[NextHop], b: &[NextHop]) -> bool
    ensures { IsTrue result ↔ (a.now ≡ b.now) }
{
    a == b
}

// The hops mixed to one number.
fn mixed(hops: &[NextHop]) -> u32 {
    let mut sum: u32 = 0;
    for hop in hops {
        sum = (sum ^ word_of(*hop)).wrapping_mul(MIXER);
    }
    sum
}

// A hop as one number.
fn word_of(hop: NextHop) -> u32 {
    match hop {
        NextHop::Attached => 1,
        NextHop::PointToPoint { local, router } => local.0.wrapping_mul(MIXER) ^ router.0,
        NextHop::Lan {
            local,
            router,
            address,
        } => local.0.wrapping_mul(MIXER) ^ router.0.wrapping_add(address.0),
    }
}
