//! Sets of hops, by number.

ghost use Rattle.std.specs.Prelude.{◌≡◌, ◌≤◌, ◌<◌, ◌+◌, ◌++◌, ◌∷◌, [], length, vec_len, vec_capacity};
ghost use Rattle.ospf_fib.specs.PrefixIndex.Sets.{AreSets, hops_of, lists_of};

use ospf_graph::NextHop;
use std::alloc::Global;

/// Where the hops of a set are in the list of the hops of all sets.
#[derive(Clone, Copy)]
pub(crate) struct HopSet {
    pub first: usize,
    pub count: usize,
}

/// Sets of hops by their numbers. That of number 0 has no hop.
#[derive(Drop)]
pub(crate) struct HopSets {
    pub hops: Vec<NextHop>,
    pub sets: Vec<HopSet>,
}

impl HopSets {
    ghost use Rattle.std.specs.Prelude.{◌≡◌, ◌≤◌, ◌<◌, ◌+◌, ◌++◌, ◌∷◌, length, vec_len, vec_capacity};
    ghost use Rattle.ospf_fib.specs.PrefixIndex.Sets.{AreSets, hops_of, lists_of};

    /// The hops of a set.
    pub fn get(&self, set: usize) -> &[NextHop]
        requires stand { AreSets self.now }
        requires within { set < vec_len self.now.sets }
        ensures { result.now ≡ hops_of self.now set }
    {
        let HopSet { first, count } = self.sets[set];
        &self.hops[first..first + count]
    }

    /// Puts a set at the end, for which there is room.
    pub fn push(&mut self, hops: &[NextHop])
        // The sets lie within the list of hops, and have room for one more.
        requires stand { AreSets self.old }
        requires room_sets { vec_len self.old.sets < vec_capacity self.old.sets }
        requires room_hops { vec_len self.old.hops + length hops.now ≤ vec_capacity self.old.hops }
        // They still do, and this one comes after all others.
        ensures stand { AreSets self.new }
        ensures lists { lists_of self.new ≡ lists_of self.old ++ hops.now ∷ [] }
        // How long the lists are then, and that no room is lost.
        ensures sets { vec_len self.new.sets ≡ vec_len self.old.sets + 1 }
        ensures hops { vec_len self.new.hops ≡ vec_len self.old.hops + length hops.now }
        ensures sets_room { vec_capacity self.old.sets ≤ vec_capacity self.new.sets }
        ensures hops_room { vec_capacity self.old.hops ≤ vec_capacity self.new.hops }
    {
        let set = HopSet {
            first: self.hops.len(),
            count: hops.len(),
        };
        match self.hops.extend_from_slice(hops) {
            Ok(()) => {}
            Err(_) => unreachable!(),
        }
        match self.sets.push(set) {
            Ok(()) => {}
            Err(_) => unreachable!(),
        }
    }
}
