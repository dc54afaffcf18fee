//! Pairs of numbers, for lookups.

ghost use Rattle.std.specs.Prelude.{◌≡◌, ◌<◌, ◌^◌, ◌↔◌, Contains, IsTrue, IsPermutation};
ghost use Rattle.ospf_graph.specs.Pairs.{pair_code};

use std::cell::Cell;
use std::marker::Model;

const SECOND_NUMBERS: u64 = 0x1_0000_0000;

/// Pairs of numbers, each by its place in the order of pairs.
///
/// A lookup first tries the place after that of the last lookup, since pairs
/// are mostly looked up in order.
#[derive(Drop)]
pub struct Pairs {
    list: Vec<u64>,
    next: Cell<usize>,
}

impl Model for Pairs {
    ghost use Rattle.std.specs.Prelude.{ℕ, List};
    ghost use Rattle.std.specs.List.Sorted.{IsNonDecreasing};

    ghost Value = { List ℕ };

    ghost view = { λ p. p.list.items };

    ghost invariant = { λ p. IsNonDecreasing p.list.items };
}

impl Pairs {
    /// These pairs.
    pub fn of(mut list: Vec<u64>) -> Pairs
        ensures { IsPermutation list.items result }
    {
        list.sort_unstable();
        Pairs {
            list,
            next: Cell::new(0),
        }
    }

    /// Whether a pair is there.
    pub fn has(&self, first: u32, second: u32) -> bool
        ensures value { IsTrue result ↔ Contains self.now (pair_code first second) }
        ensures fits { second < 2 ^ 32 }
    {
        let pair = pair_order(first, second);
        let next = self.next.get();
        if next < self.list.len() && self.list[next] == pair {
            self.next.set(next + 1);
            return true;
        }
        match self.list.binary_search(&pair) {
            Ok(place) => {
                self.next.set(place.saturating_add(1));
                true
            }
            Err(place) => {
                self.next.set(place);
                false
            }
        }
    }
}

/// The place of a pair in the order of pairs: by the first number, then by the second.
pub fn pair_order(first: u32, second: u32) -> u64
    ensures { result ≡ pair_code first second }
{
    first as u64 * SECOND_NUMBERS + second as u64
}
