//! The index of a table: its ranges, and a directory of them by the first 16 bits of an address.

ghost use Rattle.std.specs.Prelude.{◌≡◌, ◌≤◌, ◌<◌, ◌+◌, ◌*◌, ◌^◌, ◌⊎◌, [], ℕ, AllPairs, IfOk, get_or, length, vec_capacity};
ghost use Rattle.ospf_graph.specs.Routes.{IsRouteBefore};
ghost use Rattle.ospf_fib.specs.PrefixIndex.Entries.{IsEntryFor};
ghost use Rattle.ospf_fib.specs.PrefixIndex.Indexes.{IsIndexOf};
ghost use Rattle.ospf_fib.specs.PrefixIndex.Ranges.{IsDirectory, IsInRange, AreStartsRising, block_start};
ghost use Rattle.ospf_fib.specs.PrefixIndex.Room.{HasIndexRoom, hops_in};

use crate::index::entries::{Entry, entries_of};
use crate::index::numbering::{SetNumbers, numbers_of};
use crate::index::ranges::Ranges;
use crate::index::sets::HopSets;
use crate::index::sweep::{Sweep, most_ranges, ranges_of};
use ospf_graph::Route;
use std::alloc::{AllocError, Global};

// How many blocks of addresses a directory has.
const BLOCKS: usize = 65536;

// How many addresses a block has.
const BLOCK_SIZE: u64 = 65536;

// The bits of an address after those that name its block.
const BLOCK_BITS: u32 = 16;

// How many addresses there are, and how many bits identify one.
const ADDRESSES: u64 = 1 << 32;

const ADDRESS_BITS: u32 = 32;

/// Where the ranges of a table's routes begin, what each of them answers, with the
/// sets of hops, and for each block of addresses, and for what follows the last
/// block, the range in which it begins.
#[derive(Drop)]
pub(crate) struct Index {
    pub starts: Vec<u32>,
    pub entries: Vec<Entry>,
    pub sets: HopSets,
    pub directory: Vec<u32>,
}

impl Index {
    ghost use Rattle.std.specs.Prelude.{◌≡◌, AllPairs, length};
    ghost use Rattle.ospf_graph.specs.Routes.{IsRouteBefore};
    ghost use Rattle.ospf_fib.specs.PrefixIndex.Entries.{IsEntryFor};
    ghost use Rattle.ospf_fib.specs.PrefixIndex.Indexes.{IsIndexOf};
    ghost use Rattle.ospf_fib.specs.PrefixIndex.Room.{HasIndexRoom, hops_in};

    /// The index of the routes of a table. It takes no memory but what is given.
    pub fn of(routes: &[Route], room: IndexRoom) -> Index
        requires order { AllPairs IsRouteBefore routes.now }
        requires room { HasIndexRoom (length routes.now) (hops_in routes.now) room }
        ensures { IsIndexOf routes.now result }
    {
        let IndexRoom {
            sweep,
            numbering,
            numbers,
            entries,
            directory,
        } = room;
        let Ranges { starts, places } = ranges_of(sweep, routes);
        let (sets, numbers) = numbers_of(numbering, numbers, routes);
        let entries = entries_of(entries, routes, &numbers, &places);
        let directory = directory_of(&starts, directory);
        Index {
            starts,
            entries,
            sets,
            directory,
        }
    }

    /// What the route of longest prefix that holds an address says; the set of no
    /// hop where no route's prefix does.
    pub fn entry(&self, routes: &[Route], address: u32) -> Entry
        requires { IsIndexOf routes.now self.now }
        ensures { IsEntryFor routes.now self.now.sets address result }
    {
        let block = (address >> BLOCK_BITS) as usize;
        let from = self.directory[block] as usize;
        let last = self.directory[block + 1] as usize;
        let range = range_near(&self.starts, from, last, address);
        self.entries[range]
    }
}

/// All the memory that an index takes.
#[derive(Drop)]
pub(crate) struct IndexRoom {
    pub sweep: Sweep,
    pub numbering: SetNumbers,
    pub numbers: Vec<usize>,
    pub entries: Vec<Entry>,
    pub directory: Vec<u32>,
}

impl IndexRoom {
    ghost use Rattle.std.specs.Prelude.{IfOk};
    ghost use Rattle.ospf_fib.specs.PrefixIndex.Room.{HasIndexRoom};

    /// The memory for the index of a table of this many routes, which have this many hops in all.
    ///
    /// `AllocError` where memory runs out.
    pub fn new(alloc: Global, count: usize, hops: usize) -> Result<IndexRoom, AllocError>
        ensures { IfOk result (HasIndexRoom count hops) }
    {
        let sweep = Sweep::with_room(alloc, count)?;
        let numbering = SetNumbers::with_room(alloc, count, hops)?;
        let numbers = Vec::with_capacity(alloc, count)?;
        let entries = Vec::with_capacity(alloc, most_ranges(count).ok_or(AllocError)?)?;
        let directory = Vec::with_capacity(alloc, BLOCKS + 1)?;
        Ok(IndexRoom {
            sweep,
            numbering,
            numbers,
            entries,
            directory,
        })
    }
}

// The directory of ranges.
fn directory_of(starts: &[u32], room: Vec<u32>) -> Vec<u32>
    requires first { (0 < length starts.now) × (get_or starts.now 0 0 ≡ 0) }
    requires in_order { AreStartsRising starts.now }
    requires room { (room.items ≡ []) × (65537 ≤ vec_capacity room) }
    ensures { IsDirectory starts.now result.items }
{
    let mut directory = room;
    for range in 0..starts.len() {
        let past = blocks_before(starts, range + 1);
        name_before(&mut directory, past, range as u32);
    }
    directory
}

// How many blocks begin before this range does; all, and what follows them,
// where it is after the last one.
fn blocks_before(starts: &[u32], range: usize) -> usize
    ensures few { result ≤ 65537 }
    ensures all { length starts.now ≤ range → result ≡ 65537 }
    ensures before { (block : ℕ) → block < result → range < length starts.now →
        block_start block < get_or starts.now range 0 }
    ensures behind { range < length starts.now → get_or starts.now range 0 ≤ block_start result }
{
    match starts.get(range) {
        Some(start) => (*start as u64 + (BLOCK_SIZE - 1) >> BLOCK_BITS) as usize,
        None => BLOCKS + 1,
    }
}

// Names this range for the blocks before this one that have none yet.
fn name_before(directory: &mut Vec<u32>, past: usize, range: u32)
    requires { past ≤ vec_capacity directory.old }
    // The directory has its room, and is filled up to this block, if it ended before.
    ensures room { vec_capacity directory.old ≤ vec_capacity directory.new }
    ensures more { length directory.old.items ≤ past → length directory.new.items ≡ past }
    ensures all { past ≤ length directory.old.items →
        length directory.new.items ≡ length directory.old.items }
    // Blocks that had a name keep it, and each new one has this range.
    ensures same { (block : ℕ) → block < length directory.old.items →
        get_or directory.new.items block 0 ≡ get_or directory.old.items block 0 }
    ensures named { (block : ℕ) → length directory.old.items ≤ block →
        block < length directory.new.items → get_or directory.new.items block 0 ≡ range }
{
    if past > directory.len() {
        match directory.resize(past, range) {
            Ok(()) => {}
            Err(_) => unreachable!(),
        }
    }
}

// The range that has an address, which lies from one range on and up to another. Prefixes are
// mostly spread evenly over a block, so it is first looked for where it would be then.
fn range_near(starts: &[u32], from: usize, last: usize, address: u32) -> usize
    // The ranges are in order, and the address lies within these.
    requires in_order { AreStartsRising starts.now }
    requires within { (from ≤ last) × (last < length starts.now) × (last < 2 ^ 32) }
    requires low { get_or starts.now from 0 ≤ address }
    requires high { last + 1 < length starts.now → address < get_or starts.now (last + 1) 0 }
    // The range is the one that has it.
    ensures within { result < length starts.now }
    ensures exact { IsInRange starts.now result address }
{
    let guess = guess_between(from, last, address);
    if starts[guess] > address {
        return range_between(starts, from, guess, address);
    }
    if guess == last || starts[guess + 1] > address {
        return guess;
    }
    range_between(starts, guess + 1, last + 1, address)
}

// The place, from one on and up to another, that is in proportion to the address within its block.
fn guess_between(from: usize, last: usize, address: u32) -> usize
    requires { (from ≤ last) × (last < 2 ^ 32) }
    ensures { (from ≤ result) × (result ≤ last) }
{
    let within_block = address as usize % BLOCK_SIZE as usize;
    from + ((last - from) * within_block >> BLOCK_BITS)
}

// The range that has an address, which lies from one range on and before another.
fn range_between(starts: &[u32], from: usize, to: usize, address: u32) -> usize
    // The ranges are in order, and the address lies within these.
    requires in_order { AreStartsRising starts.now }
    requires within { (from < to) × (to ≤ length starts.now) }
    requires low { get_or starts.now from 0 ≤ address }
    requires high { to < length starts.now → address < get_or starts.now to 0 }
    // The range is the one that has it.
    ensures within { result < length starts.now }
    ensures exact { IsInRange starts.now result address }
{
    let (mut low, mut count) = (from, to - from);
    while count > 1 {
        let half = count / 2;
        low += step_to(starts[low + half], address, half);
        count -= half;
    }
    low
}

// `many`, where the start is the address or before it, else 0. It does the same work for both, so
// that no processor has to guess which it is.
fn step_to(start: u32, address: u32, many: usize) -> usize
    ensures { ((start ≤ address) × (result ≡ many)) ⊎ ((address < start) × (result ≡ 0)) }
{
    let is_before = (address as u64 + ADDRESSES - start as u64) >> ADDRESS_BITS;
    many * is_before as usize
}
