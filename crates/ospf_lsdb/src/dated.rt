//! The entries of a database: a map of entries, whose ages follow from the
//! present moment on a ring.

ghost use Rattle.std.specs.Prelude.{◌≡◌, ◌≤◌, ◌<◌, ◌⊎◌, ◌+◌, ◌-◌, List, [], length, map, ◌^◌, OnOk, OnErr, IfOk, option_map};
ghost use Rattle.ospf_base.specs.Constants.{max_age};
ghost use Rattle.ospf_base.specs.declared.ids.LsaKey.{LsaKey};
ghost use Rattle.ospf_lsdb.specs.Database.{Held, entry_from, held_of, entry_of, IsDatabase, Puts, Installs, Ages, expired, removed, is_fresh, is_expired, is_some_and, listed, ls_refresh_time, reached_at};
ghost use Rattle.ospf_base.specs.Keys.{same_key, key_cmp};
ghost use Rattle.ospf_lsdb.specs.Timers.{age_at, age_of, StopsTimers};
ghost use Rattle.ospf_lsdb.specs.Moments.{among};
ghost use Rattle.ospf_lsdb.specs.declared.dated.Timer.TheVariants as timer;
ghost use Rattle.std.specs.BTreeMap.{IsOrdered};

use crate::LS_REFRESH_TIME;
use crate::ageless::Ageless;
use crate::entries::Entries;
use crate::entry::{EntryView, add_fresh};
use crate::moments::{AgesReached, Moments, moments_until, sooner, until_told};
use ospf_base::{LsaKey, MAX_AGE};
use ospf_lsa::{Listing, Lsa};
use std::alloc::{AllocError, Global};
use std::collections::BTreeMap;
use std::marker::Model;

#[derive(Drop)]
pub(crate) struct Stored {
    lsa: Ageless,
    timer: Timer,
    tick: u64,
    by_flooding: bool,
}

impl Stored {
    ghost use Rattle.ospf_lsdb.specs.Entries.{entry_now, AgeFits};

    // The entry as it is at a moment.
    pub(crate) fn at(&self, clock: u16) -> EntryView<'_>
        requires { AgeFits clock self.now }
        ensures { result ≡ entry_now clock self.now }
    {
        let age = self.timer.age(clock);
        EntryView::new(&self.lsa, age, self.tick, self.by_flooding)
    }
}

/// The entries of a database, whose ages follow from the moments at which they began
/// (RFC 2328, sections 12.2 and 14).
#[derive(Drop)]
pub(crate) struct Dated {
    clock: u16,
    // From the clock on, nothing is due before this moment.
    next: u16,
    entries: BTreeMap<LsaKey, Stored>,
    due: Moments,
}

impl Model for Dated {
    ghost use Rattle.std.specs.Prelude.{List, map};
    ghost use Rattle.ospf_lsdb.specs.Database.{Held};

    ghost Value = { List Held };

    ghost use Rattle.ospf_lsdb.specs.Timers.{held_at, IsRunning};

    ghost view = { λ d. map (held_at d.clock d.due) d.entries.entries };

    ghost invariant = { λ d. IsRunning d.clock d.next d.entries.entries d.due };
}

impl Dated {
    /// A database with no entry.
    pub(crate) fn new(alloc: Global) -> Dated
        ensures { result ≡ [] }
    {
        Dated {
            clock: 0,
            next: u16::MAX,
            entries: BTreeMap::new(alloc),
            due: Moments::new(alloc),
        }
    }

    /// How many entries there are.
    pub(crate) fn len(&self) -> usize
        ensures count { result ≡ length self.now }
        ensures fits { result < 2 ^ 63 }
        ensures database { IsDatabase self.now }
    {
        self.entries.len()
    }

    /// The entry of a key, at its present age.
    pub(crate) fn get(&self, key: &LsaKey) -> Option<EntryView<'_>>
        ensures entry { result ≡ entry_of self.now key.now }
        ensures database { IsDatabase self.now }
    {
        let stored = self.entries.get(key)?;
        Some(stored.at(self.clock))
    }

    /// The entries in the order of their keys, each at its present age.
    pub(crate) fn entries(&self) -> Entries<'_>
        ensures entries { result ≡ map (λ h. h.entry) self.now }
        ensures database { IsDatabase self.now }
    {
        Entries::new(self.clock, self.entries.values())
    }

    /// Installs an LSA in place of the one of its key (RFC 2328, section 13.2), with the number of
    /// the present tick, as the caller counts, and whether it came by flooding.
    ///
    /// `AllocError` where memory runs out; then the database is unchanged.
    pub(crate) fn install(
        &mut self,
        lsa: Lsa,
        tick: u64,
        by_flooding: bool,
    ) -> Result<(), AllocError>
        ensures ok { OnOk result (Installs (entry_from lsa tick by_flooding) self.old self.new) }
        ensures err { OnErr result (self.new ≡ self.old) }
    {
        let key = lsa.view().key();
        let age = lsa.view().header().age.ticks();
        let stored = Stored {
            lsa: Ageless::new(lsa),
            timer: Timer::new(self.clock, age),
            tick,
            by_flooding,
        };
        // All growths come first.
        self.due.add_coming(self.clock, age, key)?;
        self.next = sooner(self.clock, self.next, until_told(age));
        match self.entries.insert(key, stored) {
            Ok(Some(old)) => {
                let old_age = old.timer.age(self.clock);
                self.due.remove_reached(self.clock, old_age, key);
                if old_age != age {
                    self.due.remove_coming(self.clock, old_age, key);
                }
                Ok(())
            }
            Ok(None) => Ok(()),
            Err(_) => {
                self.due.remove_coming(self.clock, age, key);
                Err(AllocError)
            }
        }
    }

    /// A tick passes: each age below `MAX_AGE` is one more (RFC 2328, section 14).
    ///
    /// Returns how many entries it looked at: those that reached `MAX_AGE`. It also
    /// drops the moments that the last tick reported, each once; that looks at no
    /// entry, and is not counted.
    pub(crate) fn tick(&mut self) -> u64
        ensures ages { Ages self.old self.new }
        ensures looks { result ≡ length (reached_at max_age self.new) }
    {
        // Nothing is due now, nor at the next moment.
        if moments_until(self.clock, self.next) >= 2 {
            self.clock = self.clock.wrapping_add(1);
            return 0;
        }
        self.tick_due()
    }

    /// Brings the age of a key's entry to `MAX_AGE` and changes nothing else of it, so that it can
    /// be flushed (RFC 2328, section 14.1). Returns whether there was one below that age.
    pub(crate) fn expire(&mut self, key: &LsaKey) -> bool
        ensures entry { Puts key.now (option_map expired (held_of self.old key.now)) self.old
            self.new }
        ensures was_fresh { result ≡ is_some_and (λ h. is_fresh h.entry)
            (held_of self.old key.now) }
    {
        let Some(age) = age_in(&self.entries, self.clock, key) else {
            return false;
        };
        if age == MAX_AGE {
            return false;
        }
        stop(&mut self.entries, key);
        self.due.remove_reached(self.clock, age, *key);
        self.due.remove_coming(self.clock, age, *key);
        true
    }

    /// Takes the entry of a key out if its age is `MAX_AGE`, and returns whether it did.
    pub(crate) fn remove_expired(&mut self, key: &LsaKey) -> bool
        ensures entry { Puts key.now (removed (held_of self.old key.now)) self.old self.new }
        ensures was_expired { result ≡ is_some_and is_expired (held_of self.old key.now) }
    {
        let Some(age) = age_in(&self.entries, self.clock, key) else {
            return false;
        };
        if age < MAX_AGE {
            return false;
        }
        self.entries.remove(key);
        self.due.remove_reached(self.clock, MAX_AGE, *key);
        true
    }

    /// The keys whose age became this one, `LS_REFRESH_TIME` or `MAX_AGE`, at the last tick, in
    /// order. An entry that was installed since, or brought to `MAX_AGE`, is none of them.
    pub(crate) fn reached(&self, age: u16) -> AgesReached<'_>
        requires told { (age ≡ ls_refresh_time) ⊎ (age ≡ max_age) }
        ensures keys { result ≡ reached_at age self.now }
    {
        self.due.at(self.clock, age)
    }

    /// The LSAs below `MAX_AGE`, at their present ages.
    ///
    /// `AllocError` where memory runs out.
    pub(crate) fn listing(&self, alloc: Global) -> Result<Listing, AllocError>
        ensures ok { IfOk result (λ l. l ≡ listed self.now) }
    {
        let mut listing = Listing::new(alloc);
        for stored in self.entries.values() {
            let entry = stored.at(self.clock);
            add_fresh(&mut listing, &entry, alloc)?;
        }
        Ok(listing)
    }

    // A tick in which something may be due.
    fn tick_due(&mut self) -> u64
        ensures ages { Ages self.old self.new }
        ensures looks { result ≡ length (reached_at max_age self.new) }
    {
        self.due.forget(self.clock, LS_REFRESH_TIME);
        self.due.forget(self.clock, MAX_AGE);
        let now = self.clock.wrapping_add(1);
        self.clock = now;
        self.next = now.wrapping_add(self.due.idle_from(now));
        let keys = self.due.at(now, MAX_AGE);
        look_at_all(&mut self.entries, keys)
    }
}

// How old an entry is.
#[derive(Clone, Copy, Drop)]
enum Timer {
    // It was of age 0 at this moment, less than `MAX_AGE` moments ago.
    Since(u16),
    // It is of age `MAX_AGE`.
    Expired,
}

impl Timer {
    fn new(clock: u16, age: u16) -> Timer
        requires { age ≤ max_age }
        ensures age { age_at clock result ≡ age }
        ensures expired { age ≡ max_age → result ≡ timer.Expired }
    {
        if age == MAX_AGE {
            Timer::Expired
        } else {
            Timer::Since(clock.wrapping_sub(age))
        }
    }

    fn age(self, clock: u16) -> u16
        ensures { result ≡ age_at clock self }
    {
        match self {
            Timer::Since(birth) => clock.wrapping_sub(birth),
            Timer::Expired => MAX_AGE,
        }
    }
}

// The age of the entry of a key.
fn age_in(entries: &BTreeMap<LsaKey, Stored>, clock: u16, key: &LsaKey) -> Option<u16>
    ensures { result ≡ age_of clock entries.now.entries key.now }
{
    let stored = entries.get(key)?;
    Some(stored.timer.age(clock))
}

// Brings the entry of a key to `MAX_AGE`.
fn stop(entries: &mut BTreeMap<LsaKey, Stored>, key: &LsaKey)
    ensures entry { StopsTimers (same_key key.now) entries.old.entries entries.new.entries }
    ensures ordered { IsOrdered key_cmp entries.new }
{
    if let Some(stored) = entries.get_mut(key) {
        stored.timer = Timer::Expired;
    }
}

// Looks at the entry of each of these keys, and counts the looks.
fn look_at_all(entries: &mut BTreeMap<LsaKey, Stored>, keys: AgesReached<'_>) -> u64
    // The map is one, and the keys can be counted.
    requires count { length keys < 2 ^ 64 }
    requires ordered { IsOrdered key_cmp entries.old }
    // The entries of these keys stop, all others are unchanged, and each key is a look.
    ensures entry { StopsTimers (among keys.entry) entries.old.entries entries.new.entries }
    ensures ordered { IsOrdered key_cmp entries.new }
    ensures looks { result ≡ length keys.entry }
{
    let mut looks = 0;
    for key in keys {
        looks = look(entries, key, looks);
    }
    looks
}

// The one look of a tick at an entry, which has reached `MAX_AGE`.
fn look(entries: &mut BTreeMap<LsaKey, Stored>, key: LsaKey, looks: u64) -> u64
    requires { looks + 1 < 2 ^ 64 }
    ensures entry { StopsTimers (same_key key) entries.old.entries entries.new.entries }
    ensures ordered { IsOrdered key_cmp entries.new }
    ensures looks { result ≡ looks + 1 }
{
    stop(entries, &key);
    looks + 1
}
