//! Moments on a ring, and the entries that reach `LS_REFRESH_TIME` or `MAX_AGE` at each.

ghost use Rattle.std.specs.Prelude.{◌≡◌, ◌&&◌, ◌||◌, ◌⊎◌, ◌+◌, ◌-◌, ◌^◌, ◌<◌, ◌≤◌, min, not, length, [], OnOk, OnErr, IfOk, true, false};
ghost use Rattle.std.specs.List.Sorted.{IsStrictlySortedBy};
ghost use Rattle.ospf_base.specs.Constants.{max_age};
ghost use Rattle.ospf_lsdb.specs.Database.{ls_refresh_time};
ghost use Rattle.ospf_lsdb.specs.Moments.{ahead, due_at, due_cmp, ring, same_due, has_due, IsIdleUntil, ComesIn, coming, is_coming, is_due_at, keys_at};
ghost use Rattle.ospf_lsdb.specs.declared.moments.AgeDue.{AgeDue};

use crate::LS_REFRESH_TIME;
use ospf_base::{Kind, LsaKey, MAX_AGE, RouterId};
use std::alloc::{AllocError, Global};
use std::collections::BTreeSet;
use std::collections::btree_set::Range;
use std::marker::Model;

// The first of all keys.
const FIRST_KEY: LsaKey = LsaKey {
    kind: Kind::Router,
    id: 0,
    router: RouterId(0),
};

// At this moment the entry of a key reaches an age.
#[derive(Clone, Copy, PartialEq, Eq, PartialOrd, Ord, Drop)]
pub(crate) struct AgeDue {
    moment: u16,
    age: u16,
    key: LsaKey,
}

impl AgeDue {
    // When an entry that is younger now reaches an age.
    fn coming(clock: u16, age: u16, told: u16, key: LsaKey) -> AgeDue
        ensures { result ≡ coming clock age told key }
    {
        AgeDue {
            moment: clock.wrapping_add(told.saturating_sub(age)),
            age: told,
            key,
        }
    }
}

// What is due at each moment.
#[derive(Drop)]
pub(crate) struct Moments {
    set: BTreeSet<AgeDue>,
}

impl Model for Moments {
    ghost use Rattle.std.specs.Prelude.{List};
    ghost use Rattle.ospf_lsdb.specs.declared.moments.AgeDue.{AgeDue};

    ghost Value = { List AgeDue };

    ghost view = { λ m. m.set.keys };
}

impl Moments {
    pub(crate) fn new(alloc: Global) -> Moments
        ensures { result ≡ [] }
    {
        Moments {
            set: BTreeSet::new(alloc),
        }
    }

    // Adds the ages that an entry of an age will reach.
    pub(crate) fn add_coming(&mut self, clock: u16, age: u16, key: LsaKey) -> Result<(), AllocError>
        ensures ok { OnOk result ((q : AgeDue) →
            has_due self.new q ≡ (is_coming clock age key q || has_due self.old q)) }
        ensures err { OnErr result ((q : AgeDue) → has_due self.new q ≡ has_due self.old q) }
    {
        let refresh = AgeDue::coming(clock, age, LS_REFRESH_TIME, key);
        let expiry = AgeDue::coming(clock, age, MAX_AGE, key);
        let is_new = self.add_if(age < LS_REFRESH_TIME, refresh)?;
        match self.add_if(age < MAX_AGE, expiry) {
            Ok(_) => Ok(()),
            Err(error) => {
                self.remove_if(is_new, refresh);
                Err(error)
            }
        }
    }

    // Removes the ages that an entry of an age will reach.
    pub(crate) fn remove_coming(&mut self, clock: u16, age: u16, key: LsaKey)
        ensures { (q : AgeDue) → has_due self.new q
            ≡ (not (is_coming clock age key q) && has_due self.old q) }
    {
        self.remove_if(
            age < LS_REFRESH_TIME,
            AgeDue::coming(clock, age, LS_REFRESH_TIME, key),
        );
        self.remove_if(age < MAX_AGE, AgeDue::coming(clock, age, MAX_AGE, key));
    }

    // Removes that an entry reached an age at this moment.
    pub(crate) fn remove_reached(&mut self, moment: u16, age: u16, key: LsaKey)
        ensures gone { (q : AgeDue) → has_due self.new q
            ≡ (not (same_due (due_at moment age key) q) && has_due self.old q) }
        ensures fewer { has_due self.old (due_at moment age key) ≡ true →
            length self.new < length self.old }
    {
        self.remove(AgeDue { moment, age, key });
    }

    // Removes all that reached an age at a moment.
    pub(crate) fn forget(&mut self, moment: u16, age: u16)
        requires { age ≤ max_age }
        ensures { (q : AgeDue) → has_due self.new q
            ≡ (not (is_due_at moment age q) && has_due self.old q) }
    {
        while let Some(key) = self.at(moment, age).next() {
            self.remove_reached(moment, age, key);
        }
    }

    // The keys whose entries reached this age at this moment.
    pub(crate) fn at(&self, moment: u16, age: u16) -> AgesReached<'_>
        requires { age ≤ max_age }
        ensures keys { result ≡ keys_at moment age self.now }
        ensures fits { length result < 2 ^ 63 }
        ensures ordered { IsStrictlySortedBy due_cmp self.now }
    {
        let first = AgeDue {
            moment,
            age,
            key: FIRST_KEY,
        };
        let past = AgeDue {
            moment,
            age: age + 1,
            key: FIRST_KEY,
        };
        AgesReached {
            left: self.set.range(first..past),
        }
    }

    // In how many moments from this one something is due first; `u16::MAX` where nothing is.
    pub(crate) fn idle_from(&self, clock: u16) -> u16
        ensures idle { IsIdleUntil clock result self.now }
        ensures until { (result ≡ 65535) ⊎ ComesIn clock result self.now }
        ensures fits { result < ring }
    {
        let now = AgeDue {
            moment: clock,
            age: 0,
            key: FIRST_KEY,
        };
        if let Some(due) = self.set.range(now..).next() {
            return moments_until(clock, due.moment);
        }
        // The ring wraps around: what is before the clock comes last.
        match self.set.first() {
            Some(due) => moments_until(clock, due.moment),
            None => u16::MAX,
        }
    }

    // Adds what is due, if it is, and returns whether that was new.
    fn add_if(&mut self, is_due: bool, due: AgeDue) -> Result<bool, AllocError>
        ensures added { IfOk result (λ is_new. is_new ≡ (is_due && not (has_due self.old due))) }
        ensures ok { OnOk result ((q : AgeDue) →
            has_due self.new q ≡ ((is_due && same_due due q) || has_due self.old q)) }
        ensures err { OnErr result (self.new ≡ self.old) }
    {
        if !is_due {
            return Ok(false);
        }
        let is_new = self.set.insert(due)?;
        Ok(is_new)
    }

    fn remove_if(&mut self, is_due: bool, due: AgeDue)
        ensures { (q : AgeDue) → has_due self.new q
            ≡ (not (is_due && same_due due q) && has_due self.old q) }
    {
        if is_due {
            self.remove(due);
        }
    }

    fn remove(&mut self, due: AgeDue)
        ensures gone { (q : AgeDue) → has_due self.new q
            ≡ (not (same_due due q) && has_due self.old q) }
        ensures fewer { has_due self.old due ≡ true → length self.new < length self.old }
    {
        self.set.remove(&due);
    }
}

/// The keys whose age became one of `LS_REFRESH_TIME` and `MAX_AGE` at the last tick, in order.
#[derive(Drop)]
pub struct AgesReached<'a> {
    left: Range<'a, AgeDue>,
}

impl<'a> Model for AgesReached<'a> {
    ghost use Rattle.std.specs.Prelude.{List, map};
    ghost use Rattle.ospf_base.specs.declared.ids.LsaKey.{LsaKey};
    ghost use Rattle.ospf_lsdb.specs.declared.moments.AgeDue.{AgeDue};

    ghost Value = { List LsaKey };

    ghost view = { λ r. map (λ d. d.key) r.left };
}

impl<'a> Iterator for AgesReached<'a> {
    type Item = LsaKey;

    ghost use Rattle.std.specs.Iterator.{YieldsFirst, item_count};

    ghost next_gives = { YieldsFirst (λ s. s) };

    ghost remaining = { item_count (λ s. s) };

    fn next(&mut self) -> Option<LsaKey> {
        let due = self.left.next()?;
        Some(due.key)
    }
}

// How many moments a moment is ahead of the clock, as the ring goes round.
pub(crate) fn moments_until(clock: u16, moment: u16) -> u16
    ensures count { result ≡ ahead clock moment }
    ensures moment_fits { moment < ring }
    ensures clock_fits { clock < ring }
{
    moment.wrapping_sub(clock)
}

// In how many moments an entry of an age reaches the next of the ages that a tick reports;
// `u16::MAX` where it has reached the last.
pub(crate) fn until_told(age: u16) -> u16
    ensures refresh { age < ls_refresh_time → age + result ≡ ls_refresh_time }
    ensures expiry { ls_refresh_time ≤ age → age < max_age → age + result ≡ max_age }
    ensures never { max_age ≤ age → result ≡ 65535 }
{
    if age < LS_REFRESH_TIME {
        LS_REFRESH_TIME - age
    } else if age < MAX_AGE {
        MAX_AGE - age
    } else {
        u16::MAX
    }
}

// This moment, or the one in this many moments, whichever is sooner.
pub(crate) fn sooner(clock: u16, moment: u16, count: u16) -> u16
    ensures { ahead clock result ≡ min (ahead clock moment) count }
{
    if moments_until(clock, moment) <= count {
        moment
    } else {
        clock.wrapping_add(count)
    }
}
