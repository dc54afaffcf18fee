//! The keys of the entries at `MAX_AGE`.

ghost use Rattle.std.specs.Prelude.{◌≡◌, ◌+◌, ◌<◌, ◌≤◌, ◌||◌, [], true, false, length, OnOk};
ghost use Rattle.ospf_base.specs.Rising.{IsRisingBy};
ghost use Rattle.ospf_base.specs.Keys.{Precedes};
ghost use Rattle.ospf_base.specs.declared.ids.LsaKey.{LsaKey};
ghost use Rattle.ospf_lsdb.specs.Expired.{SetsKey};
ghost use Rattle.ospf_lsdb.specs.Moments.{among};

use crate::moments::AgesReached;
use ospf_base::LsaKey;
use std::alloc::{AllocError, Global};
use std::marker::Model;

/// Keys in order, each once, with room for more: only `make_room` takes memory.
#[derive(Drop)]
pub(crate) struct ExpiredKeys {
    keys: Vec<LsaKey>,
}

impl Model for ExpiredKeys {
    ghost use Rattle.std.specs.Prelude.{vec_capacity};
    ghost use Rattle.ospf_base.specs.Rising.{IsRisingBy};
    ghost use Rattle.ospf_base.specs.Keys.{Precedes};
    ghost use Rattle.ospf_lsdb.specs.Expired.{KeysValue};

    ghost Value = { KeysValue };

    ghost view = { λ e. record { keys = e.keys.items; room = vec_capacity e.keys } };

    ghost invariant = { λ e. IsRisingBy Precedes e.keys.items };
}

impl ExpiredKeys {
    pub(crate) fn new(alloc: Global) -> ExpiredKeys
        ensures { result.keys ≡ [] }
    {
        ExpiredKeys {
            keys: Vec::new(alloc),
        }
    }

    pub(crate) fn len(&self) -> usize
        ensures { result ≡ length self.now.keys }
    {
        self.keys.len()
    }

    pub(crate) fn keys(&self) -> &[LsaKey]
        ensures keys { result.now ≡ self.now.keys }
        ensures rising { IsRisingBy Precedes self.now.keys }
    {
        &self.keys
    }

    /// Makes room for this many keys in all.
    ///
    /// `AllocError` where memory runs out.
    pub(crate) fn make_room(&mut self, count: usize) -> Result<(), AllocError>
        ensures keys { self.new.keys ≡ self.old.keys }
        ensures room { self.old.room ≤ self.new.room }
        ensures ok { OnOk result (count ≤ self.new.room) }
    {
        self.keys.reserve(count.saturating_sub(self.keys.len()))
    }

    /// Adds a key, for which there is room.
    pub(crate) fn put(&mut self, key: LsaKey)
        requires { length self.old.keys < self.old.room }
        ensures keys { SetsKey key true self.old.keys self.new.keys }
        // The keys remain in order; there is at most one more, and no less room.
        ensures rising { IsRisingBy Precedes self.new.keys }
        ensures room { self.old.room ≤ self.new.room }
        ensures one_more { length self.new.keys ≤ length self.old.keys + 1 }
    {
        let Err(place) = self.keys.binary_search(&key) else {
            return;
        };
        if self.keys.insert(place, key).is_err() {
            unreachable!()
        }
    }

    /// Adds keys, for which there is room.
    pub(crate) fn put_all(&mut self, keys: AgesReached<'_>)
        requires { length self.old.keys + length keys ≤ self.old.room }
        ensures keys { (k : LsaKey) → among self.new.keys k
            ≡ (among keys.entry k || among self.old.keys k) }
        ensures rising { IsRisingBy Precedes self.new.keys }
        ensures room { self.old.room ≤ self.new.room }
    {
        // For the proof.
        let _keys = self.keys();
        for key in keys {
            self.put(key);
        }
    }

    /// Takes a key out.
    pub(crate) fn remove(&mut self, key: &LsaKey)
        ensures keys { SetsKey key.now false self.old.keys self.new.keys }
        ensures rising { IsRisingBy Precedes self.new.keys }
        ensures room { self.old.room ≤ self.new.room }
    {
        if let Ok(place) = self.keys.binary_search(key) {
            self.keys.remove(place);
        }
    }
}
