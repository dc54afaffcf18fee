//! A retransmission list and its instances by key, by which most look-ups need not go over it.

ghost use Rattle.std.specs.Prelude.{◌≡◌, OnOk};
ghost use Rattle.std.specs.HashMap.{get};
ghost use Rattle.ospf_neighbour.specs.Lists.{TellsInstances, key_eq};
ghost use Rattle.ospf_neighbour.specs.OneAKey.{IsAloneOfKeys};

use crate::lists;
use crate::neighbour::Listed;
use ospf_base::{Instance, LsaKey};
use std::alloc::{AllocError, Global};
use std::collections::HashMap;
use std::marker::Model;

// Entries, one a key, in the order in which they were put. The list is long, and what
// is looked for is mostly not on it.
#[derive(Drop)]
pub(crate) struct Retransmissions {
    entries: Vec<Listed>,
    instances: HashMap<LsaKey, Instance>,
    // Whether `instances` are those of the entries. Where there was no memory
    // for them, the entries are gone over.
    is_keyed: bool,
}

impl Model for Retransmissions {
    ghost use Rattle.std.specs.Prelude.{◌≡◌, List, true};
    ghost use Rattle.std.specs.HashMap.{get};
    ghost use Rattle.ospf_neighbour.specs.declared.neighbour.Listed.{Listed};
    ghost use Rattle.ospf_neighbour.specs.Lists.{TellsInstances, key_eq};
    ghost use Rattle.ospf_neighbour.specs.OneAKey.{IsAloneOfKeys};

    ghost Value = { List Listed };

    ghost view = { λ r. r.entries.items };

    ghost invariant = { λ r. (r.is_keyed ≡ true
        → TellsInstances (get key_eq r.instances) r.entries.items)
        × IsAloneOfKeys r.entries.items };
}

impl Retransmissions {
    ghost use Rattle.std.specs.Prelude.{◌≡◌, ◌++◌, ◌∷◌, [], OnOk, OnErr, map, position};
    ghost use Rattle.ospf_base.specs.Keys.{same_key};
    ghost use Rattle.ospf_neighbour.specs.Lists.{is_listed, is_key_listed, is_of_instance, without_instance, without_key, sent_again};
    ghost use Rattle.ospf_neighbour.specs.OneAKey.{IsAloneOfKeys};

    // An empty list.
    pub(crate) fn new(alloc: Global) -> Retransmissions
        ensures { result ≡ [] }
    {
        Retransmissions {
            entries: Vec::new(alloc),
            instances: HashMap::new(alloc),
            is_keyed: true,
        }
    }

    // Its entries.
    pub(crate) fn entries(&self) -> &[Listed]
        ensures { result.now ≡ self.now }
    {
        &self.entries
    }

    // Whether some instance of a key is on the list.
    pub(crate) fn is_key_listed(&self, key: &LsaKey) -> bool
        ensures { result ≡ is_key_listed key.now self.now }
    {
        // Where nothing is listed, the instances, which lie elsewhere, are not looked at.
        if self.entries.is_empty() {
            return false;
        }
        if self.is_keyed {
            self.instances.contains_key(key)
        } else {
            lists::is_key_listed(key, &self.entries)
        }
    }

    // Whether an instance is on the list.
    pub(crate) fn is_listed(&self, instance: &Instance) -> bool
        ensures { result ≡ is_listed instance.now self.now }
    {
        if self.entries.is_empty() {
            return false;
        }
        if self.is_keyed {
            match self.instances.get(&instance.key) {
                Some(kept) => kept.is_same(instance),
                None => false,
            }
        } else {
            lists::is_listed(instance, &self.entries)
        }
    }

    // The place of an instance on the list.
    fn place_of(&self, instance: &Instance) -> Option<usize>
        ensures { result ≡ position (is_of_instance instance.now) self.now }
    {
        if self.is_listed(instance) {
            lists::place_of(instance, &self.entries)
        } else {
            None
        }
    }

    // The place of the first instance of a key on the list.
    fn key_place(&self, key: &LsaKey) -> Option<usize>
        ensures { result ≡ position (λ l. same_key l.instance.key key.now) self.now }
    {
        if self.is_key_listed(key) {
            lists::key_place(key, &self.entries)
        } else {
            None
        }
    }

    // Removes an instance from the list. No memory is taken.
    pub(crate) fn remove_instance(&mut self, instance: &Instance)
        ensures { self.new ≡ without_instance instance.now self.old }
    {
        if let Some(at) = self.place_of(instance) {
            // It is the only one of its key.
            self.entries.remove(at);
            self.instances.remove(&instance.key);
        }
    }

    // Removes all instances of a key from the list. No memory is taken.
    pub(crate) fn remove_key(&mut self, key: &LsaKey)
        ensures { self.new ≡ without_key key.now self.old }
    {
        if let Some(at) = self.key_place(key) {
            // It is the only one of the key.
            self.entries.remove(at);
            self.instances.remove(key);
        }
    }

    // Puts an entry on the list, in place of all instances of its key.
    //
    // `AllocError` where memory runs out; then the list is as it was.
    pub(crate) fn put(&mut self, entry: Listed) -> Result<(), AllocError>
        ensures ok { OnOk result (self.new ≡ without_key entry.instance.key self.old
            ++ entry ∷ []) }
        ensures err { OnErr result (self.new ≡ self.old) }
    {
        if let Some(at) = self.key_place(&entry.instance.key) {
            // It is the only one of the key, and leaves room: no memory is needed.
            if self.is_keyed {
                self.instances.insert(entry.instance.key, entry.instance)?;
            }
            self.entries.remove(at);
            self.entries.push(entry)?;
            return Ok(());
        }
        self.entries.reserve(1)?;
        self.instances.insert(entry.instance.key, entry.instance)?;
        self.entries.push(entry)?;
        Ok(())
    }

    // The entry of an instance was sent at this tick.
    pub(crate) fn mark(&mut self, instance: &Instance, tick: u64)
        ensures { self.new ≡ map (sent_again instance.now tick) self.old }
    {
        let Some(at) = self.place_of(instance) else {
            return;
        };
        // It is the only one of its key.
        self.entries[at].sent_at = tick;
    }

    // Replaces all entries by others. No memory is needed: where there is none, their
    // instances are not stored by key.
    pub(crate) fn replace(&mut self, entries: Vec<Listed>)
        requires { IsAloneOfKeys entries.items }
        ensures { self.new ≡ entries.items }
    {
        self.is_keyed = keep_instances(&entries, &mut self.instances).is_ok();
        self.entries = entries;
    }

    // Removes all entries from the list. No memory is taken.
    pub(crate) fn clear(&mut self)
        ensures { self.new ≡ [] }
    {
        self.entries.clear();
        self.instances.clear();
        self.is_keyed = true;
    }
}

// Stores only the instances of these entries. `AllocError` where memory runs out.
fn keep_instances(
    entries: &[Listed],
    instances: &mut HashMap<LsaKey, Instance>,
) -> Result<(), AllocError>
    requires { IsAloneOfKeys entries.now }
    ensures { OnOk result (TellsInstances (get key_eq instances.new) entries.now) }
{
    instances.clear();
    for listed in entries {
        instances.insert(listed.instance.key, listed.instance)?;
    }
    Ok(())
}
