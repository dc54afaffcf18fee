//! The walk over the entries of a database.

use crate::dated::Stored;
use crate::entry::EntryView;
use ospf_base::LsaKey;
use std::collections::btree_map::Values;
use std::marker::Model;

/// A walk over the entries of a database in the order of their keys, each at its present age.
#[derive(Drop)]
pub struct Entries<'a> {
    clock: u16,
    left: Values<'a, LsaKey, Stored>,
}

impl<'a> Model for Entries<'a> {
    ghost use Rattle.std.specs.Prelude.{List, map};
    ghost use Rattle.std.specs.List.{AllByRecursion};
    ghost use Rattle.ospf_lsdb.specs.Database.{Entry};
    ghost use Rattle.ospf_lsdb.specs.Entries.{entry_now, AgeFits};

    ghost Value = { List Entry };

    ghost view = { λ w. map (entry_now w.clock) w.left };

    ghost invariant = { λ w. AllByRecursion (AgeFits w.clock) w.left };
}

impl<'a> Iterator for Entries<'a> {
    type Item = EntryView<'a>;

    ghost use Rattle.std.specs.Iterator.{YieldsFirst, item_count};

    ghost next_gives = { YieldsFirst (λ s. s) };

    ghost remaining = { item_count (λ s. s) };

    fn next(&mut self) -> Option<EntryView<'a>> {
        let stored = self.left.next()?;
        Some(stored.at(self.clock))
    }
}

impl<'a> Entries<'a> {
    ghost use Rattle.std.specs.Prelude.{◌≡◌, map};
    ghost use Rattle.std.specs.List.{AllByRecursion};
    ghost use Rattle.ospf_lsdb.specs.Entries.{entry_now, AgeFits};

    // The walk over what is stored, at a moment.
    pub(crate) fn new(clock: u16, left: Values<'a, LsaKey, Stored>) -> Entries<'a>
        requires { AllByRecursion (AgeFits clock) left }
        ensures { result ≡ map (entry_now clock) left.entry }
    {
        Entries { clock, left }
    }
}
