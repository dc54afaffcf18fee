//! Changes that are in the order of tables.

ghost use Rattle.std.specs.Prelude.{◌≡◌, [], All, AllPairs};
ghost use Rattle.ospf_spf.specs.Changes.{IsChangeBefore, PutsHops};

use ospf_spf::Change;
use std::alloc::Global;
use std::marker::Model;

/// The changes from one table to another, in the order of tables.
#[derive(Drop)]
pub(crate) struct Changes {
    list: Vec<Change>,
}

impl Model for Changes {
    ghost use Rattle.std.specs.Prelude.{List, All, AllPairs};
    ghost use Rattle.ospf_spf.specs.declared.changes.Change.{Change};
    ghost use Rattle.ospf_spf.specs.Changes.{IsChangeBefore, PutsHops};

    ghost Value = { List Change };

    ghost view = { λ c. c.list.items };

    ghost invariant = { λ c. AllPairs IsChangeBefore c.list.items × All PutsHops c.list.items };
}

impl Changes {
    /// No change.
    pub fn none(alloc: Global) -> Changes
        ensures { result ≡ [] }
    {
        Changes {
            list: Vec::new(alloc),
        }
    }

    /// These changes, which are in the order of their prefixes.
    pub fn of(list: Vec<Change>) -> Changes
        requires in_order { AllPairs IsChangeBefore list.items }
        requires have_hops { All PutsHops list.items }
        ensures { result ≡ list.items }
    {
        Changes { list }
    }

    /// The changes, in the order of their prefixes.
    pub fn as_slice(&self) -> &[Change]
        ensures changes { result.now ≡ self.now }
        ensures in_order { AllPairs IsChangeBefore self.now }
        ensures have_hops { All PutsHops self.now }
    {
        &self.list
    }
}
