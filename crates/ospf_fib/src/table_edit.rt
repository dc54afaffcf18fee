//! Edits of a table without an index.

ghost use Rattle.std.specs.Prelude.{◌≡◌, All, AllPairs, IfOk};
ghost use Rattle.ospf_fib.specs.Edits.{CanMake, changes_of};
ghost use Rattle.ospf_spf.specs.Changes.{edited, IsChangeBefore, PutsHops};

use crate::index::{can_replace, put_routes};
use ospf_spf::{Change, Edit, RouteTable, copy_changes};
use std::alloc::{AllocError, Global};

/// Changes of a table, with all the memory that it takes to make them.
#[derive(Drop)]
pub(crate) enum TableEdit {
    /// Each replaces a route to the same prefix, and no other route is looked at.
    InPlace(Vec<Change>),
    /// They are made in one pass over the table.
    OnePass(Edit),
}

impl TableEdit {
    ghost use Rattle.std.specs.Prelude.{◌≡◌, All, AllPairs, IfOk};
    ghost use Rattle.ospf_fib.specs.Edits.{CanMake, changes_of};
    ghost use Rattle.ospf_spf.specs.Changes.{edited, IsChangeBefore, PutsHops};

    /// An edit of this table by these changes, which are in the order of tables.
    ///
    /// `AllocError` where memory runs out.
    pub fn new(
        alloc: Global,
        table: &RouteTable,
        changes: &[Change],
    ) -> Result<TableEdit, AllocError>
        requires in_order { AllPairs IsChangeBefore changes.now }
        requires have_hops { All PutsHops changes.now }
        ensures changes { IfOk result (λ edit. changes_of edit ≡ changes.now) }
        ensures can_make { IfOk result (λ edit. CanMake edit table.now) }
    {
        if can_replace(table.routes(), changes) {
            Ok(TableEdit::InPlace(copy_changes(alloc, changes)?))
        } else {
            Ok(TableEdit::OnePass(Edit::new(alloc, table, changes)?))
        }
    }

    /// Makes its changes of the table. No memory is allocated.
    pub fn make(self, alloc: Global, table: &mut RouteTable)
        requires { CanMake self table.old }
        ensures { table.new ≡ edited table.old (changes_of self) }
    {
        match self {
            TableEdit::InPlace(changes) => put_routes(table, alloc, changes),
            TableEdit::OnePass(edit) => table.make(edit),
        }
    }
}
