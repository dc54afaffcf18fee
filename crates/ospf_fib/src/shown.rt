//! What readers find, and the changes by which the writer gets there.

ghost use Rattle.std.specs.Prelude.{◌≡◌, true, false, not, OnOk, OnErr, Some};
ghost use Rattle.std.specs.Arc.{arc_value};
ghost use Rattle.ospf_fib.specs.PrefixIndex.Known.{opening};
ghost use Rattle.ospf_fib.specs.PrefixIndex.Rule.{counter_of};
ghost use Rattle.ospf_fib.specs.Versions.{added_unless, edited_by, found_of};

use crate::changes::Changes;
use crate::index::{Counter, IndexedTable, Opened, Published};
use left_right::Absorb;
use ospf_spf::RouteTable;
use std::alloc::{AllocError, Global};
use std::sync::Arc;
use std::sync::atomic::{AtomicU64, Ordering};

/// What the writer shares with the changes in the log: the counter of the list, and the
/// number of its present try to publish.
#[derive(Drop)]
pub(crate) struct Tries {
    pub counter: Counter,
    pub present: AtomicU64,
}

/// A table, and the published list that it ends. Where it is not live, the
/// list is what was published before.
#[derive(Drop)]
pub(crate) struct ShownTable {
    pub live: bool,
    pub table: IndexedTable,
    pub known: Opened,
    pub ghost ends: { found_of live table known.tables ≡ Some table },
}

impl Absorb<HandedOver> for ShownTable {
    ghost use Rattle.ospf_fib.specs.Writing.{common_of, shown_after};

    type State = Common;

    ghost state = { common_of };

    ghost applied = { shown_after };

    fn absorb_first(
        &mut self,
        operation: &HandedOver,
        _other: &ShownTable,
    ) -> Result<(), AllocError> {
        let ShownTable { live, table, known } = self;
        operation.edit(table)?;
        let (added, list) = operation.announced(table.table());
        *live = operation.is_opening || added;
        *known = list;
        Ok(())
    }
}

/// Changes that are put into the log in the try of this number, with all that was published before
/// it. The opening leaves the list unchanged.
#[derive(Drop)]
pub(crate) struct HandedOver {
    pub is_opening: bool,
    pub number: u64,
    pub changes: Changes,
    pub known: Opened,
    pub tries: Arc<Tries>,
    pub alloc: Global,
    pub ghost opens: { is_opening ≡ true → known.tables ≡ opening },
    pub ghost counter_is: { (arc_value tries).counter ≡ counter_of known.fib },
}

impl HandedOver {
    // Makes the changes. The opening leaves no route.
    fn edit(&self, table: &mut IndexedTable) -> Result<(), AllocError>
        ensures done { OnOk result (table.new
            ≡ edited_by self.now.is_opening table.old self.now.changes) }
        ensures refused { OnErr result (table.new ≡ table.old) }
    {
        if self.is_opening {
            return table.clear(self.alloc);
        }
        table.edit(self.alloc, self.changes.as_slice())
    }

    // All that is published with this table. The table is added to the list here, after all steps
    // that may run out of memory, and only in the present try: changes that were
    // refused are absorbed by the next one.
    fn announced(&self, table: &RouteTable) -> (bool, Opened)
        ensures fib { result.1.fib ≡ self.now.known.fib }
        ensures tables { result.1.tables
            ≡ added_unless (not result.0) table.now self.now.known.tables }
        ensures opening { self.now.is_opening ≡ true → result.0 ≡ false }
    {
        let is_present = self.tries.present.load(Ordering::SeqCst) == self.number;
        if self.is_opening || !is_present {
            return (false, self.known.copy());
        }
        match self.known.added(&self.tries.counter, table) {
            Some(after) => (true, after),
            None => (false, self.known.copy()),
        }
    }
}

/// What both copies have in common. No value of it is made.
pub(crate) struct Common {
    pub table: RouteTable,
    pub list: Published,
}
