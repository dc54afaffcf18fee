//! What the writer writes with: the two copies, and the right to add to the list.

ghost use Rattle.std.specs.Prelude.{◌≡◌, ◌∷◌, ◌++◌, [], drop, true, IfErr, IfOk, OnErr, OnOk};
ghost use Rattle.std.specs.Arc.{arc_value};
ghost use Rattle.left_right.specs.Sides.{view};
ghost use Rattle.ospf_fib.specs.PrefixIndex.Rule.{counter_of};
ghost use Rattle.ospf_fib.specs.Edits.{CanMake, changes_of};
ghost use Rattle.ospf_fib.specs.Rule.{IsKnownBook};
ghost use Rattle.ospf_fib.specs.Versions.{AddsEdited, EndsWith};
ghost use Rattle.ospf_fib.specs.Writing.{common_of, shown_end, with_table};
ghost use Rattle.ospf_spf.specs.Changes.{edited};

use crate::changes::Changes;
use crate::index::{ClosedList, Counter, IndexedTable, Opened};
use crate::rule::{Knows, OneList, Swaps};
use crate::seat::Told;
use crate::shown::{HandedOver, ShownTable, Tries};
use crate::table_edit::TableEdit;
use ospf_spf::RouteTable;
use std::alloc::{AllocError, Global};
use std::marker::Model;
use std::sync::atomic::Ordering;
use std::sync::{Arc, Wait};
use std::thread;

pub(crate) type Copies = left_right::writer::Writer<ShownTable, HandedOver, Knows, OneList>;

pub(crate) struct Publisher {
    pub copies: Copies,
    pub list: ClosedList,
    // What readers will find once all changes in the log are shown.
    pub handed: RouteTable,
    pub tries: Arc<Tries>,
    pub alloc: Global,
}

impl Model for Publisher {
    ghost use Rattle.std.specs.Prelude.{◌≡◌, drop};
    ghost use Rattle.std.specs.Arc.{arc_value};
    ghost use Rattle.left_right.specs.Sides.{view as view_of};
    ghost use Rattle.ospf_fib.specs.PrefixIndex.Known.{Known};
    ghost use Rattle.ospf_fib.specs.PrefixIndex.Rule.{counter_of};
    ghost use Rattle.ospf_fib.specs.Rule.{IsKnownBook};
    ghost use Rattle.ospf_fib.specs.Writing.{IsListShown, shown_end};

    ghost Value = { Known };

    ghost view = { λ d. d.list.known };

    ghost invariant = { λ d. IsKnownBook (view_of d.copies.desk.place) d.list.known.fib
        × IsListShown d.copies.desk.shown.value d.list.known
        × ((shown_end d.copies.desk.shown.value (drop d.copies.behind d.copies.log.items)).table
        ≡ d.handed)
        × ((arc_value d.tries).counter ≡ counter_of d.list.known.fib) };
}

impl Publisher {
    /// The table that readers find.
    pub fn shown(&self) -> &IndexedTable
        ensures { EndsWith self.now.tables result.now }
    {
        &self.copies.published().table
    }

    /// Publishes a table. At `Err` what readers find and the list are unchanged.
    pub fn publish<R: Wait>(
        self,
        rt: &R,
        table: &RouteTable,
    ) -> (Publisher, Result<Told, AllocError>)
        ensures fib { result.0.fib ≡ self.fib }
        ensures published { IfOk result.1 (λ _. result.0.tables ≡ self.tables ++ table.now ∷ []) }
        ensures told { IfOk result.1 (λ told. told ≡ result.0) }
        ensures refused { OnErr result.1 (result.0.tables ≡ self.tables) }
    {
        match self.opened() {
            Ok(open) => open.publish_table(rt, table),
            Err(publisher) => (publisher, Err(AllocError)),
        }
    }

    /// Publishes the last table with these changes. At `Err` what readers find
    /// and the list are unchanged.
    pub fn publish_changes<R: Wait>(
        self,
        rt: &R,
        changes: Changes,
    ) -> (Publisher, Result<Told, AllocError>)
        ensures fib { result.0.fib ≡ self.fib }
        ensures published { IfOk result.1 (λ _. AddsEdited self.tables changes result.0.tables) }
        ensures told { IfOk result.1 (λ told. told ≡ result.0) }
        ensures refused { OnErr result.1 (result.0.tables ≡ self.tables) }
    {
        match self.opened() {
            Ok(open) => open.publish_changes(rt, changes),
            Err(publisher) => (publisher, Err(AllocError)),
        }
    }

    // Opens the list. The publisher comes back unchanged if the list
    // has no room for three more steps.
    fn opened(self) -> Result<OpenPublisher, Publisher>
        ensures opened { IfOk result (λ opened. opened.list ≡ self) }
        ensures full { IfErr result (λ publisher. publisher ≡ self) }
    {
        let Publisher {
            copies,
            list,
            handed,
            tries,
            alloc,
        } = self;
        match list.open(&tries.counter) {
            Ok(opened) => Ok(OpenPublisher {
                copies,
                opened,
                handed,
                tries,
                alloc,
            }),
            Err(list) => Err(Publisher {
                copies,
                list,
                handed,
                tries,
                alloc,
            }),
        }
    }

    /// What is published.
    fn told(&self) -> Told
        ensures { result ≡ self.now }
    {
        Told {
            known: self.list.known(),
        }
    }
}

// Closes the list again. Nothing but this publish adds a table meanwhile, which is not proved.
pub(crate) fn closed<R: Wait>(rt: &R, opened: &Opened, counter: &Counter) -> ClosedList
    requires { counter.now ≡ counter_of opened.now.fib }
    ensures { result.known ≡ opened.now }
{
    if let Some(list) = opened.close(counter) {
        return list;
    }
    wait_forever(rt);
    unreachable!()
}

// From now on readers find all changes in the log. At `Err` they find what they found before.
pub(crate) fn show<R: Wait>(copies: Copies, rt: &R) -> (Copies, Result<(), AllocError>)
    requires { (shown_end copies.desk.shown.value (drop copies.behind copies.log.items)).list.fib
        ≡ copies.desk.shown.value.known.fib }
    // Readers find where the log led, under the same place, and no change is left in the log.
    ensures shown { IfOk result.1 (λ _. common_of result.0.desk.shown.value
        ≡ shown_end copies.desk.shown.value (drop copies.behind copies.log.items)) }
    ensures named { IfOk result.1 (λ _. IsKnownBook (view result.0.desk.place)
        result.0.desk.shown.value.known.fib) }
    ensures done { IfOk result.1 (λ _. drop result.0.behind result.0.log.items ≡ []) }
    // If it is refused, readers find what they found before, and the log waits as before.
    ensures same { OnErr result.1 ((result.0.desk.shown.value ≡ copies.desk.shown.value)
        × (view result.0.desk.place ≡ view copies.desk.place)) }
    ensures waiting { OnErr result.1 (drop result.0.behind result.0.log.items
        ≡ drop copies.behind copies.log.items) }
{
    copies.publish_as::<Swaps, R>(rt)
}

/// Changes for the log, with the memory to keep up with them.
#[derive(Drop)]
struct HandOver {
    changes: Changes,
    edit: TableEdit,
    tries: Arc<Tries>,
    number: u64,
}

/// The publisher while the list is open, which it is only within a publish.
struct OpenPublisher {
    copies: Copies,
    opened: Opened,
    handed: RouteTable,
    tries: Arc<Tries>,
    alloc: Global,
}

impl Model for OpenPublisher {
    ghost use Rattle.std.specs.Prelude.{◌≡◌, drop};
    ghost use Rattle.std.specs.Arc.{arc_value};
    ghost use Rattle.left_right.specs.Sides.{view as view_of};
    ghost use Rattle.ospf_fib.specs.PrefixIndex.Rule.{counter_of};
    ghost use Rattle.ospf_fib.specs.Rule.{IsKnownBook};
    ghost use Rattle.ospf_fib.specs.Writing.{IsListShown, Offer, shown_end};

    ghost Value = { Offer };

    ghost view = { λ d. record {
      list = d.opened;
      end = shown_end d.copies.desk.shown.value (drop d.copies.behind d.copies.log.items);
    } };

    ghost invariant = { λ d. IsKnownBook (view_of d.copies.desk.place) d.opened.fib
        × IsListShown d.copies.desk.shown.value d.opened
        × ((shown_end d.copies.desk.shown.value (drop d.copies.behind d.copies.log.items)).table
        ≡ d.handed)
        × ((arc_value d.tries).counter ≡ counter_of d.opened.fib) };
}

impl OpenPublisher {
    // Closes the list, which is unchanged.
    fn close<R: Wait>(self, rt: &R) -> Publisher
        ensures { result ≡ self.list }
    {
        let OpenPublisher {
            copies,
            opened,
            handed,
            tries,
            alloc,
        } = self;
        let list = closed(rt, &opened, &tries.counter);
        Publisher {
            copies,
            list,
            handed,
            tries,
            alloc,
        }
    }

    // Adds changes to the log. At `Err` nothing was added.
    fn hand_over(self, plan: HandOver) -> (OpenPublisher, Result<(), AllocError>)
        // The plan is whole: its edit makes its changes of this table, and it counts for this list.
        requires edit { changes_of plan.edit ≡ plan.changes }
        requires can_make { CanMake plan.edit self.end.table }
        requires counter { (arc_value plan.tries).counter ≡ counter_of self.list.fib }
        // Then the log leads to the edited table, at the end of the same list.
        ensures list { result.0.list ≡ self.list }
        ensures handed { OnOk result.1 (result.0.end.list
            ≡ with_table self.list (edited self.end.table plan.changes)) }
    {
        let OpenPublisher {
            mut copies,
            opened,
            mut handed,
            tries,
            alloc,
        } = self;
        let HandOver {
            changes,
            edit,
            tries: shared,
            number,
        } = plan;
        let next = HandedOver {
            is_opening: false,
            number,
            changes,
            known: opened.copy(),
            tries: shared,
            alloc,
        };
        if let Err(_refused) = copies.append(next) {
            let open = OpenPublisher {
                copies,
                opened,
                handed,
                tries,
                alloc,
            };
            return (open, Err(AllocError));
        }
        edit.make(alloc, &mut handed);
        let open = OpenPublisher {
            copies,
            opened,
            handed,
            tries,
            alloc,
        };
        (open, Ok(()))
    }

    // Shows readers all changes in the log. At `Err` they find what they found, and the log waits.
    fn show<R: Wait>(self, rt: &R) -> (Publisher, Result<(), AllocError>)
        requires { self.end.list.fib ≡ self.list.fib }
        ensures shown { OnOk result.1 (result.0 ≡ self.end.list) }
        ensures refused { OnErr result.1 (result.0 ≡ self.list) }
    {
        let OpenPublisher {
            copies,
            opened,
            handed,
            tries,
            alloc,
        } = self;
        let (copies, done) = show(copies, rt);
        let list = match done {
            Ok(()) => closed_shown(rt, copies.published(), &tries.counter),
            Err(_) => closed(rt, &opened, &tries.counter),
        };
        let publisher = Publisher {
            copies,
            list,
            handed,
            tries,
            alloc,
        };
        (publisher, done)
    }

    // Publishes a table, by its changes. At `Err` nothing is published.
    fn publish_table<R: Wait>(
        self,
        rt: &R,
        table: &RouteTable,
    ) -> (Publisher, Result<Told, AllocError>)
        ensures fib { result.0.fib ≡ self.list.fib }
        ensures published { IfOk result.1 (λ _. result.0.tables ≡ self.list.tables
            ++ table.now ∷ []) }
        ensures told { IfOk result.1 (λ told. told ≡ result.0) }
        ensures refused { OnErr result.1 (result.0.tables ≡ self.list.tables) }
    {
        match planned_to(self.alloc, &self.handed, &self.tries, table) {
            Ok(plan) => self.publish(rt, plan),
            Err(error) => (self.close(rt), Err(error)),
        }
    }

    // Publishes the last table of the list with these changes. At `Err` nothing is published.
    fn publish_changes<R: Wait>(
        self,
        rt: &R,
        changes: Changes,
    ) -> (Publisher, Result<Told, AllocError>)
        ensures fib { result.0.fib ≡ self.list.fib }
        ensures published { IfOk result.1 (λ _. AddsEdited self.list.tables changes
            result.0.tables) }
        ensures told { IfOk result.1 (λ told. told ≡ result.0) }
        ensures refused { OnErr result.1 (result.0.tables ≡ self.list.tables) }
    {
        // A change that was refused still waits in the log, and is shown with the next one.
        // Then the whole table is needed.
        if self.copies.has_pending_operations() {
            return self.publish_edited(rt, changes);
        }
        match planned(self.alloc, &self.handed, &self.tries, changes) {
            Ok(plan) => self.publish(rt, plan),
            Err(error) => (self.close(rt), Err(error)),
        }
    }

    // The same by way of the whole table.
    fn publish_edited<R: Wait>(
        self,
        rt: &R,
        changes: Changes,
    ) -> (Publisher, Result<Told, AllocError>)
        ensures fib { result.0.fib ≡ self.list.fib }
        ensures published { IfOk result.1 (λ _. AddsEdited self.list.tables changes
            result.0.tables) }
        ensures told { IfOk result.1 (λ told. told ≡ result.0) }
        ensures refused { OnErr result.1 (result.0.tables ≡ self.list.tables) }
    {
        match edited_copy(self.alloc, self.shown().table(), &changes) {
            Ok(table) => self.publish_table(rt, &table),
            Err(error) => (self.close(rt), Err(error)),
        }
    }

    // The table that readers find.
    fn shown(&self) -> &IndexedTable
        ensures { EndsWith self.now.list.tables result.now }
    {
        &self.copies.published().table
    }

    // Publishes the table that the changes lead to.
    fn publish<R: Wait>(self, rt: &R, plan: HandOver) -> (Publisher, Result<Told, AllocError>)
        // The plan is whole: its edit makes its changes of this table, and it counts for this list.
        requires edit { changes_of plan.edit ≡ plan.changes }
        requires can_make { CanMake plan.edit self.end.table }
        requires counter { (arc_value plan.tries).counter ≡ counter_of self.list.fib }
        // The list gets the edited table, or is unchanged, and the result knows it.
        ensures fib { result.0.fib ≡ self.list.fib }
        ensures published { IfOk result.1 (λ _. result.0.tables ≡ self.list.tables
            ++ edited self.end.table plan.changes ∷ []) }
        ensures told { IfOk result.1 (λ told. told ≡ result.0) }
        ensures refused { OnErr result.1 (result.0.tables ≡ self.list.tables) }
    {
        let (open, handed) = self.hand_over(plan);
        if let Err(error) = handed {
            return (open.close(rt), Err(error));
        }
        let (publisher, shown) = open.show(rt);
        match shown {
            Ok(()) => {
                let told = publisher.told();
                (publisher, Ok(told))
            }
            Err(error) => (publisher, Err(error)),
        }
    }
}

// The changes from the table that the log leads to, to this table, in a try of their own.
fn planned_to(
    alloc: Global,
    handed: &RouteTable,
    tries: &Arc<Tries>,
    table: &RouteTable,
) -> Result<HandOver, AllocError>
    ensures changes { IfOk result (λ plan. edited handed.now plan.changes ≡ table.now) }
    ensures edit { IfOk result (λ plan. changes_of plan.edit ≡ plan.changes) }
    ensures can_make { IfOk result (λ plan. CanMake plan.edit handed.now) }
    ensures tries { IfOk result (λ plan. arc_value plan.tries ≡ arc_value tries.now) }
{
    let changes = handed.changes(alloc, table)?;
    planned(alloc, handed, tries, Changes::of(changes))
}

// These changes of the table that the log leads to, in a try of their own.
fn planned(
    alloc: Global,
    handed: &RouteTable,
    tries: &Arc<Tries>,
    changes: Changes,
) -> Result<HandOver, AllocError>
    ensures changes { IfOk result (λ plan. plan.changes ≡ changes) }
    ensures edit { IfOk result (λ plan. changes_of plan.edit ≡ plan.changes) }
    ensures can_make { IfOk result (λ plan. CanMake plan.edit handed.now) }
    ensures tries { IfOk result (λ plan. arc_value plan.tries ≡ arc_value tries.now) }
{
    let edit = TableEdit::new(alloc, handed, changes.as_slice())?;
    let tries = Arc::try_clone(tries)?;
    let number = tries.present.load(Ordering::SeqCst).wrapping_add(1);
    tries.present.store(number, Ordering::SeqCst);
    Ok(HandOver {
        changes,
        edit,
        tries,
        number,
    })
}

// A copy of a table, with changes.
fn edited_copy(
    alloc: Global,
    table: &RouteTable,
    changes: &Changes,
) -> Result<RouteTable, AllocError>
    ensures { IfOk result (λ copy. copy ≡ edited table.now changes.now) }
{
    let mut copy = table.copy(alloc)?;
    copy.edit(alloc, changes.as_slice())?;
    Ok(copy)
}

// Waits forever.
fn wait_forever<R: Wait>(rt: &R)
    ensures { ⊥ }
{
    for _ in rt.forever() {
        thread::yield_now();
    }
    unreachable!()
}

// The list that what is shown ends is closed again. The table was added to it before it
// was shown, which is not proved.
fn closed_shown<R: Wait>(rt: &R, shown: &ShownTable, counter: &Counter) -> ClosedList
    requires { counter.now ≡ counter_of shown.now.known.fib }
    ensures live { shown.now.live ≡ true }
    ensures list { result.known ≡ shown.now.known }
{
    if !shown.live {
        wait_forever(rt);
    }
    closed(rt, &shown.known, counter)
}
