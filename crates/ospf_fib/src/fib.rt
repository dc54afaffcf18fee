//! Opening a forwarding table.

ghost use Rattle.std.specs.Prelude.{◌≡◌, ◌≤◌, All, IfOk, [], drop, length, true};
ghost use Rattle.std.specs.Arc.{arc_value};
ghost use Rattle.left_right.specs.Sides.{view};
ghost use Rattle.ospf_fib.specs.PrefixIndex.Known.{opening};
ghost use Rattle.ospf_fib.specs.PrefixIndex.Rule.{counter_of};
ghost use Rattle.ospf_fib.specs.Rule.{IsKnownBook};
ghost use Rattle.ospf_fib.specs.Writing.{IsListShown, shown_end};

use crate::changes::Changes;
use crate::index::{IndexedTable, Opened, Published};
use crate::publisher::{Copies, Publisher, closed, show};
use crate::rule::Tells;
use crate::seat::Seat;
use crate::shown::{HandedOver, ShownTable, Tries};
use crate::writer::Writer;
use ospf_spf::RouteTable;
use std::alloc::{AllocError, AllocFailed, Global};
use std::fmt::{self, Display, Formatter, Write};
use std::sync::atomic::AtomicU64;
use std::sync::{Arc, Wait};

/// The most seats that a forwarding table has.
pub const MAX_SEATS: usize = 64;

/// The forwarding table of a router, in which several threads look addresses up.
pub struct Fib;

impl Fib {
    /// A writer and this many seats. They know the opening table, which is empty and has version 0.
    /// The writer waits by the handle `rt`.
    ///
    /// `OpenRefused` where memory runs out, or there is no place for a seat.
    pub fn open<R: Wait + Drop>(
        alloc: Global,
        rt: R,
        seats: usize,
    ) -> Result<(Writer<R>, Vec<Seat>), OpenRefused>
        requires { (1 ≤ seats) × (seats ≤ MAX_SEATS) }
        ensures writer { IfOk result (λ opened. opened.0.tables ≡ opening) }
        ensures count { IfOk result (λ opened. length opened.1.items ≡ seats) }
        ensures seats { IfOk result (λ opened. All (λ seat. seat ≡ opened.0) opened.1.items) }
    {
        let (counter, opened) = Opened::new();
        let tries = Tries {
            counter,
            present: AtomicU64::new(0),
        };
        let tries = Arc::new(alloc, tries)?;
        let mut copies = opening_copies(alloc, &rt, &opened, &tries, seats)?;
        let known = opened.known();
        let list = closed(&rt, &opened, &tries.counter);
        let made = seats_of(alloc, &mut copies, &known, seats);
        // Where a seat was refused, the writer's end takes the copies.
        let publisher = Publisher {
            copies,
            list,
            handed: RouteTable::empty(alloc),
            tries,
            alloc,
        };
        let writer = Writer { publisher, rt };
        Ok((writer, made?))
    }
}

/// Memory ran out, or there was no place for a seat.
#[derive(Clone, Copy, Debug, PartialEq, Eq, thiserror::Error)]
pub struct OpenRefused;

/// Its name: `OpenRefused`.
impl Display for OpenRefused {
    ghost use Rattle.std.specs.Prelude.{Some};
    ghost use Rattle.ospf_fib.specs.Text.{open_refused_text};

    ghost output = { λ _. Some open_refused_text };

    fn fmt<W: Write>(&self, f: &mut Formatter<W>) -> fmt::Result {
        f.write_str("OpenRefused")
    }
}

impl From<AllocError> for OpenRefused {
    fn from(_error: AllocError) -> OpenRefused {
        OpenRefused
    }
}

impl<T: Drop> From<AllocFailed<T>> for OpenRefused {
    fn from(_error: AllocFailed<T>) -> OpenRefused {
        OpenRefused
    }
}

// Two copies of the opening table, with places for this many seats. The
// writer's place knows the list.
fn opening_copies<R: Wait>(
    alloc: Global,
    rt: &R,
    known: &Opened,
    tries: &Arc<Tries>,
    seats: usize,
) -> Result<Copies, AllocError>
    // Only the opening table is known.
    requires seats { (1 ≤ seats) × (seats ≤ MAX_SEATS) }
    requires opening { known.now.tables ≡ opening }
    requires counter { (arc_value tries.now).counter ≡ counter_of known.now.fib }
    // The writer knows its list, which is shown, and the log leads to a table without routes.
    ensures named { IfOk result (λ copies. IsKnownBook (view copies.desk.place) known.now.fib) }
    ensures shown { IfOk result (λ copies. IsListShown copies.desk.shown.value known.now) }
    ensures table { IfOk result (λ copies.
        (shown_end copies.desk.shown.value (drop copies.behind copies.log.items)).table ≡ []) }
{
    let next = opening_handed(alloc, known, tries)?;
    let one = opening_shown(alloc, known)?;
    let other = opening_shown(alloc, known)?;
    let mut copies = Copies::new(alloc, one, other, seats)?;
    let done = match copies.append(next) {
        Ok(()) => {
            let (later, done) = show(copies, rt);
            copies = later;
            done
        }
        Err(_refused) => Err(AllocError),
    };
    // What is shown is live. That is not proved.
    if done.is_ok() && copies.published().live {
        return Ok(copies);
    }
    drop(copies.take(rt));
    Err(AllocError)
}

fn opening_handed(
    alloc: Global,
    known: &Opened,
    tries: &Arc<Tries>,
) -> Result<HandedOver, AllocError>
    requires known { known.now.tables ≡ opening }
    requires counter { (arc_value tries.now).counter ≡ counter_of known.now.fib }
    ensures opens { IfOk result (λ handed. handed.is_opening ≡ true) }
    ensures known { IfOk result (λ handed. handed.known ≡ known.now) }
{
    Ok(HandedOver {
        is_opening: true,
        number: 0,
        changes: Changes::none(alloc),
        known: known.copy(),
        tries: Arc::try_clone(tries)?,
        alloc,
    })
}

fn opening_shown(alloc: Global, known: &Opened) -> Result<ShownTable, AllocError>
    requires { known.now.tables ≡ opening }
    ensures table { IfOk result (λ shown. shown.table ≡ []) }
    ensures known { IfOk result (λ shown. shown.known ≡ known.now) }
    ensures live { IfOk result (λ shown. shown.live ≡ true) }
{
    let table = IndexedTable::empty(alloc)?;
    Ok(ShownTable {
        live: true,
        table,
        known: known.copy(),
    })
}

// This many seats at the copies.
fn seats_of(
    alloc: Global,
    copies: &mut Copies,
    known: &Published,
    count: usize,
) -> Result<Vec<Seat>, OpenRefused>
    requires { IsKnownBook (view copies.old.desk.place) known.now.fib }
    // The copies show what they showed.
    ensures named { IsKnownBook (view copies.new.desk.place) known.now.fib }
    ensures shown { copies.new.desk.shown ≡ copies.old.desk.shown }
    ensures waiting { drop copies.new.behind copies.new.log.items
        ≡ drop copies.old.behind copies.old.log.items }
    // There are this many seats, and each knows the list.
    ensures count { IfOk result (λ seats. length seats.items ≡ count) }
    ensures seats { IfOk result (λ seats. All (λ seat. seat ≡ known.now) seats.items) }
{
    let mut seats = Vec::with_capacity(alloc, count)?;
    for _ in 0..count {
        seats.push(seat_of(copies, known)?)?;
    }
    Ok(seats)
}

// A seat at the copies, which gets the list that they show.
fn seat_of(copies: &mut Copies, known: &Published) -> Result<Seat, AllocError>
    requires { IsKnownBook (view copies.old.desk.place) known.now.fib }
    // The copies show what they showed.
    ensures named { IsKnownBook (view copies.new.desk.place) known.now.fib }
    ensures shown { copies.new.desk.shown ≡ copies.old.desk.shown }
    ensures waiting { drop copies.new.behind copies.new.log.items
        ≡ drop copies.old.behind copies.old.log.items }
    // The seat knows the list.
    ensures seat { IfOk result (λ seat. seat ≡ known.now) }
{
    let mut reader = copies.factory().reader()?;
    reader.learn::<Tells>(copies.tell::<Tells>());
    Ok(Seat::new(reader, known.copy()))
}
