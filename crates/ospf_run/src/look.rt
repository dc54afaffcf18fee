//! Threads that look up an address while the drivers run.

ghost use Rattle.std.specs.Prelude.{IfSome};
ghost use Rattle.ospf_fib.specs.PrefixIndex.Known.{Known};
ghost use Rattle.ospf_run.specs.Lookups.{IsFrom, Follows};

use ospf_base::Addr;
use ospf_fib::Seat;
use std::alloc::{AllocError, Global};
use std::marker::Model;
use std::snapshot::Snapshot;
use std::sync::atomic::{AtomicBool, Ordering};
use std::sync::{Arc, Wait};
use std::thread;
use std::thread::{Promise, PromisedHandle, Threads};
use std::time::{Clock, Duration};

// How long a thread waits between two looks, in milliseconds.
const BETWEEN_LOOKS: u64 = 10;

/// Whether the drivers are done: the threads that look up check this from time to time.
pub(crate) type Done = Arc<AtomicBool, Global>;

/// A thread that looks up an address. Proofs see what its seat knew at the start.
#[derive(Drop)]
pub(crate) struct Looking {
    handle: PromisedHandle<Seat, SeatOf>,
}

impl Model for Looking {
    ghost use Rattle.ospf_fib.specs.PrefixIndex.Known.{Known};

    ghost Value = { Known };

    ghost view = { λ l. l.handle.promise.0.value };
}

/// The seat of a router.
#[derive(Drop)]
pub(crate) enum RouterSeat {
    /// Nothing is looked up from it.
    Idle(Seat),
    Looking(Looking),
    /// The thread did not start.
    NotStarted,
}

impl RouterSeat {
    /// Returns the seat, once nothing is looked up from it any more; `None` if the thread did not
    /// start.
    pub(crate) fn into_seat<S: Threads>(self, rt: &S) -> Option<Seat>
        ensures { (k : Known) → IsFrom k self → IfSome result (Follows k) }
    {
        match self {
            RouterSeat::Idle(seat) => Some(seat),
            RouterSeat::Looking(Looking { handle }) => Some(handle.join(rt)),
            RouterSeat::NotStarted => None,
        }
    }
}

/// Starts a thread that looks up the address from the seat until `done` is set, if there is an
/// address.
pub(crate) fn start_lookup<S: Threads + Wait + Clock + Copy + Send + 'static>(
    rt: S,
    seat: Seat,
    lookup: Option<Addr>,
    done: &Done,
) -> RouterSeat
    ensures { IsFrom seat result }
{
    let Some(address) = lookup else {
        return RouterSeat::Idle(seat);
    };
    match Arc::try_clone(done) {
        Ok(done) => start_looking(rt, seat, address, done),
        Err(AllocError) => RouterSeat::NotStarted,
    }
}

// What a thread will return: its seat, at the same table, which knows no less than before.
#[derive(Drop)]
struct SeatOf(Snapshot<Seat>);

impl Promise<Seat> for SeatOf {
    ghost kept_by = { λ p seat. Follows p.0.value seat };
}

// Starts a thread that looks up an address.
fn start_looking<S: Threads + Wait + Clock + Copy + Send + 'static>(
    rt: S,
    seat: Seat,
    address: Addr,
    done: Done,
) -> RouterSeat
    ensures { IsFrom seat result }
{
    let promise = SeatOf(Snapshot::of(&seat));
    let thread = thread::spawn_with(&rt, promise, move || -> Seat {
        look_until(&rt, seat, address, &done)
    });
    match thread {
        Ok(handle) => RouterSeat::Looking(Looking { handle }),
        Err(_) => RouterSeat::NotStarted,
    }
}

// Looks up the address from time to time, until the drivers are done.
fn look_until<S: Wait + Clock>(rt: &S, seat: Seat, address: Addr, done: &Done) -> Seat
    ensures { Follows seat result }
{
    let mut seat = look_once(seat, address);
    for _ in rt.forever() {
        if done.load(Ordering::SeqCst) {
            return seat;
        }
        thread::sleep(rt, Duration::from_millis(BETWEEN_LOOKS));
        seat = look_once(seat, address);
    }
    unreachable!()
}

// Looks up the address once and returns the seat.
fn look_once(mut seat: Seat, address: Addr) -> Seat
    ensures { Follows seat result }
{
    let _ = seat.lookup(address, 0);
    seat
}
