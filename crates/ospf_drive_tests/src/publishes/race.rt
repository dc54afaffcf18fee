//! Three threads: a seat that gets the message of a publish, one that gets none, and a writer.

ghost use Rattle.std.specs.Prelude.{◌≡◌};
ghost use Rattle.logbook.specs.Pages.{Book};
ghost use denote.Param.Send.{IsSend, IsSync};

use crate::given::{FAR, far_answer, two_routers};
use ospf_fib::{Fib, Seat, Told, Writer};
use ospf_spf::RouteTable;
use std::alloc::{AllocError, Global};
use std::marker::{Brand, PhantomData};
use std::sync::atomic::{AtomicU64, Ordering};
use std::sync::{Mutex, Wait};
use std::test::Fail;
use std::thread;
use std::thread::{Threads, join};

// The most turns of a wait.
const TURNS: u32 = 1_000_000_000;

// The version that is published last.
const LAST: u64 = 65;

/// Which forwarding table it is. The caller of a race picks it.
pub trait Room {
    ghost fib: { Book };
}

impl Room for Brand {
    ghost fib = { record { number = 0; log_name = 0; cells_name = 0 } };
}

#[derive(Drop)]
struct Message<J: Room> {
    told: Told,
    room: PhantomData<J>,
    ghost here: { told.fib ≡ J.fib },
}

fn make_message<J: Room>(told: Told) -> Message<J>
    requires { told.fib ≡ J.fib }
{
    Message {
        told,
        room: PhantomData,
    }
}

// How far each thread has come: what has been raised, by its sign.
#[derive(Drop)]
struct Signs {
    asked: AtomicU64,
    learned: AtomicU64,
    found: AtomicU64,
    published: AtomicU64,
    checked: AtomicU64,
}

impl Signs {
    fn new() -> Signs {
        Signs {
            asked: AtomicU64::new(0),
            learned: AtomicU64::new(0),
            found: AtomicU64::new(0),
            published: AtomicU64::new(0),
            checked: AtomicU64::new(0),
        }
    }
}

fn raise(sign: &AtomicU64, to: u64) {
    sign.store(to, Ordering::SeqCst);
}

fn wait_for(sign: &AtomicU64, value: u64) -> bool {
    for _ in 0..TURNS {
        if sign.load(Ordering::SeqCst) == value {
            return true;
        }
        thread::yield_now();
    }
    false
}

// Learns what is in the box, once something is.
fn wait_to_learn<J: Room, R: Wait>(
    rt: &R,
    seat: &mut Seat,
    mail: &Mutex<Option<Message<J>>>,
) -> bool
    requires { seat.old.fib ≡ J.fib }
    ensures { seat.new.fib ≡ J.fib }
{
    for _ in 0..TURNS {
        let found = mail.lock(rt).take();
        if let Some(message) = found {
            seat.learn(message.told);
            return true;
        }
        thread::yield_now();
    }
    false
}

// Finds nothing, gets the message of a publish, and finds its answer.
fn told_seat<J: Room, R: Wait>(
    rt: &R,
    mut seat: Seat,
    signs: &Signs,
    mail: &Mutex<Option<Message<J>>>,
) -> bool
    requires { seat.fib ≡ J.fib }
{
    let before = seat.lookup(FAR, 0) == Ok(None);
    raise(&signs.asked, 1);
    let learned = wait_to_learn(rt, &mut seat, mail);
    let after = seat.lookup(FAR, 0) == Ok(Some(far_answer(1, 15)));
    raise(&signs.learned, 1);
    before && learned && after
}

// Gets no message, and finds the first publish at some time, and each later one in its next lookup.
fn untold_seat(mut seat: Seat, signs: &Signs) -> bool {
    let mut right = false;
    for _ in 0..TURNS {
        if let Ok(Some(answer)) = seat.lookup(FAR, 0) {
            right = answer == far_answer(1, 15);
            break;
        }
    }
    raise(&signs.found, 1);
    for k in 2..=LAST {
        let raised = wait_for(&signs.published, k);
        let answer = seat.lookup(FAR, 0);
        right = right && raised && answer == Ok(Some(far_answer(k, k.wrapping_add(10))));
        raise(&signs.checked, k);
    }
    right
}

// Publishes the first table and passes on its message, then each other table once the last was
// checked. It keeps the writer until all is checked.
fn publishes<J: Room, R: Wait + Drop, S: Wait>(
    mut writer: Writer<R>,
    rt: &S,
    tables: &[RouteTable],
    signs: &Signs,
    mail: &Mutex<Option<Message<J>>>,
) -> Result<bool, AllocError>
    requires { writer.fib ≡ J.fib }
{
    let [first, later @ ..] = tables else {
        return Ok(false);
    };
    if !wait_for(&signs.asked, 1) {
        return Ok(false);
    }
    let told = writer.publish(first)?;
    *mail.lock(rt) = Some(make_message(told));
    if !wait_for(&signs.learned, 1) || !wait_for(&signs.found, 1) {
        return Ok(false);
    }
    let mut k = 1u64;
    for table in later {
        let _told = writer.publish(table)?;
        k = k.wrapping_add(1);
        raise(&signs.published, k);
        if !wait_for(&signs.checked, k) {
            return Ok(false);
        }
    }
    Ok(k == LAST)
}

fn race<J: Room + Send + Sync, R: Threads + Wait + Sync>(
    rt: &R,
    writer: Writer<&R>,
    tables: &[RouteTable],
    told: Seat,
    untold: Seat,
) -> bool
    requires { (writer.fib ≡ J.fib) × (told.fib ≡ J.fib) }
{
    let mail: Mutex<Option<Message<J>>> = Mutex::new(None);
    let signs = Signs::new();
    let (mail, signs) = (&mail, &signs);
    let (by_told, by_others) = join(
        rt,
        move || told_seat(rt, told, signs, mail),
        move || -> bool
            requires { IsSync R.row × IsSend J.row × IsSync J.row × (writer.fib ≡ J.fib) }
        { writer_and_untold_seat(rt, writer, tables, untold, signs, mail) },
    );
    by_told && by_others
}

fn writer_and_untold_seat<J: Room + Send + Sync, R: Threads + Wait + Sync>(
    rt: &R,
    writer: Writer<&R>,
    tables: &[RouteTable],
    untold: Seat,
    signs: &Signs,
    mail: &Mutex<Option<Message<J>>>,
) -> bool
    requires { writer.fib ≡ J.fib }
{
    let (by_writer, by_untold) = join(
        rt,
        move || publishes(writer, rt, tables, signs, mail),
        move || untold_seat(untold, signs),
    );
    by_untold && matches!(by_writer, Ok(true))
}

fn opened_race<R: Threads + Wait + Sync>(rt: &R, alloc: Global, tables: &[RouteTable]) -> bool {
    let Ok((writer, mut seats)) = Fib::open(alloc, rt, 2) else {
        return false;
    };
    match (seats.pop(), seats.pop()) {
        (Some(untold), Some(told)) => race::<Brand, R>(rt, writer, tables, told, untold),
        _ => false,
    }
}

#[test]
fn told_and_untold_seat_beside_a_writer(rt: HostRuntime) -> Result<(), Fail> {
    let alloc = rt.alloc();
    let mut tables = Vec::new(alloc);
    tables.push(two_routers(alloc, 5)?)?;
    for cost in 2..=65 {
        tables.push(two_routers(alloc, cost)?)?;
    }
    assert!(rt; opened_race(&rt, alloc, &tables));
    Ok(())
}
