//! A driver over the wire in memory, for which an allocation is refused.

use crate::given::{CONFIG, HELLO, NO_FLOOR};
use ospf_base::Addr;
use ospf_config::Config;
use ospf_drive::{DriveFault, MemoryWire, Scripted, Wire, drive};
use ospf_fib::Fib;
use ospf_router::{Event, Router};
use std::alloc::{AllocError, Global};
use std::sync::Wait;
use std::test::Fail;

// An address of the link.
const NEAR: Addr = Addr(0x0a00_0002);

// The link goes up, a second passes, the Hello comes, four more pass, and the link goes
// down: the table changes twice.
fn script(alloc: Global) -> Result<Vec<Scripted>, AllocError> {
    let mut arrivals = Vec::with_capacity(alloc, 9)?;
    arrivals.push(Scripted::LinkUp { link: 0 })?;
    arrivals.push(Scripted::Tick)?;
    arrivals.push(Scripted::Datagram {
        link: 0,
        source: NEAR,
        destination: Addr(0xe000_0005),
        bytes: HELLO.to_vec(alloc)?,
    })?;
    for _ in 0..4u32 {
        arrivals.push(Scripted::Tick)?;
    }
    arrivals.push(Scripted::LinkDown { link: 0 })?;
    arrivals.push(Scripted::End)?;
    Ok(arrivals)
}

// How a drive came out: whether the router's table and the published
// one have a route over the link.
#[derive(Drop)]
struct Ended {
    driven: Result<bool, DriveFault>,
    has_route: bool,
    shows_route: bool,
    stands_still: bool,
    sent: usize,
    failures: u64,
}

// Drives a router by the script, and looks at what is left.
fn drive_all<R: Wait>(rt: &R, alloc: Global) -> Result<Ended, Fail> {
    let (mut writer, mut seats) = Fib::open(alloc, rt, 1)?;
    let mut seat = seats.pop().ok_or("a seat")?;
    let mut router = Router::start(&Config::from_text(alloc, CONFIG)?, 100, NO_FLOOR, alloc)?;
    let mut wire = MemoryWire::new(alloc, script(alloc)?, None, None);
    let driven = drive(rt, alloc, &mut router, &mut wire, &mut writer).map(|told| told.is_some());
    Ok(Ended {
        driven,
        has_route: router.table().lookup(NEAR).is_some(),
        shows_route: matches!(seat.lookup(NEAR, 0), Ok(Some(_))),
        stands_still: router.step(Event::Tick, alloc).is_err(),
        sent: wire.sent().len(),
        failures: wire.failures(),
    })
}

// Whether it is as the fault says. The first step sends and brings the route, a later one
// sends, and the last takes the route away: so as long as the drive goes on, the route is
// published once something was sent.
fn is_as_stated(ended: &Ended) -> bool {
    let goes_on = ended.shows_route == (ended.sent > 0);
    let failures = ended.failures;
    match ended.driven {
        Ok(told) => told && !ended.has_route && !ended.shows_route && failures == 0,
        Err(DriveFault::Stopped) => {
            ended.stands_still && !ended.has_route && goes_on && failures == 0
        }
        Err(DriveFault::Publish) => {
            let at_first = ended.has_route && !ended.shows_route && ended.sent == 1;
            let at_last = !ended.has_route && ended.shows_route && ended.sent == 2;
            (at_first || at_last) && !ended.stands_still && failures == 0
        }
        Err(DriveFault::Send) => ended.has_route && goes_on && failures == 1,
        Err(DriveFault::Recv | DriveFault::Thread) => false,
    }
}

// Where an allocation is refused, a drive says where: in a step, in a publish, or
// where the wire keeps what is sent.
#[test]
fn want_of_memory_ends_as_stated(rt: HostRuntime) -> Result<(), Fail> {
    let ended = drive_all(&rt, rt.alloc())?;
    if !is_as_stated(&ended) {
        return Err(Fail::from("not as stated"));
    }
    match ended.driven {
        Ok(_) => Ok(()),
        Err(DriveFault::Stopped) => Err(Fail::from("Memory: U3")),
        Err(DriveFault::Publish) => Err(Fail::from("Memory: U4")),
        Err(_) => Err(Fail::from("Memory: U2")),
    }
}
