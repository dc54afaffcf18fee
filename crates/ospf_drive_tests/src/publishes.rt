//! Lookups during publishes.

ghost use Rattle.std.specs.Prelude.{◌≡◌, IfOk};

use crate::given::{FAR, far_answer, two_routers};
use ospf_fib::{Fib, OpenRefused, Seat, Writer};
use ospf_spf::RouteTable;
use std::alloc::Global;
use std::sync::Wait;
use std::test::Fail;

mod race;

// A writer and one seat.
fn opened_one<R: Wait + Drop>(alloc: Global, rt: R) -> Result<(Writer<R>, Seat), OpenRefused>
    ensures { IfOk result (λ opened. opened.1 ≡ opened.0) }
{
    let (writer, mut seats) = Fib::open(alloc, rt, 1)?;
    match seats.pop() {
        Some(seat) => Ok((writer, seat)),
        None => Err(OpenRefused),
    }
}

// With no allocation refused it is six publishes. One that is refused changes
// nothing, and the next one succeeds.
#[test]
fn refused_publish_changes_nothing(rt: HostRuntime) -> Result<(), Fail> {
    let alloc = rt.alloc();
    let costs = [Some(15u64), None, Some(15), Some(17), Some(17), None];
    let tables = [
        two_routers(alloc, 5)?,
        RouteTable::empty(alloc),
        two_routers(alloc, 5)?,
        two_routers(alloc, 7)?,
        two_routers(alloc, 7)?,
        RouteTable::empty(alloc),
    ];
    let (mut writer, mut seat) = opened_one(alloc, &rt)?;
    let mut version = 0u64;
    let mut refused = 0u64;
    let mut shown = None;
    for (table, cost) in tables.iter().zip(costs.iter()) {
        match writer.publish(table) {
            Ok(_told) => {
                version = version.wrapping_add(1);
                shown = *cost;
            }
            Err(_) => refused = refused.wrapping_add(1),
        }
        let expected = shown.map(|cost| far_answer(version, cost));
        assert!(rt; seat.lookup(FAR, 0) == Ok(expected));
        assert!(rt; writer.shown().routes().is_empty() == shown.is_none());
    }
    // One allocation at most was refused.
    assert!(rt; refused <= 1 && version.wrapping_add(refused) == 6);
    Ok(())
}
