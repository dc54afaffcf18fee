//! The moments of datagrams.

ghost use Rattle.std.specs.Prelude.{◌≡◌, IfOk};
ghost use Rattle.ospf_views.specs.RecordFiles.Captures.{within_second};
ghost use Rattle.ospf_views.specs.RecordFiles.Stamps.{AreTicksRead, IsReadTo};

use crate::records::counts::count_one;
use crate::records::moment::Moment;
use ospf_world::Ticked;
use std::alloc::AllocError;
use std::collections::BTreeMap;

/// The last microsecond of a second.
const LAST_MICROSECOND: u32 = 999_999;

/// Counts the ticks by their routers, from the first that was not read to the last that came before
/// the datagram of this number, or sent it. The answer is how many ticks are read now.
pub(crate) fn read_ticks(
    clocks: &mut BTreeMap<u32, u32>,
    ticks: &[Ticked],
    read: usize,
    number: usize,
) -> Result<usize, AllocError>
    ensures { AreTicksRead ticks.now number read clocks.old →
        IfOk result (λ now. IsReadTo ticks.now number now clocks.new) }
{
    let mut next = read;
    while next < ticks.len() && ticks[next].sent <= number {
        count_one(clocks, ticks[next].router.0)?;
        next += 1;
    }
    Ok(next)
}

/// The moment of a datagram before which so many are of its second.
#[tactic(auto, unfolding(crate::specs::RecordFiles::Captures::within_second))]
pub(crate) fn moment_of(second: u32, before: u32) -> Moment
    ensures seconds { result.seconds ≡ second }
    ensures microseconds { result.microseconds ≡ within_second before }
{
    let microseconds = if before < LAST_MICROSECOND {
        before
    } else {
        LAST_MICROSECOND
    };
    Moment {
        seconds: second,
        microseconds,
    }
}
