//! Link State Updates.

ghost use Rattle.std.specs.Prelude.{◌≡◌, ◌↔◌, IfOk, IsTrue, OnOk, true};
ghost use Rattle.ospf_area.specs.Sending.{and_sends};
ghost use Rattle.ospf_neighbour.specs.Neighbour.{is_empty};
ghost use Rattle.ospf_area.specs.Updates.Aging.{turned_area, turn_out};
ghost use Rattle.ospf_area.specs.Updates.Updates.{IsOtherLsa, IsTurned, leaves_turned, PassesOver, TakesSlice, TakesUpdate};

use crate::update::acks::send_direct;
use crate::update::aging::turn_in;
use crate::update::meeting::{follow, rule_met};
use crate::{Area, Outputs, PacketSource, is_taken};
use ospf_base::{LSA_HEADER, lsa_sum_holds, u16_at};
use ospf_exchange::is_other;
use ospf_flood::LsaRule;
use ospf_lsa::{LENGTH_AT, LsaHeader, LsaView, TYPE_AT};
use ospf_packet::Lsas;
use std::alloc::{AllocError, Global};

/// Processes an Update from the neighbour that sent it, which is in Exchange or above (RFC 2328,
/// section 13): each LSA in turn, with the Requests that follow from it, and then the direct
/// acknowledgements. The neighbours are visited for these Requests after the first LSA, and again
/// only where a flood, a restart or a Request came before.
///
/// `AllocError` when memory runs out; then the router must be stopped.
pub fn on_update(
    area: &mut Area,
    from: PacketSource,
    lsas: Lsas<'_>,
    out: &mut Outputs,
    alloc: Global,
) -> Result<(), AllocError>
    ensures { OnOk result (TakesUpdate from lsas.entry area.old out.old out.new area.new) }
{
    let mut is_turned = false;
    for bytes in lsas {
        is_turned = take_lsa(area, from, bytes, is_turned, out, alloc)?;
    }
    send_direct(area, from, out, alloc)
}

// An LSA, and then LoadingDone and the Requests that follow from it. No neighbour is visited for
// these where none waited for a turn before, and the rule keeps it that way. Returns whether none
// waits now.
fn take_lsa(
    area: &mut Area,
    from: PacketSource,
    bytes: &[u8],
    is_turned: bool,
    out: &mut Outputs,
    alloc: Global,
) -> Result<bool, AllocError>
    requires { is_turned ≡ true → IsTurned area.old }
    ensures takes { OnOk result (TakesSlice from bytes.now area.old out.old out.new area.new) }
    ensures turned { IfOk result (λ turned. turned ≡ true → IsTurned area.new) }
{
    // (13, steps 1 to 3)
    let lsa = match LsaView::read(bytes) {
        Ok(lsa) => lsa,
        Err(_) => {
            pass_over(area, from, bytes)?;
            return Ok(is_turned);
        }
    };
    // (13, steps 4 to 8)
    let rule = rule_met(area, from, &lsa);
    follow(rule, area, from, &lsa, out, alloc)?;
    if is_turned && leaves_turned(rule) {
        return Ok(true);
    }
    turn_and_tell(area, out, alloc)
}

// Whether an LSA of this rule leaves the state and the request list of each neighbour as they are.
fn leaves_turned(rule: Option<LsaRule>) -> bool
    ensures { result ≡ leaves_turned rule }
{
    !matches!(rule, Some(LsaRule::Installs | LsaRule::BadRequest))
}

// Turns all neighbours, and returns whether nothing was sent: then none waits for another turn.
fn turn_and_tell(area: &mut Area, out: &mut Outputs, alloc: Global) -> Result<bool, AllocError>
    ensures after { OnOk result (area.new ≡ turned_area area.old) }
    ensures sent { OnOk result (out.new ≡ and_sends out.old (turn_out area.old)) }
    ensures quiet { IfOk result (λ quiet. quiet ≡ is_empty (turn_out area.old)) }
{
    let before = out.sent.len();
    turn_in(area, out, alloc)?;
    Ok(out.sent.len() == before)
}

// (13, steps 1 to 3) A slice that is refused as a router-LSA or network-LSA. Where LSAs of LS types
// 3, 4 and 5 are passed over, one of these is acknowledged to its sender.
fn pass_over(area: &mut Area, from: PacketSource, bytes: &[u8]) -> Result<(), AllocError>
    ensures { OnOk result (PassesOver area.old.passes_over from bytes.now area.old area.new) }
{
    if area.passes_over && is_taken(&area.links, from) && is_other_lsa(bytes) {
        area.direct.push(LsaHeader::read(bytes))?;
    }
    Ok(())
}

// Whether bytes are an LSA of LS type 3, 4 or 5, as far as that is looked at: they are as long as
// it says, and its checksum holds.
fn is_other_lsa(bytes: &[u8]) -> bool
    ensures { IsTrue result ↔ IsOtherLsa bytes.now }
{
    bytes.len() >= LSA_HEADER
        && usize::from(u16_at(bytes, LENGTH_AT)) == bytes.len()
        && is_other(bytes[TYPE_AT])
        && lsa_sum_holds(bytes)
}
