//! The state of the neighbour that an Update or an Acknowledgment came from, and
//! how what it sent is acknowledged.

ghost use Rattle.std.specs.Prelude.{◌≡◌, false, is_some, None, OnOk, Some};
ghost use Rattle.std.specs.Option.{option_copied};
ghost use Rattle.ospf_area.specs.Standing.{answer_at, acknowledging};
ghost use Rattle.ospf_area.specs.State.{neighbour_at, some_link_loading, state_in};
ghost use Rattle.ospf_neighbour.specs.Lists.{is_listed, request_of};
ghost use Rattle.ospf_neighbour.specs.Machine.{is_exchanging};

use crate::changes::delay_at;
use crate::flooding::PacketSource;
use crate::state::{Area, AreaLink};
use ospf_base::{Instance, LsaKey};
use ospf_flood::{Acknowledgement, AcknowledgementCase, acknowledge, sender_at};
use ospf_lsa::LsaHeader;
use ospf_neighbour::Neighbour;
use std::alloc::AllocError;

/// The neighbour of the origin.
pub fn source_of(links: &[AreaLink], from: PacketSource) -> Option<&Neighbour>
    ensures { option_copied result ≡ neighbour_at links.now from.link from.router }
{
    match links.get(from.link) {
        Some(link) => link.neighbours.get(from.router),
        None => None,
    }
}

/// Whether the neighbour of the origin is in Exchange or above.
pub fn is_taken(links: &[AreaLink], from: PacketSource) -> bool
    ensures { result
        ≡ is_exchanging (state_in (neighbour_at links.now from.link from.router)) }
{
    match source_of(links, from) {
        Some(neighbour) => neighbour.is_exchanging(),
        None => false,
    }
}

/// Whether the request list of the neighbour of the origin has an entry of the key.
pub fn is_requested(links: &[AreaLink], from: PacketSource, key: &LsaKey) -> bool
    ensures { result ≡ (elim (neighbour_at links.now from.link from.router) [
      | None ↦ false
      | Some n ↦ is_some (request_of key.now n.requests)
    ]) }
{
    match source_of(links, from) {
        Some(neighbour) => neighbour.request_of(key).is_some(),
        None => false,
    }
}

/// Whether the instance waits for an acknowledgement by the neighbour of the origin.
pub fn is_awaited(links: &[AreaLink], from: PacketSource, instance: &Instance) -> bool
    ensures { result ≡ (elim (neighbour_at links.now from.link from.router) [
      | None ↦ false
      | Some n ↦ is_listed instance.now n.retransmission
    ]) }
{
    match source_of(links, from) {
        Some(neighbour) => neighbour.is_listed(instance),
        None => false,
    }
}

/// Whether some neighbour of the router is in Exchange or Loading. It looks at each; the rules ask
/// where an LSA of `MAX_AGE` has no copy, and a step where LSAs are to leave.
pub fn some_link_loading(links: &[AreaLink]) -> bool
    ensures { result ≡ some_link_loading links.now }
{
    links.iter().any(|link| link.neighbours.is_loading())
}

/// How an LSA that came from the origin must be acknowledged (RFC 2328, section 13.5).
pub fn answer_at(
    links: &[AreaLink],
    case: AcknowledgementCase,
    from: PacketSource,
) -> Acknowledgement
    ensures { result ≡ answer_at case from links.now }
{
    match links.get(from.link) {
        Some(link) => acknowledge(case, link.iface.state, sender_at(&link.iface, from.address)),
        None => Acknowledgement::None,
    }
}

/// Acknowledges a header: directly, once the Update is processed, or at the next tick, or not.
///
/// `AllocError` where memory runs out; then the router must be stopped.
pub fn acknowledge_by(
    area: &mut Area,
    answer: Acknowledgement,
    from: PacketSource,
    header: &LsaHeader,
) -> Result<(), AllocError>
    ensures { OnOk result (area.new ≡ acknowledging answer from header.now area.old) }
{
    match answer {
        Acknowledgement::None => {}
        Acknowledgement::Delayed => delay_at(&mut area.links, from.link, header)?,
        Acknowledgement::Direct => area.direct.push(*header)?,
    }
    Ok(())
}
