//! What goes out on a link.

ghost use Rattle.std.specs.Prelude.{◌≡◌, ◌∷◌, [], OnOk};
ghost use Rattle.ospf_base.specs.Constants.{router_options};
ghost use Rattle.ospf_area.specs.Packets.{dd_packet, lsa_packet, request_packet};
ghost use Rattle.ospf_area.specs.Outboxes.{and_packets};
ghost use Rattle.ospf_packet.specs.Meaning as meaning;
ghost use Rattle.ospf_packet.specs.Said.{body_meant};

use crate::asking::request_body;
use crate::outbox::{LinkContext, Outbox};
use crate::sending::to_address;
use ospf_base::{Addr, OPTIONS};
use ospf_lsa::{Lsa, LsaHeader};
use ospf_neighbour::{Exchanging, Neighbour};
use ospf_packet::{BodyValue, Description};
use std::alloc::AllocError;

/// A Database Description with these headers, of an exchange in
/// this state (RFC 2328, section 10.8).
pub fn description_body(mtu: u16, exchanging: Exchanging, headers: Vec<LsaHeader>) -> BodyValue
    ensures { body_meant result ≡ meaning.description
        (record {
          mtu = mtu;
          options = router_options;
          flags = exchanging.flags;
          number = exchanging.number;
        })
        headers.items }
{
    let fields = Description {
        mtu,
        options: OPTIONS,
        flags: exchanging.flags,
        number: exchanging.number,
    };
    BodyValue::Description(fields, headers)
}

/// Sends a neighbour its last Database Description (RFC 2328, section 10.8).
///
/// `AllocError` where memory runs out; then the router must be stopped.
pub fn send_dd(
    neighbour: &Neighbour,
    at: &LinkContext,
    outbox: &mut Outbox,
) -> Result<(), AllocError>
    ensures next { outbox.new.next ≡ outbox.old.next }
    ensures sent { OnOk result
        (outbox.new
        ≡ and_packets outbox.old (dd_packet at.now.iface at.now.local.mtu neighbour.now ∷ [])) }
{
    let headers = Vec::from_slice(outbox.alloc(), neighbour.last_dd())?;
    let body = description_body(at.local.mtu, neighbour.exchanging(), headers);
    outbox.put(to_address(&at.iface, neighbour.address()), body)
}

/// Sends a neighbour its last Request (RFC 2328, section 10.9).
///
/// `AllocError` where memory runs out; then the router must be stopped.
pub fn send_request(
    neighbour: &Neighbour,
    at: &LinkContext,
    outbox: &mut Outbox,
) -> Result<(), AllocError>
    ensures { OnOk result (outbox.new ≡ and_packets outbox.old
        (request_packet at.now.iface neighbour.now ∷ [])) }
{
    let body = request_body(neighbour, outbox.alloc())?;
    outbox.put(to_address(&at.iface, neighbour.address()), body)
}

/// Sends an LSA in an Update of its own.
///
/// `AllocError` where memory runs out; then the router must be stopped.
pub fn send_lsa(lsa: Lsa, destination: Addr, outbox: &mut Outbox) -> Result<(), AllocError>
    ensures { OnOk result (outbox.new ≡ and_packets outbox.old (lsa_packet destination lsa ∷ [])) }
{
    let mut lsas = Vec::new(outbox.alloc());
    lsas.push(lsa)?;
    outbox.put(destination, BodyValue::Update(lsas))
}
