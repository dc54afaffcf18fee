//! Received Requests.

ghost use Rattle.std.specs.Prelude.{◌≡◌, false, true, Some, IfOk, OnOk, slice_get, [], None};
ghost use Rattle.ospf_adjacency.specs.Answers.{answered_keys};
ghost use Rattle.ospf_neighbour.specs.Machine.{is_exchanging};
ghost use Rattle.ospf_neighbour.specs.Neighbour.{NeighbourValue};
ghost use Rattle.ospf_neighbour.specs.Neighbours.{AreNeighboursRising, neighbour_of};
ghost use Rattle.ospf_area.specs.Sending.{context_of};
ghost use Rattle.ospf_area.specs.State.{LinkValue};
ghost use Rattle.ospf_adjacency.specs.Heard.{neighbourhood};
ghost use Rattle.ospf_adjacency.specs.LinkSteps.Parts.{answered_on, left_beside, request_at, request_on, request_part, with_neighbourhood};
ghost use Rattle.ospf_adjacency.specs.LinkSteps.Repeats.{marked_all};
ghost use Rattle.ospf_adjacency.specs.LinkSteps.Works.{WorksOn};

use crate::link_steps::link::{iface_of, is_due, put_back, take_out};
use crate::link_steps::marks::mark_all;
use crate::{is_at, take_request as answer_to};
use ospf_area::{
    Area, AreaLink, LinkContext, Outbox, Outputs, PacketSource, RouterContext, context_of,
};
use ospf_base::LsaKey;
use ospf_lsdb::Lsdb;
use ospf_neighbour::{Neighbour, place_for};
use ospf_packet::Requests;
use std::alloc::{AllocError, Global};
use std::collections::BTreeSet;

/// Processes a Request received on a link of the router (RFC 2328, section 10.7) from a neighbour
/// in Exchange or above: the keys whose copies answer it are marked as sent in this tick. If its
/// sender or the link does not exist, nothing happens.
///
/// `AllocError` when memory runs out; then the router must be stopped.
pub fn take_request(
    area: &mut Area,
    from: PacketSource,
    requests: Requests<'_>,
    out: &mut Outputs,
    alloc: Global,
) -> Result<(), AllocError>
    requires { (link : LinkValue) → slice_get area.old.links from.link ≡ Some link
        → (n : NeighbourValue) → neighbour_of link.neighbours from.router ≡ Some n
        → is_exchanging n.state ≡ true }
    ensures { OnOk result (WorksOn
        (request_part (context_of area.old) from area.old.database requests.entry area.old.next_dd)
        from.link
        (record area.old {
          sent = marked_all
              (answered_on (slice_get area.old.links from.link) from.router
              area.old.database requests.entry)
              area.old.sent;
        })
        out.old out.new area.new) }
{
    let own = context_of(area);
    match area.links.get_mut(from.link) {
        Some(link) => {
            let iface = iface_of(link);
            let mut outbox = Outbox::new(area.next_dd, alloc);
            let keys = request_comes(link, from, requests, &area.database, own, &mut outbox)?;
            mark_all(&mut area.sent, &keys)?;
            area.next_dd = outbox.next();
            outbox.send_all(out, own, from.link, &iface)
        }
        None => Ok(()),
    }
}

// Processes a Request received on a link. Returns the keys whose copies are sent.
fn request_comes(
    link: &mut AreaLink,
    from: PacketSource,
    requests: Requests<'_>,
    database: &Lsdb,
    own: RouterContext,
    outbox: &mut Outbox,
) -> Result<BTreeSet<LsaKey>, AllocError>
    requires exchanging { (n : NeighbourValue) →
        neighbour_of link.old.neighbours from.router ≡ Some n
        → is_exchanging n.state ≡ true }
    ensures after { OnOk result
        (link.new
        ≡ with_neighbourhood
        (request_at own from database.now requests.entry outbox.old link.old) link.old) }
    ensures left { OnOk result
        (outbox.new ≡ left_beside (request_at own from database.now requests.entry outbox.old
        link.old)) }
    ensures keys { IfOk result
        (λ keys.
        keys.keys
        ≡ (elim (neighbour_of link.old.neighbours from.router) [
          | None ↦ []
          | Some n ↦ answered_keys database.now requests.entry
        ])) }
{
    let at = LinkContext::of(own, link);
    let delay = link.settings.transmit_delay;
    let mut all = take_out(link, outbox.alloc());
    let keys = answer_in(&mut all, from, requests, database, &at, delay, outbox)?;
    let due = is_due(link, false);
    put_back(link, all, due);
    Ok(keys)
}

// Processes a Request from one of the neighbours that were taken out.
fn answer_in(
    all: &mut Vec<Neighbour>,
    from: PacketSource,
    requests: Requests<'_>,
    database: &Lsdb,
    at: &LinkContext,
    delay: u16,
    outbox: &mut Outbox,
) -> Result<BTreeSet<LsaKey>, AllocError>
    requires rising { AreNeighboursRising all.old.items }
    requires exchanging { (n : NeighbourValue) → neighbour_of all.old.items from.router ≡ Some n
        → is_exchanging n.state ≡ true }
    ensures turn { OnOk result
        (neighbourhood all.new.items false outbox.new
        ≡ request_on at.now.iface at.now.local from.router delay database.now requests.entry
        (neighbourhood all.old.items false outbox.old)) }
    ensures keys { IfOk result
        (λ keys.
        keys.keys
        ≡ (elim (neighbour_of all.old.items from.router) [
          | None ↦ []
          | Some n ↦ answered_keys database.now requests.entry
        ])) }
{
    let place = place_for(all, from.router);
    if !is_at(all, place, from.router) {
        return Ok(BTreeSet::new(outbox.alloc()));
    }
    let neighbour = &mut all[place];
    let keys = answer_to(neighbour, requests, database, at, delay, outbox)?;
    Ok(keys)
}
