//! Retransmissions in a tick.

ghost use Rattle.std.specs.Prelude.{◌≡◌, OnOk, map};
ghost use Rattle.std.specs.List.{flat_map};
ghost use Rattle.ospf_adjacency.specs.Repeats.{due_keys};
ghost use Rattle.ospf_area.specs.Sending.{and_sends};
ghost use Rattle.ospf_area.specs.Outboxes.{local_by, posted_all};
ghost use Rattle.ospf_area.specs.State.{LinkValue};
ghost use Rattle.ospf_area.specs.Places.{flat_from};
ghost use Rattle.ospf_adjacency.specs.LinkSteps.Repeats.{link_repeated, link_repeats_out, marked_all, repeats_for};

use crate::link_steps::link::{put_back, take_out};
use crate::link_steps::marks::mark_all;
use crate::repeat;
use ospf_area::{AreaLink, LinkContext, LinkSettings, Outbox, Outputs, RouterContext, local_by};
use ospf_base::LsaKey;
use ospf_lsdb::Lsdb;
use ospf_neighbour::Neighbour;
use ospf_neighbour::iface::Iface;
use std::alloc::{AllocError, Global};
use std::collections::BTreeSet;

/// Sends again what is due on all links (RFC 2328, sections 10.8, 10.9 and 13.6):
/// Database Descriptions, Requests, and the copies of what waits on retransmission lists,
/// whose keys are marked as sent.
///
/// `AllocError` when memory runs out; then the router must be stopped.
pub fn repeat_all(
    links: &mut [AreaLink],
    database: &Lsdb,
    own: RouterContext,
    sent: &mut BTreeSet<LsaKey>,
    out: &mut Outputs,
    alloc: Global,
) -> Result<(), AllocError>
    ensures after { OnOk result (links.new ≡ map (link_repeated own database.now) links.old) }
    ensures sent { OnOk result (out.new ≡ and_sends out.old
        (flat_from (link_repeats_out own database.now) 0 links.old)) }
    ensures marks { OnOk result (sent.new.keys
        ≡ marked_all
        (flat_map
        (λ (link : LinkValue). flat_map (due_keys link.settings.retransmit own.tick database.now)
        link.neighbours)
        links.old)
        sent.old.keys) }
{
    for (number, link) in links.iter_mut().enumerate() {
        repeat_on(link, number, database, own, sent, out, alloc)?;
    }
    Ok(())
}

// A link on which packets are sent again, by its number.
#[derive(Clone, Copy)]
struct Repeating {
    own: RouterContext,
    number: usize,
    iface: Iface,
    settings: LinkSettings,
}

// The retransmissions on a link.
fn repeat_on(
    link: &mut AreaLink,
    number: usize,
    database: &Lsdb,
    own: RouterContext,
    sent: &mut BTreeSet<LsaKey>,
    out: &mut Outputs,
    alloc: Global,
) -> Result<(), AllocError>
    ensures after { OnOk result (link.new ≡ link_repeated own database.now link.old) }
    ensures sent { OnOk result (out.new ≡ and_sends out.old
        (link_repeats_out own database.now number link.old)) }
    ensures marks { OnOk result (sent.new.keys
        ≡ marked_all
        (flat_map (due_keys link.old.settings.retransmit own.tick database.now) link.old.neighbours)
        sent.old.keys) }
{
    let on = Repeating {
        own,
        number,
        iface: link.iface,
        settings: link.settings,
    };
    let elects = link.elects;
    let mut all = take_out(link, alloc);
    repeat_to_all(&mut all, &on, database, sent, out, alloc)?;
    put_back(link, all, elects);
    Ok(())
}

// The retransmissions to neighbours that were taken out.
fn repeat_to_all(
    all: &mut Vec<Neighbour>,
    on: &Repeating,
    database: &Lsdb,
    sent: &mut BTreeSet<LsaKey>,
    out: &mut Outputs,
    alloc: Global,
) -> Result<(), AllocError>
    ensures after { OnOk result
        (all.new.items
        ≡ map
        (λ n. (repeats_for on.now.own on.now.iface on.now.settings database.now n).neighbour)
        all.old.items) }
    ensures sent { OnOk result
        (out.new
        ≡ and_sends out.old
        (flat_map
        (λ n. posted_all on.now.own on.now.number on.now.iface
        (repeats_for on.now.own on.now.iface on.now.settings database.now n).sent)
        all.old.items)) }
    ensures marks { OnOk result
        (sent.new.keys
        ≡ marked_all
        (flat_map (due_keys on.now.settings.retransmit on.now.own.tick database.now)
        all.old.items)
        sent.old.keys) }
{
    repeat_to_each(all, on, database, sent, out, alloc)?;
    Ok(())
}

// The retransmissions to neighbours.
fn repeat_to_each(
    all: &mut [Neighbour],
    on: &Repeating,
    database: &Lsdb,
    sent: &mut BTreeSet<LsaKey>,
    out: &mut Outputs,
    alloc: Global,
) -> Result<(), AllocError>
    ensures after { OnOk result
        (all.new
        ≡ map
        (λ n. (repeats_for on.now.own on.now.iface on.now.settings database.now n).neighbour)
        all.old) }
    ensures sent { OnOk result
        (out.new
        ≡ and_sends out.old
        (flat_map
        (λ n. posted_all on.now.own on.now.number on.now.iface
        (repeats_for on.now.own on.now.iface on.now.settings database.now n).sent)
        all.old)) }
    ensures marks { OnOk result
        (sent.new.keys
        ≡ marked_all
        (flat_map (due_keys on.now.settings.retransmit on.now.own.tick database.now) all.old)
        sent.old.keys) }
{
    for neighbour in all.iter_mut() {
        repeat_to(neighbour, on, database, sent, out, alloc)?;
    }
    Ok(())
}

// The retransmissions to a neighbour.
fn repeat_to(
    neighbour: &mut Neighbour,
    on: &Repeating,
    database: &Lsdb,
    sent: &mut BTreeSet<LsaKey>,
    out: &mut Outputs,
    alloc: Global,
) -> Result<(), AllocError>
    ensures after { OnOk result
        (neighbour.new
        ≡ (repeats_for on.now.own on.now.iface on.now.settings database.now
        neighbour.old).neighbour) }
    ensures sent { OnOk result
        (out.new
        ≡ and_sends out.old
        (posted_all on.now.own on.now.number on.now.iface
        (repeats_for on.now.own on.now.iface on.now.settings database.now neighbour.old).sent)) }
    ensures marks { OnOk result
        (sent.new.keys
        ≡ marked_all
        (due_keys on.now.settings.retransmit on.now.own.tick database.now neighbour.old)
        sent.old.keys) }
{
    let at = LinkContext {
        iface: on.iface,
        local: local_by(on.own, on.settings),
    };
    let mut outbox = Outbox::new(0, alloc);
    let retransmit = on.settings.retransmit;
    let delay = on.settings.transmit_delay;
    let keys = repeat(neighbour, database, &at, retransmit, delay, &mut outbox)?;
    mark_all(sent, &keys)?;
    outbox.send_all(out, on.own, on.number, &on.iface)
}
