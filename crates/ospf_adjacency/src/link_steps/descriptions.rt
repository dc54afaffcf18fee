//! Received Database Descriptions.

ghost use Rattle.std.specs.Prelude.{◌≡◌, ◌&&◌, false, IfOk, OnOk};
ghost use Rattle.ospf_neighbour.specs.Interface.Election.{differs};
ghost use Rattle.ospf_neighbour.specs.Machine.{is_two_way};
ghost use Rattle.ospf_neighbour.specs.Neighbours.{AreNeighboursRising};
ghost use Rattle.ospf_area.specs.Sending.{context_of};
ghost use Rattle.ospf_adjacency.specs.Descriptions.{description_turn};
ghost use Rattle.ospf_area.specs.Turns.{turn};
ghost use Rattle.ospf_adjacency.specs.Heard.{is_settled, neighbourhood};
ghost use Rattle.ospf_adjacency.specs.LinkSteps.Parts.{description_comes, description_on, description_part, left_beside, with_neighbourhood};
ghost use Rattle.ospf_adjacency.specs.LinkSteps.Works.{WorksOn};

use crate::link_steps::link::{iface_of, is_due, put_back, take_out};
use crate::{is_at, is_settled, take_description as describe_to};
use ospf_area::{
    Area, AreaLink, LinkContext, Outbox, Outputs, PacketSource, RouterContext, context_of,
};
use ospf_lsdb::Lsdb;
use ospf_neighbour::{Neighbour, place_for};
use ospf_packet::{Description, Headers};
use std::alloc::{AllocError, Global};

/// Processes a Database Description received on a link of the router (RFC 2328, section 10.6). One
/// that is dropped, or whose sender or link does not exist, changes nothing.
///
/// `AllocError` when memory runs out; then the router must be stopped.
pub fn take_description(
    area: &mut Area,
    from: PacketSource,
    fields: Description,
    headers: Headers<'_>,
    out: &mut Outputs,
    alloc: Global,
) -> Result<(), AllocError>
    ensures { OnOk result (WorksOn
        (description_part (context_of area.old) from fields headers.entry area.old.database
        area.old.next_dd)
        from.link area.old out.old out.new area.new) }
{
    let own = context_of(area);
    match area.links.get_mut(from.link) {
        Some(link) => {
            let iface = iface_of(link);
            let mut outbox = Outbox::new(area.next_dd, alloc);
            description_comes(
                link,
                from,
                fields,
                headers,
                &area.database,
                own,
                &mut outbox,
            )?;
            area.next_dd = outbox.next();
            outbox.send_all(out, own, from.link, &iface)
        }
        None => Ok(()),
    }
}

// Processes a Database Description received on a link.
fn description_comes(
    link: &mut AreaLink,
    from: PacketSource,
    fields: Description,
    headers: Headers<'_>,
    database: &Lsdb,
    own: RouterContext,
    outbox: &mut Outbox,
) -> Result<(), AllocError>
    ensures after { OnOk result
        (link.new
        ≡ with_neighbourhood (description_comes own from fields headers.entry database.now
        outbox.old link.old) link.old) }
    ensures left { OnOk result
        (outbox.new
        ≡ left_beside (description_comes own from fields headers.entry database.now outbox.old
        link.old)) }
{
    let at = LinkContext::of(own, link);
    let mut all = take_out(link, outbox.alloc());
    let elects = describe_in(&mut all, from, fields, headers, database, &at, outbox)?;
    let due = is_due(link, elects);
    put_back(link, all, due);
    Ok(())
}

// Processes a Database Description from one of the neighbours that were taken out.
fn describe_in(
    all: &mut Vec<Neighbour>,
    from: PacketSource,
    fields: Description,
    headers: Headers<'_>,
    database: &Lsdb,
    at: &LinkContext,
    outbox: &mut Outbox,
) -> Result<bool, AllocError>
    requires { AreNeighboursRising all.old.items }
    ensures { IfOk result
        (λ elects.
        neighbourhood all.new.items elects outbox.new
        ≡ description_on at.now.iface at.now.local from.router fields headers.entry database.now
        (neighbourhood all.old.items false outbox.old)) }
{
    let place = place_for(all, from.router);
    if !is_at(all, place, from.router) {
        return Ok(false);
    }
    let neighbour = &mut all[place];
    let elects = describe(neighbour, from, fields, headers, database, at, outbox)?;
    Ok(elects)
}

// Processes a Database Description from a neighbour. Returns whether it makes an election due.
fn describe(
    neighbour: &mut Neighbour,
    from: PacketSource,
    fields: Description,
    headers: Headers<'_>,
    database: &Lsdb,
    at: &LinkContext,
    outbox: &mut Outbox,
) -> Result<bool, AllocError>
    ensures turn { OnOk result
        (turn neighbour.new outbox.new
        ≡ description_turn at.now.iface at.now.local from.router fields headers.entry database.now
        (turn neighbour.old outbox.old)) }
    ensures elects { IfOk result
        (λ elects. elects
        ≡ (is_settled at.now.iface.state
        && differs (is_two_way neighbour.old.state) (is_two_way neighbour.new.state))) }
{
    let before = neighbour.state().is_two_way();
    describe_to(
        neighbour,
        from.router,
        fields,
        headers,
        database,
        at,
        outbox,
    )?;
    let after = neighbour.state().is_two_way();
    Ok(is_settled(at.iface.state) && before != after)
}
