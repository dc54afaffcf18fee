//! Database Descriptions of one neighbour, with what goes out.

ghost use Rattle.std.specs.Prelude.{◌≡◌, ◌++◌, ◌∷◌, [], not, IfOk, OnOk, if◌then◌else◌};
ghost use Rattle.ospf_exchange.specs.Exchange.{after_dd, dd_answer};
ghost use Rattle.ospf_exchange.specs.Laws.{is_not_taken};
ghost use Rattle.ospf_adjacency.specs.Adjacency.{wants_adjacency};
ghost use Rattle.ospf_adjacency.specs.Descriptions.{answered_turn, dd_dropped, dd_repeated, description_turn, event_turn, is_init};
ghost use Rattle.ospf_area.specs.Packets.{dd_packet};
ghost use Rattle.ospf_area.specs.Turns.{turn, request_turn};

use crate::adjacency::{take_event, wants_adjacency};
use ospf_area::{LinkContext, Outbox, request_turn, send_dd};
use ospf_base::RouterId;
use ospf_exchange::{DdAnswer, ExchangeFault, Local, dd_sent, is_not_taken, on_dd};
use ospf_lsdb::Lsdb;
use ospf_neighbour::{NbrEvent, Neighbour, NeighbourState};
use ospf_packet::{Description, Headers};
use std::alloc::AllocError;

/// Whether `take_description` drops a Database Description of the neighbour's router, `sender`, and
/// so changes nothing: its MTU is over the interface's, or there is no exchange and it begins none.
/// In Init it is 2-WayReceived, and so not dropped (RFC 2328, section 10.6). No memory is taken.
pub fn is_dropped(
    neighbour: &Neighbour,
    sender: RouterId,
    description: Description,
    headers: &Headers<'_>,
    local: Local,
) -> bool
    ensures { result ≡ dd_dropped local sender description headers.now neighbour.now }
{
    local.mtu < description.mtu
        || (!is_init(neighbour.state())
            && is_not_taken(neighbour, sender, description, headers, local))
}

/// Processes a Database Description (RFC 2328, section 10.6) of the neighbour's router, `sender`.
/// Returns whether it was accepted: if not, it is dropped, and nothing changes.
///
/// `AllocError` when memory runs out; then the router must be stopped.
pub fn take_description(
    neighbour: &mut Neighbour,
    sender: RouterId,
    description: Description,
    headers: Headers<'_>,
    database: &Lsdb,
    at: &LinkContext,
    outbox: &mut Outbox,
) -> Result<bool, AllocError>
    ensures turn { OnOk result
        (turn neighbour.new outbox.new
        ≡ description_turn at.now.iface at.now.local sender description headers.entry database.now
        (turn neighbour.old outbox.old)) }
    ensures taken { IfOk result
        (λ taken. taken
        ≡ not (dd_dropped at.now.local sender description headers.entry neighbour.old)) }
{
    if at.local.mtu < description.mtu {
        return Ok(false);
    }
    let was_init = is_init(neighbour.state());
    greet(neighbour, at, outbox)?;
    let taken = exchange(
        neighbour,
        sender,
        description,
        headers,
        database,
        at,
        outbox,
    )?;
    Ok(was_init || taken)
}

// Whether a neighbour is in Init.
fn is_init(state: NeighbourState) -> bool
    ensures { result ≡ is_init state }
{
    matches!(state, NeighbourState::Init)
}

// In Init a Database Description is 2-WayReceived first.
fn greet(neighbour: &mut Neighbour, at: &LinkContext, outbox: &mut Outbox) -> Result<(), AllocError>
    ensures { OnOk result
        (turn neighbour.new outbox.new
        ≡ (if is_init neighbour.old.state
        then event_turn at.now.iface at.now.local
        (NbrEvent.TwoWayReceived (wants_adjacency at.now.iface neighbour.old.address))
        (turn neighbour.old outbox.old)
        else turn neighbour.old outbox.old)) }
{
    if is_init(neighbour.state()) {
        let event = NbrEvent::TwoWayReceived(wants_adjacency(&at.iface, neighbour.address()));
        take_event(neighbour, event, at, outbox)?;
    }
    Ok(())
}

// Looks at a Database Description in the neighbour's state; whether there is
// an exchange, or it begins one.
fn exchange(
    neighbour: &mut Neighbour,
    sender: RouterId,
    description: Description,
    headers: Headers<'_>,
    database: &Lsdb,
    at: &LinkContext,
    outbox: &mut Outbox,
) -> Result<bool, AllocError>
    ensures turn { OnOk result
        (turn neighbour.new outbox.new
        ≡ answered_turn (dd_answer at.now.local sender description headers.entry neighbour.old)
        at.now.iface at.now.local
        (turn
        (after_dd at.now.local sender description headers.entry database.now neighbour.old)
        outbox.old)) }
    ensures taken { IfOk result
        (λ taken.
        taken
        ≡ not (is_not_taken
        (dd_answer at.now.local sender description headers.entry neighbour.old))) }
{
    match on_dd(
        neighbour,
        sender,
        description,
        headers,
        database,
        at.local,
        outbox.alloc(),
    ) {
        Ok(DdAnswer::NotTaken) => Ok(false),
        Ok(DdAnswer::PassedOver) => Ok(true),
        Ok(DdAnswer::Repeats) => {
            repeat(neighbour, at, outbox)?;
            Ok(true)
        }
        Ok(DdAnswer::Sends) => {
            go_on(neighbour, at, outbox)?;
            Ok(true)
        }
        Ok(DdAnswer::Ends) => {
            request_turn(neighbour, at, outbox)?;
            Ok(true)
        }
        Err(ExchangeFault::Mismatch) => {
            let event = NbrEvent::SeqNumberMismatch;
            take_event(neighbour, event, at, outbox)?;
            Ok(true)
        }
        Err(ExchangeFault::Mtu) => Ok(false),
        Err(ExchangeFault::BadRequest) => Ok(true),
        Err(ExchangeFault::Memory) => Err(AllocError),
    }
}

// The slave's last packet goes out again.
fn repeat(
    neighbour: &mut Neighbour,
    at: &LinkContext,
    outbox: &mut Outbox,
) -> Result<(), AllocError>
    ensures { OnOk result
        (turn neighbour.new outbox.new
        ≡ dd_repeated at.now.iface at.now.local (turn neighbour.old outbox.old)) }
{
    dd_sent(neighbour, at.local.tick);
    send_dd(neighbour, at, outbox)
}

// The next packet goes out, and then a Request where one is due.
fn go_on(neighbour: &mut Neighbour, at: &LinkContext, outbox: &mut Outbox) -> Result<(), AllocError>
    ensures { OnOk result
        (turn neighbour.new outbox.new
        ≡ request_turn at.now.iface at.now.local
        (record (turn neighbour.old outbox.old)
        { sent = outbox.old.sent ++ dd_packet at.now.iface at.now.local.mtu neighbour.old ∷ [] })) }
{
    send_dd(neighbour, at, outbox)?;
    request_turn(neighbour, at, outbox)
}
