//! What is sent again.

ghost use Rattle.std.specs.Prelude.{◌≡◌, ◌&&◌, ◌++◌, ◌∷◌, [], is_some, IfOk, OnOk, if◌then◌else◌};
ghost use Rattle.ospf_exchange.specs.Requests.{asked_next};
ghost use Rattle.ospf_exchange.specs.Timers.{dd_due, request_repeat_due};
ghost use Rattle.ospf_lsdb.specs.Database.{entry_of};
ghost use Rattle.ospf_base.specs.Ticks.{have_passed};
ghost use Rattle.ospf_area.specs.Turns.{turn};
ghost use Rattle.ospf_area.specs.Packets.{request_packet};
ghost use Rattle.ospf_adjacency.specs.Descriptions.{dd_repeated};
ghost use Rattle.ospf_adjacency.specs.Repeats.{due_keys, repeats_turn};

use crate::answering::send_to;
use ospf_area::{LinkContext, Outbox, send_dd, send_request};
use ospf_base::LsaKey;
use ospf_exchange::{dd_sent, is_dd_due, is_request_repeat_due, next_request};
use ospf_flood::is_due;
use ospf_lsdb::Lsdb;
use ospf_neighbour::{Listed, Neighbour};
use std::alloc::{AllocError, Global};
use std::collections::BTreeSet;

/// The retransmissions of a tick to one neighbour (RFC 2328, sections 10.8, 10.9 and 13.6): its
/// Database Description, its Request, and the copies of what is due on its retransmission list, in
/// the order of their keys. `retransmit` is RxmtInterval, `delay` InfTransDelay, both in ticks.
/// Returns the keys whose copies were sent.
///
/// `AllocError` when memory runs out; then the router must be stopped.
pub fn repeat(
    neighbour: &mut Neighbour,
    database: &Lsdb,
    at: &LinkContext,
    retransmit: u16,
    delay: u16,
    outbox: &mut Outbox,
) -> Result<BTreeSet<LsaKey>, AllocError>
    ensures turn { OnOk result
        (turn neighbour.new outbox.new
        ≡ repeats_turn at.now.iface at.now.local retransmit delay database.now
        (turn neighbour.old outbox.old)) }
    ensures keys { IfOk result
        (λ keys. keys.keys ≡ due_keys retransmit at.now.local.tick database.now neighbour.old) }
{
    let keys = due_keys(
        neighbour,
        database,
        retransmit,
        at.local.tick,
        outbox.alloc(),
    )?;
    repeat_dd(neighbour, at, retransmit, outbox)?;
    repeat_request(neighbour, at, retransmit, outbox)?;
    send_to(neighbour, &keys, database, at, delay, outbox)?;
    Ok(keys)
}

// The keys of the database of which an entry of the neighbour's retransmission list is due.
fn due_keys(
    neighbour: &Neighbour,
    database: &Lsdb,
    retransmit: u16,
    tick: u64,
    alloc: Global,
) -> Result<BTreeSet<LsaKey>, AllocError>
    ensures { IfOk result (λ keys. keys.keys
        ≡ due_keys retransmit tick database.now neighbour.now) }
{
    // Its contract says that the keys of the database rise.
    let _entries = database.entries();
    let mut keys = BTreeSet::new(alloc);
    for listed in neighbour.retransmission() {
        if goes_again(listed, database, retransmit, tick) {
            keys.insert(listed.instance.key)?;
        }
    }
    Ok(keys)
}

// Whether an entry of a retransmission list is due, and there is a copy of its key.
fn goes_again(listed: &Listed, database: &Lsdb, retransmit: u16, tick: u64) -> bool
    ensures { result ≡ (have_passed retransmit listed.now.sent_at tick
        && is_some (entry_of database.now listed.now.instance.key)) }
{
    is_due(listed, retransmit, tick) && database.get(&listed.instance.key).is_some()
}

// The last Database Description goes out again where it is due.
fn repeat_dd(
    neighbour: &mut Neighbour,
    at: &LinkContext,
    retransmit: u16,
    outbox: &mut Outbox,
) -> Result<(), AllocError>
    ensures { OnOk result
        (turn neighbour.new outbox.new
        ≡ (if dd_due retransmit at.now.local.tick neighbour.old
        then dd_repeated at.now.iface at.now.local (turn neighbour.old outbox.old)
        else turn neighbour.old outbox.old)) }
{
    if is_dd_due(neighbour, retransmit, at.local.tick) {
        dd_sent(neighbour, at.local.tick);
        send_dd(neighbour, at, outbox)?;
    }
    Ok(())
}

// The last Request goes out again where it is due.
fn repeat_request(
    neighbour: &mut Neighbour,
    at: &LinkContext,
    retransmit: u16,
    outbox: &mut Outbox,
) -> Result<(), AllocError>
    ensures { let asked = asked_next at.now.local.mtu at.now.local.tick neighbour.old in
        OnOk result
        (turn neighbour.new outbox.new
        ≡ (if request_repeat_due retransmit at.now.local.tick neighbour.old
        then record (turn neighbour.old outbox.old) {
          neighbour = asked;
          sent = outbox.old.sent ++ request_packet at.now.iface asked ∷ [];
        }
        else turn neighbour.old outbox.old)) }
{
    if is_request_repeat_due(neighbour, retransmit, at.local.tick) {
        next_request(neighbour, at.local.mtu, at.local.tick);
        send_request(neighbour, at, outbox)?;
    }
    Ok(())
}
