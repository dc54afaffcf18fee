//! Requests that are answered.

ghost use Rattle.std.specs.Prelude.{◌≡◌, IsTrue, IfOk, OnOk, None, Some, fold};
ghost use Rattle.ospf_lsdb.specs.Database.{entry_of, instance_at};
ghost use Rattle.ospf_neighbour.specs.Lists.{resent};
ghost use Rattle.ospf_neighbour.specs.Machine.{is_exchanging};
ghost use Rattle.ospf_neighbour.specs.Neighbour.{NeighbourValue};
ghost use Rattle.ospf_area.specs.Turns.{turn};
ghost use Rattle.ospf_adjacency.specs.Answers.{copies_turn, answered_keys, answer_turn};

use crate::adjacency::take_event;
use crate::packing::send_copies;
use ospf_area::{LinkContext, Outbox, to_address};
use ospf_base::LsaKey;
use ospf_exchange::{ExchangeFault, on_request};
use ospf_lsdb::{EntryView, Lsdb};
use ospf_neighbour::{NbrEvent, Neighbour};
use ospf_packet::Requests;
use std::alloc::AllocError;
use std::collections::BTreeSet;

/// Processes a Link State Request of a neighbour in Exchange or above (RFC 2328, section 10.7): the
/// copies that it asks for are sent, in the order of their keys, or BadLSReq restarts the
/// adjacency. `delay` is InfTransDelay, in ticks. Returns the keys whose copies were sent.
///
/// `AllocError` when memory runs out; then the router must be stopped.
pub fn take_request(
    neighbour: &mut Neighbour,
    requests: Requests<'_>,
    database: &Lsdb,
    at: &LinkContext,
    delay: u16,
    outbox: &mut Outbox,
) -> Result<BTreeSet<LsaKey>, AllocError>
    requires { IsTrue (is_exchanging neighbour.old.state) }
    ensures turn { OnOk result
        (turn neighbour.new outbox.new
        ≡ answer_turn at.now.iface at.now.local delay database.now requests.entry
        (turn neighbour.old outbox.old)) }
    ensures keys { IfOk result (λ keys. keys.keys ≡ answered_keys database.now requests.entry) }
{
    // Its contract says that the keys of the database rise.
    let _entries = database.entries();
    match on_request(neighbour, requests, database, outbox.alloc()) {
        Ok(Some(keys)) => {
            send_to(neighbour, &keys, database, at, delay, outbox)?;
            Ok(keys)
        }
        Ok(None) => unreachable!(),
        Err(ExchangeFault::Memory) => Err(AllocError),
        Err(_) => {
            let event = NbrEvent::BadLsReq;
            take_event(neighbour, event, at, outbox)?;
            Ok(BTreeSet::new(outbox.alloc()))
        }
    }
}

// The copies of these keys go to a neighbour. Most often there are none.
#[tactic(auto, using(crate::proofs::SendLemmas::none_sent))]
pub(crate) fn send_to(
    neighbour: &mut Neighbour,
    keys: &BTreeSet<LsaKey>,
    database: &Lsdb,
    at: &LinkContext,
    delay: u16,
    outbox: &mut Outbox,
) -> Result<(), AllocError>
    ensures { OnOk result
        (turn neighbour.new outbox.new
        ≡ copies_turn at.now.iface at.now.local delay database.now keys.now.keys
        (turn neighbour.old outbox.old)) }
{
    if keys.is_empty() {
        return Ok(());
    }
    let to = to_address(&at.iface, neighbour.address());
    resend_keys(neighbour, keys, database, at.local.tick);
    send_copies(keys, database, delay, at.local.mtu, to, outbox)
}

// The copies of these keys count as sent to the neighbour.
fn resend_keys(neighbour: &mut Neighbour, keys: &BTreeSet<LsaKey>, database: &Lsdb, tick: u64)
    ensures { neighbour.new
        ≡ fold
        (λ (n : NeighbourValue) key. (elim (entry_of database.now key) [
          | None ↦ n
          | Some e ↦ resent (instance_at e) tick n
        ])) neighbour.old keys.now.keys }
{
    for key in keys {
        resend_copy(neighbour, database.get(key), tick);
    }
}

// A copy counts as sent to the neighbour.
fn resend_copy(neighbour: &mut Neighbour, copy: Option<EntryView<'_>>, tick: u64)
    ensures { neighbour.new
        ≡ (elim copy.entry [
          | None ↦ neighbour.old
          | Some e ↦ resent (instance_at e) tick neighbour.old
        ]) }
{
    if let Some(copy) = copy {
        neighbour.resend(&copy.instance(), tick);
    }
}
