//! How copies of the database are packed into Updates.

ghost use Rattle.std.specs.Prelude.{◌≡◌, ◌+◌, ◌-◌, ◌||◌, nat_le, ◌∷◌, [], List, ℕ, map, IfOk, OnOk};
ghost use Rattle.ospf_base.specs.Constants.{ip_header, packet_header};
ghost use Rattle.ospf_lsdb.specs.Database.{lsa_of};
ghost use Rattle.ospf_area.specs.Sending.{sent_lsa};
ghost use Rattle.ospf_area.specs.Outboxes.{and_packets};
ghost use Rattle.ospf_packet.specs.Meaning.{update};
ghost use Rattle.ospf_neighbour.specs.Neighbour.{is_empty};
ghost use Rattle.ospf_adjacency.specs.Packing.{bytes_in, packed, updates_of};

use ospf_area::Outbox;
use ospf_base::{Addr, IP_HEADER, LsaKey, PACKET_HEADER};
use ospf_lsa::Lsa;
use ospf_lsdb::{EntryView, Lsdb};
use ospf_packet::{BodyValue, COUNT_SIZE};
use std::alloc::{AllocError, Global};
use std::collections::BTreeSet;
use std::mem;

/// The bytes in front of the LSAs of an Update.
const HEAD: usize = IP_HEADER + PACKET_HEADER + COUNT_SIZE;

/// Sends the copies of these keys in Updates, as many in one as fit, in the order of the keys; a
/// key without a copy is left out, and an LSA that does not fit has an Update of its own. `delay`
/// is InfTransDelay, in ticks, `mtu` the interface's, in bytes.
///
/// `AllocError` when memory runs out; then the router must be stopped.
pub fn send_copies(
    keys: &BTreeSet<LsaKey>,
    database: &Lsdb,
    delay: u16,
    mtu: u16,
    destination: Addr,
    outbox: &mut Outbox,
) -> Result<(), AllocError>
    ensures { OnOk result
        (outbox.new
        ≡ and_packets outbox.old (updates_of destination mtu delay database.now keys.now.keys)) }
{
    let alloc = outbox.alloc();
    let room = update_room(mtu);
    let mut batch = Vec::new(alloc);
    let mut left = room;
    for key in keys {
        if let Some(copy) = database.get(key) {
            let lsa = sent_copy(&copy, delay, alloc)?;
            add(lsa, &mut batch, &mut left, room, destination, outbox)?;
        }
    }
    if !batch.is_empty() {
        send(batch, destination, outbox)?;
    }
    Ok(())
}

// How many bytes of LSAs an Update has room for.
fn update_room(mtu: u16) -> usize
    ensures { result ≡ mtu - (ip_header + packet_header + 4) }
{
    usize::from(mtu).saturating_sub(HEAD)
}

// A copy of an entry as it is sent.
fn sent_copy(copy: &EntryView<'_>, delay: u16, alloc: Global) -> Result<Lsa, AllocError>
    ensures { IfOk result (λ lsa. lsa ≡ sent_lsa delay (lsa_of copy.now)) }
{
    let Ok(mut lsa) = copy.copy(alloc) else {
        return Err(AllocError);
    };
    lsa.set_age(copy.header().age.after(delay));
    Ok(lsa)
}

// One LSA more: it goes into the Update that is being packed, or that one goes out and a next one
// begins. `left` is the room that is left in it.
fn add(
    lsa: Lsa,
    batch: &mut Vec<Lsa>,
    left: &mut usize,
    room: usize,
    destination: Addr,
    outbox: &mut Outbox,
) -> Result<(), AllocError>
    requires { left.old ≡ room - bytes_in batch.old.items }
    ensures left { OnOk result (left.new ≡ room - bytes_in batch.new.items) }
    ensures sent { OnOk result
        ((rest : List (List ℕ))
        → and_packets outbox.new
        (map (λ lsas. record { destination = destination; body = update lsas })
        (packed room batch.new.items rest))
        ≡ and_packets outbox.old
        (map (λ lsas. record { destination = destination; body = update lsas })
        (packed room batch.old.items (lsa ∷ rest)))) }
{
    let length = lsa.view().as_bytes().len();
    if !goes_in(batch, length, *left) {
        let full = mem::replace(batch, Vec::new(outbox.alloc()));
        send(full, destination, outbox)?;
        *left = room;
    }
    *left = left.saturating_sub(length);
    batch.push(lsa)?;
    Ok(())
}

// Whether an LSA of this many bytes fits in an Update after these.
fn goes_in(batch: &[Lsa], length: usize, left: usize) -> bool
    ensures { result ≡ is_empty batch.now || nat_le length left }
{
    batch.is_empty() || length <= left
}

// Sends an Update with these LSAs.
fn send(lsas: Vec<Lsa>, destination: Addr, outbox: &mut Outbox) -> Result<(), AllocError>
    ensures { OnOk result (outbox.new ≡ and_packets outbox.old
        (record { destination = destination; body = update lsas.items } ∷ [])) }
{
    outbox.put(destination, BodyValue::Update(lsas))
}
