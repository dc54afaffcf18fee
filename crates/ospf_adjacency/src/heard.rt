//! Hellos that come.

ghost use Rattle.std.specs.Prelude.{◌≡◌, ◌≢◌, ◌<◌, ◌||◌, ◌==◌, false, IsTrue, OnOk, IfOk, length, slice_get, Some};
ghost use Rattle.ospf_neighbour.specs.Neighbour.{NeighbourValue};
ghost use Rattle.ospf_neighbour.specs.Neighbours.{AreNeighboursRising};
ghost use Rattle.ospf_area.specs.Turns.{turn};
ghost use Rattle.std.specs.Prelude.{if◌then◌else◌};
ghost use Rattle.ospf_area.specs.Changes.{after_event};
ghost use Rattle.ospf_adjacency.specs.Adjacency.{is_broadcast, wants_adjacency};
ghost use Rattle.ospf_adjacency.specs.Heard.{names, hello_effect, election_view, is_neighbor_change, is_backup_seen, is_settled, is_waiting, elects_by_hello, neighbourhood, receive_hello};

use crate::adjacency::{is_broadcast, take_event, wants_adjacency};
use ospf_area::{LinkContext, Outbox};
use ospf_base::{Addr, RouterId};
use ospf_neighbour::iface::{Iface, IfaceState};
use ospf_neighbour::{Declared, NbrEvent, Neighbour, place_for};
use ospf_packet::{Hello, Neighbours};
use std::alloc::AllocError;

// What an election looks at in a neighbour.
#[derive(Clone, Copy)]
pub(crate) struct ElectionView {
    two_way: bool,
    priority: u8,
    is_dr: bool,
    is_backup: bool,
    sees_none: bool,
}

/// Whether a Hello names a router among the neighbours that its sender
/// has heard. No memory is taken.
pub fn is_named(mut neighbours: Neighbours<'_>, router: RouterId) -> bool
    ensures { result ≡ names neighbours.entry router }
{
    neighbours.any(|named| named.0 == router.0)
}

/// Whether NeighborChange causes an election: in DR Other, Backup
/// and DR (RFC 2328, section 9.3).
pub fn is_settled(state: IfaceState) -> bool
    ensures { result ≡ is_settled state }
{
    matches!(
        state,
        IfaceState::DrOther | IfaceState::Backup | IfaceState::Dr
    )
}

/// Whether the neighbour at a place has this Router ID.
pub fn is_at(all: &[Neighbour], at: usize, router: RouterId) -> bool
    ensures within { IsTrue result → at < length all.now }
    ensures there { IsTrue result → (n : NeighbourValue) × (slice_get all.now at ≡ Some n)
        × (n.router ≡ router) }
    ensures other { result ≡ false → (n : NeighbourValue) → slice_get all.now at ≡ Some n →
        n.router ≢ router }
{
    match all.get(at) {
        Some(neighbour) => neighbour.router().0 == router.0,
        None => false,
    }
}

/// Processes a Hello that arrives on a link (RFC 2328, section 10.5), from the router `sender` at
/// the address `source`; `named` says whether it names the router itself. The sender is found among
/// the link's neighbours, or is a new one. Returns whether it makes an election of the link due.
///
/// `AllocError` when memory runs out; then the router must be stopped.
pub fn receive_hello(
    neighbours: &mut Vec<Neighbour>,
    sender: RouterId,
    source: Addr,
    hello: &Hello,
    named: bool,
    at: &LinkContext,
    outbox: &mut Outbox,
) -> Result<bool, AllocError>
    requires { AreNeighboursRising neighbours.old.items }
    ensures { IfOk result
        (λ elects.
        neighbourhood neighbours.new.items elects outbox.new
        ≡ receive_hello at.now.iface at.now.local sender source hello.now named
        (neighbourhood neighbours.old.items false outbox.old)) }
{
    let place = place_for(neighbours, sender);
    if is_at(neighbours, place, sender) {
        let neighbour = &mut neighbours[place];
        let elects = hello_of(neighbour, hello, named, at, outbox)?;
        return Ok(elects);
    }
    let mut neighbour = Neighbour::new(outbox.alloc(), sender, source);
    let elects = hello_of(&mut neighbour, hello, named, at, outbox)?;
    neighbours.insert(place, neighbour)?;
    Ok(elects)
}

// Whether BackupSeen and WaitTimer cause an election.
pub(crate) fn is_waiting(state: IfaceState) -> bool
    ensures { result ≡ is_waiting state }
{
    matches!(state, IfaceState::Waiting)
}

// Processes a Hello of a neighbour; whether it makes an election due.
fn hello_of(
    neighbour: &mut Neighbour,
    hello: &Hello,
    named: bool,
    at: &LinkContext,
    outbox: &mut Outbox,
) -> Result<bool, AllocError>
    ensures turn { OnOk result
        (turn neighbour.new outbox.new
        ≡ hello_effect at.now.iface at.now.local hello.now named (turn neighbour.old outbox.old)) }
    ensures elects { IfOk result
        (λ elects. elects ≡ elects_by_hello at.now.iface.state neighbour.old neighbour.new) }
{
    let before = election_view(neighbour);
    take_hello(neighbour, hello, named, at, outbox)?;
    let after = election_view(neighbour);
    let state = at.iface.state;
    Ok(
        (is_waiting(state) && is_backup_seen(after))
            || (is_settled(state) && is_neighbor_change(before, after)),
    )
}

fn election_view(neighbour: &Neighbour) -> ElectionView
    ensures { result ≡ election_view neighbour.now }
{
    let declared = neighbour.declared();
    let address = neighbour.address();
    ElectionView {
        two_way: neighbour.state().is_two_way(),
        priority: declared.priority,
        is_dr: declared.dr.0 == address.0,
        is_backup: declared.backup.0 == address.0,
        sees_none: declared.backup.0 == Addr::NOWHERE.0,
    }
}

// Takes a Hello of a neighbour.
fn take_hello(
    neighbour: &mut Neighbour,
    hello: &Hello,
    named: bool,
    at: &LinkContext,
    outbox: &mut Outbox,
) -> Result<(), AllocError>
    ensures { OnOk result
        (turn neighbour.new outbox.new
        ≡ hello_effect at.now.iface at.now.local hello.now named (turn neighbour.old outbox.old)) }
{
    let event = naming_event(&at.iface, named, neighbour.address());
    hear(neighbour, &at.iface, hello);
    take_event(neighbour, event, at, outbox)
}

// 2-WayReceived, or 1-WayReceived.
fn naming_event(iface: &Iface, named: bool, address: Addr) -> NbrEvent
    ensures { result ≡ (if named then NbrEvent.TwoWayReceived (wants_adjacency iface.now address)
        else NbrEvent.OneWayReceived) }
{
    if named {
        NbrEvent::TwoWayReceived(wants_adjacency(iface, address))
    } else {
        NbrEvent::OneWayReceived
    }
}

// HelloReceived, and what the Hello declares.
fn hear(neighbour: &mut Neighbour, iface: &Iface, hello: &Hello)
    ensures { let n = after_event NbrEvent.HelloReceived iface.now.settings.dead neighbour.old in
        neighbour.new
        ≡ (if is_broadcast iface.now
        then record n {
          declared = record {
            priority = hello.now.priority;
            dr = hello.now.designated;
            backup = hello.now.backup;
          };
        }
        else n) }
{
    let _ = neighbour.event(NbrEvent::HelloReceived, iface.settings.dead);
    if is_broadcast(iface) {
        neighbour.declare(Declared {
            priority: hello.priority,
            dr: hello.designated,
            backup: hello.backup,
        });
    }
}

fn is_backup_seen(after: ElectionView) -> bool
    ensures { result ≡ is_backup_seen after }
{
    after.two_way && (after.is_backup || (after.is_dr && after.sees_none))
}

fn is_neighbor_change(before: ElectionView, after: ElectionView) -> bool
    ensures { result ≡ is_neighbor_change before after }
{
    before.two_way != after.two_way
        || before.priority != after.priority
        || before.is_dr != after.is_dr
        || before.is_backup != after.is_backup
}
