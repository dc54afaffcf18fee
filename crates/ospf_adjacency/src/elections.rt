//! The election that ends a step on a link.

ghost use Rattle.std.specs.Prelude.{◌≡◌, ◌++◌, List, Contains, true, IfOk, OnOk};
ghost use Rattle.ospf_neighbour.specs.Interface.Election.{AreDistinct};
ghost use Rattle.ospf_neighbour.specs.declared.iface.candidate.Candidate.{Candidate};
ghost use Rattle.ospf_neighbour.specs.declared.iface.machine.IfaceChange.{IfaceChange};
ghost use Rattle.ospf_neighbour.specs.Interface.Machine.{own_candidate, Elects};
ghost use Rattle.ospf_adjacency.specs.Elections.{AreOfLink, ElectsOn, elects_in, candidates_of, adjusted, number_after, first_dds};
ghost use Rattle.ospf_area.specs.Packets.{PendingPacket};

use crate::adjacency::{take_event, wants_adjacency};
use ospf_area::{LinkContext, Outbox};
use ospf_exchange::Local;
use ospf_neighbour::iface::{Candidate, Iface, IfaceEvent, IfaceState};
use ospf_neighbour::{NbrEvent, Neighbour};
use std::alloc::{AllocError, Global};

/// The election of a link on which one is due (RFC 2328, section 9.4), and AdjOK? where the
/// Designated Router or the Backup changed.
///
/// `AllocError` when memory runs out; then the router must be stopped.
pub fn elect_on(
    iface: &mut Iface,
    neighbours: &mut [Neighbour],
    local: Local,
    outbox: &mut Outbox,
) -> Result<(), AllocError>
    requires electing { elects_in iface.old.state ≡ true }
    requires link { AreOfLink iface.old neighbours.old }
    ensures { OnOk result
        ((sent : List PendingPacket)
        × ElectsOn local.mtu local.tick iface.old neighbours.old outbox.old.next sent
        iface.new neighbours.new outbox.new.next
        × (outbox.new.sent ≡ outbox.old.sent ++ sent)) }
{
    let candidates = candidates_of(iface, neighbours, outbox.alloc())?;
    if elect(iface, &candidates) {
        let at = LinkContext {
            iface: *iface,
            local,
        };
        adjust(neighbours, &at, outbox)?;
    }
    Ok(())
}

// Who takes part in a link's election: the router itself, and the neighbours in 2-Way or above.
fn candidates_of(
    iface: &Iface,
    neighbours: &[Neighbour],
    alloc: Global,
) -> Result<Vec<Candidate>, AllocError>
    ensures { IfOk result (λ v. v.items ≡ candidates_of iface.now neighbours.now) }
{
    let mut all = Vec::new(alloc);
    all.push(iface.own_candidate())?;
    for neighbour in neighbours {
        if neighbour.state().is_two_way() {
            all.push(candidate_of(neighbour))?;
        }
    }
    Ok(all)
}

// A neighbour as it takes part in an election.
fn candidate_of(neighbour: &Neighbour) -> Candidate
    ensures { result ≡ record {
      id = neighbour.now.router;
      address = neighbour.now.address;
      priority = neighbour.now.declared.priority;
      dr = neighbour.now.declared.dr;
      backup = neighbour.now.declared.backup;
    } }
{
    let declared = neighbour.declared();
    Candidate {
        id: neighbour.router(),
        address: neighbour.address(),
        priority: declared.priority,
        dr: declared.dr,
        backup: declared.backup,
    }
}

// The election; whether AdjOK? is due.
fn elect(iface: &mut Iface, candidates: &[Candidate]) -> bool
    requires electing { elects_in iface.old.state ≡ true }
    requires distinct { AreDistinct candidates.now }
    requires own { Contains candidates.now (own_candidate iface.old) }
    ensures { (change : IfaceChange) × Elects candidates.now iface.old iface.new change
        × (result ≡ change.adj_ok) }
{
    let change = match iface.state {
        // (9.3) In Waiting, BackupSeen and WaitTimer do the same.
        IfaceState::Waiting => iface.event(IfaceEvent::WaitTimer(candidates)),
        _ => iface.event(IfaceEvent::NeighborChange(candidates)),
    };
    change.adj_ok
}

// The neighbours of a link get AdjOK?.
fn adjust(
    neighbours: &mut [Neighbour],
    at: &LinkContext,
    outbox: &mut Outbox,
) -> Result<(), AllocError>
    ensures neighbours { OnOk result
        (neighbours.new ≡ adjusted at.now.iface at.now.local.tick outbox.old.next neighbours.old) }
    ensures number { OnOk result (outbox.new.next
        ≡ number_after at.now.iface outbox.old.next neighbours.old) }
    ensures sent { OnOk result
        (outbox.new.sent
        ≡ outbox.old.sent ++ first_dds at.now.iface at.now.local.mtu at.now.local.tick
        outbox.old.next neighbours.old) }
{
    for neighbour in neighbours.iter_mut() {
        let event = NbrEvent::AdjOk(wants_adjacency(&at.iface, neighbour.address()));
        take_event(neighbour, event, at, outbox)?;
    }
    Ok(())
}
