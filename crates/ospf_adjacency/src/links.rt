//! Links that go up and down, and their timers.

ghost use Rattle.std.specs.Prelude.{◌≡◌, ◌==◌, ◌&&◌, [], true, false, not, ◌-◌, if◌then◌else◌};
ghost use Rattle.std.specs.List.{list_any};
ghost use Rattle.ospf_neighbour.specs.Machine.{is_two_way};
ghost use Rattle.ospf_neighbour.specs.Interface.Machine.{is_down, started};
ghost use Rattle.ospf_adjacency.specs.Links.{timed, down, elects_by_timers};

use crate::heard::{is_settled, is_waiting};
use ospf_neighbour::Neighbour;
use ospf_neighbour::iface::{Iface, IfaceEvent};

/// A link goes up (RFC 2328, section 9.3). Returns whether it was down: then a
/// Hello is sent. No memory is taken.
pub fn go_up(iface: &mut Iface) -> bool
    ensures was_down { result ≡ is_down iface.old.state }
    ensures up { iface.new ≡ (if is_down iface.old.state then started iface.old else iface.old) }
{
    if !iface.state.is_down() {
        return false;
    }
    let _ = iface.event(IfaceEvent::InterfaceUp);
    true
}

/// A link goes down: its neighbours get KillNbr (RFC 2328, section 9.3). Returns whether
/// it was up. No memory is taken.
pub fn go_down(iface: &mut Iface, neighbours: &mut Vec<Neighbour>) -> bool
    ensures was_up { result ≡ not (is_down iface.old.state) }
    ensures down { iface.new ≡ down iface.old }
    ensures killed { is_down iface.old.state ≡ false → neighbours.new.items ≡ [] }
    ensures same { is_down iface.old.state ≡ true → neighbours.new.items ≡ neighbours.old.items }
{
    if iface.state.is_down() {
        return false;
    }
    let _ = iface.event(IfaceEvent::InterfaceDown);
    neighbours.clear();
    true
}

/// A tick of the inactivity timers of a link's neighbours (RFC 2328, section 10.3): those whose
/// timer fires are removed. No memory is taken.
pub fn tick_neighbours(neighbours: &mut Vec<Neighbour>)
    ensures { neighbours.new.items ≡ timed neighbours.old.items }
{
    neighbours.retain_mut(lasts);
}

/// A tick of a link's timers (RFC 2328, sections 9.3 and 10.3). Returns whether it makes an
/// election due. No memory is taken.
pub fn tick_timers(iface: &mut Iface, neighbours: &mut Vec<Neighbour>) -> bool
    ensures elects { result ≡ elects_by_timers iface.old neighbours.old.items }
    ensures iface { iface.new ≡ record iface.old { wait = iface.old.wait - 1 } }
    ensures neighbours { neighbours.new.items ≡ timed neighbours.old.items }
{
    let state = iface.state;
    let lost = is_settled(state) && some_lost(neighbours);
    let over = iface.wait_tick();
    tick_neighbours(neighbours);
    (is_waiting(state) && over) || lost
}

// The inactivity timer of a neighbour counts. Whether it does not fire.
fn lasts(neighbour: &mut Neighbour) -> bool
    ensures lasts { result ≡ not (neighbour.old.inactivity == 1) }
    ensures ticked { neighbour.new
        ≡ record neighbour.old { inactivity = neighbour.old.inactivity - 1 } }
{
    !neighbour.inactivity_tick()
}

// Whether the inactivity timer of a neighbour fires at the next tick.
fn is_inactive(neighbour: &Neighbour) -> bool
    ensures { result ≡ (neighbour.now.inactivity == 1) }
{
    neighbour.inactivity() == 1
}

// Whether some neighbour in 2-Way or above is removed at the next tick.
fn some_lost(neighbours: &[Neighbour]) -> bool
    ensures { result ≡ list_any (λ n. (n.inactivity == 1) && is_two_way n.state) neighbours.now }
{
    neighbours.iter().any(|n| is_lost(n))
}

// Whether a neighbour in 2-Way or above is removed at the next tick.
fn is_lost(neighbour: &Neighbour) -> bool
    ensures { result ≡ ((neighbour.now.inactivity == 1) && is_two_way neighbour.now.state) }
{
    is_inactive(neighbour) && neighbour.state().is_two_way()
}
