//! The interface state machine (RFC 2328, sections 9.1 to 9.4).

use crate::iface::candidate::{Candidate, Elected};
use crate::iface::election::elect;
use crate::iface::settings::IfaceSettings;
use ospf_base::Addr;

/// The states of an interface (section 9.1).
#[derive(Clone, Copy, Debug, PartialEq, Eq)]
pub enum IfaceState {
    Down,
    Waiting,
    PointToPoint,
    DrOther,
    Backup,
    Dr,
}

impl IfaceState {
    ghost use Rattle.std.specs.Prelude.{◌≡◌};
    ghost use Rattle.ospf_neighbour.specs.Interface.Machine.{is_down, is_dr_or_backup};

    /// Whether the interface takes no part.
    pub fn is_down(self) -> bool
        ensures { result ≡ is_down self }
    {
        matches!(self, IfaceState::Down)
    }

    /// Whether the router is the Designated Router or the Backup of the network.
    pub fn is_dr_or_backup(self) -> bool
        ensures { result ≡ is_dr_or_backup self }
    {
        matches!(self, IfaceState::Dr | IfaceState::Backup)
    }
}

/// An interface (section 9).
#[derive(Clone, Copy, Debug, PartialEq, Eq)]
pub struct Iface {
    pub settings: IfaceSettings,
    pub state: IfaceState,
    /// The Designated Router's address, 0.0.0.0 where there is none.
    pub dr: Addr,
    /// The Backup's address, 0.0.0.0 where there is none.
    pub backup: Addr,
    /// The ticks that are left of Waiting.
    pub wait: u32,
    /// The ticks to the next Hello.
    pub hello_in: u16,
}

impl Iface {
    ghost use Rattle.std.specs.Prelude.{◌≡◌, ◌≢◌, ◌-◌, ◌↔◌, IsTrue, Contains, true, false};
    ghost use Rattle.std.specs.Bool.{OnTrue, OnFalse};
    ghost use Rattle.ospf_neighbour.specs.Interface.Election.{AreDistinct};
    ghost use Rattle.ospf_neighbour.specs.declared.iface.machine.IfaceState.TheVariants.{Down};
    ghost use Rattle.ospf_neighbour.specs.Interface.Hello.{IsHelloDue};
    ghost use Rattle.ospf_neighbour.specs.Interface.Machine.{action, is_changed, started, iface_stopped, own_candidate, CanTakeAction, DoesAction, Elects, change_of};

    /// The router itself, as it takes part in the interface's election (section 9.4, step 1).
    pub fn own_candidate(&self) -> Candidate
        ensures { result ≡ own_candidate self.now }
    {
        Candidate {
            id: self.settings.router,
            address: self.settings.address,
            priority: self.settings.priority,
            dr: self.dr,
            backup: self.backup,
        }
    }

    /// Processes an event (section 9.3). An election is that of `elect`. No memory is taken.
    pub fn event(&mut self, event: IfaceEvent) -> IfaceChange
        requires { CanTakeAction (action self.old.state event) self.old }
        ensures { DoesAction (action self.old.state event.entry) self.old self.new result }
    {
        match (self.state, event) {
            (IfaceState::Down, IfaceEvent::InterfaceUp) => self.start(),
            (IfaceState::Waiting, IfaceEvent::BackupSeen(candidates)) => self.elect(candidates),
            (IfaceState::Waiting, IfaceEvent::WaitTimer(candidates)) => self.elect(candidates),
            (IfaceState::DrOther, IfaceEvent::NeighborChange(candidates)) => self.elect(candidates),
            (IfaceState::Backup, IfaceEvent::NeighborChange(candidates)) => self.elect(candidates),
            (IfaceState::Dr, IfaceEvent::NeighborChange(candidates)) => self.elect(candidates),
            (_, IfaceEvent::InterfaceDown) => self.stop(),
            (_, _) => self.change(false, false, false),
        }
    }

    /// One tick of the wait timer; whether it fires.
    pub fn wait_tick(&mut self) -> bool
        ensures state { self.new ≡ record self.old { wait = self.old.wait - 1 } }
        ensures fires { IsTrue result ↔ (self.old.wait ≡ 1) }
    {
        let fires = self.wait == 1;
        self.wait = self.wait.saturating_sub(1);
        fires
    }

    /// One tick of the Hello timer; whether a Hello is due (RFC 2328, section 9.5).
    /// When a Hello is due, the timer starts again at HelloInterval; while the
    /// interface is Down, it does not run.
    pub fn hello_tick(&mut self) -> bool
        ensures due { IsTrue result ↔ IsHelloDue self.old }
        ensures again { OnTrue result (self.new
            ≡ record self.old { hello_in = self.old.settings.hello }) }
        ensures counts { self.old.state ≢ Down →
            OnFalse result (self.new ≡ record self.old { hello_in = self.old.hello_in - 1 }) }
        ensures down { self.old.state ≡ Down → self.new ≡ self.old }
    {
        if matches!(self.state, IfaceState::Down) {
            return false;
        }
        let due = self.hello_in <= 1;
        self.hello_in = self.hello_in.saturating_sub(1);
        if due {
            self.hello_in = self.settings.hello;
        }
        due
    }

    // The interface becomes operational.
    fn start(&mut self) -> IfaceChange
        ensures state { self.new ≡ started self.old }
        ensures told { result ≡ change_of self.new false false true }
    {
        let state = self.settings.first_state();
        self.state = state;
        self.dr = Addr::NOWHERE;
        self.backup = Addr::NOWHERE;
        self.wait = match state {
            IfaceState::Waiting => self.settings.dead,
            _ => 0,
        };
        self.hello_in = self.settings.hello;
        self.change(false, false, true)
    }

    // What is reported of the interface as it is.
    fn change(&self, adj_ok: bool, kills: bool, hello: bool) -> IfaceChange
        ensures { result ≡ change_of self.now adj_ok kills hello }
    {
        IfaceChange {
            state: self.state,
            dr: self.dr,
            backup: self.backup,
            adj_ok,
            kills,
            hello,
        }
    }

    // The Designated Router and the Backup are elected (section 9.4).
    fn elect(&mut self, candidates: &[Candidate]) -> IfaceChange
        requires distinct { AreDistinct candidates.now }
        requires own { Contains candidates.now (own_candidate self.old) }
        ensures { Elects candidates.now self.old self.new result }
    {
        let e = elect(candidates, self.settings.router);
        let adj_ok = self.differs(e);
        self.state = self.settings.elected_state(e);
        self.dr = e.dr;
        self.backup = e.backup;
        self.wait = 0;
        self.change(adj_ok, false, false)
    }

    // Whether the elected Designated Router or Backup changed.
    fn differs(&self, e: Elected) -> bool
        ensures { result ≡ is_changed self.now e }
    {
        e.dr.0 != self.dr.0 || e.backup.0 != self.backup.0
    }

    // The interface is reset.
    fn stop(&mut self) -> IfaceChange
        ensures state { self.new ≡ iface_stopped self.old }
        ensures told { result ≡ change_of self.new false true false }
    {
        self.state = IfaceState::Down;
        self.dr = Addr::NOWHERE;
        self.backup = Addr::NOWHERE;
        self.wait = 0;
        self.hello_in = 0;
        self.change(false, true, false)
    }
}

/// What happens to an interface (section 9.2). An event that elects brings the
/// candidates, the router itself among them.
#[derive(Clone, Copy, Debug)]
pub enum IfaceEvent<'a> {
    InterfaceUp,
    BackupSeen(&'a [Candidate]),
    WaitTimer(&'a [Candidate]),
    NeighborChange(&'a [Candidate]),
    InterfaceDown,
}

/// What an event does.
#[derive(Clone, Copy, Debug, PartialEq, Eq)]
pub struct IfaceChange {
    pub state: IfaceState,
    pub dr: Addr,
    pub backup: Addr,
    /// AdjOK? is due for the neighbours in 2-Way or above.
    pub adj_ok: bool,
    /// The neighbours get KillNbr.
    pub kills: bool,
    /// A Hello is sent.
    pub hello: bool,
}
