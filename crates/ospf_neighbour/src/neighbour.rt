//! A neighbour: what its Hellos declare, and its lists.

use crate::lists;
use crate::machine::{Effect, NbrChange, NbrEvent, NeighbourState, transition};
use crate::requests::Requests;
use crate::retransmissions::Retransmissions;
use ospf_base::{Addr, Instance, LsaKey, RouterId};
use ospf_lsa::LsaHeader;
use std::alloc::{AllocError, Global};
use std::marker::Model;

/// What a DD packet is recognized by when it comes again.
#[derive(Clone, Copy, Debug, PartialEq, Eq)]
pub struct Accepted {
    pub flags: u8,
    pub options: u8,
    pub number: u32,
}

/// An instance that waits for an acknowledgement, and the tick at which it was last sent or, if it
/// never was, put on the list.
#[derive(Clone, Copy, Debug, PartialEq, Eq)]
pub struct Listed {
    pub instance: Instance,
    /// In ticks of the router.
    pub sent_at: u64,
}

/// What a neighbour's last Hello declares on a broadcast link; else zeros.
#[derive(Clone, Copy, Debug, PartialEq, Eq)]
pub struct Declared {
    pub priority: u8,
    pub dr: Addr,
    pub backup: Addr,
}

/// The state of a database exchange.
#[derive(Clone, Copy, Debug, PartialEq, Eq)]
pub struct Exchanging {
    /// Whether this router is the master.
    pub is_master: bool,
    /// The number of the last DD packet sent.
    pub number: u32,
    pub flags: u8,
    /// When it was last sent, in ticks of the router.
    pub sent_at: u64,
    pub accepted: Option<Accepted>,
}

/// A neighbour (RFC 2328, section 10). Below Exchange its lists are empty, and neither its request
/// list nor its retransmission list has two entries of one LSA.
#[derive(Drop)]
pub struct Neighbour {
    router: RouterId,
    address: Addr,
    declared: Declared,
    state: NeighbourState,
    inactivity: u32,
    exchanging: Exchanging,
    summary: Vec<LsaHeader>,
    last_dd: Vec<LsaHeader>,
    requests: Requests,
    asked: usize,
    asked_at: u64,
    retransmission: Retransmissions,
}

impl Model for Neighbour {
    ghost use Rattle.ospf_neighbour.specs.Neighbour.{NeighbourValue, IsSoundNeighbour};

    ghost Value = { NeighbourValue };

    ghost view = { λ n. record {
      router = n.router;
      address = n.address;
      declared = n.declared;
      state = n.state;
      inactivity = n.inactivity;
      exchanging = n.exchanging;
      summary = n.summary.items;
      last_dd = n.last_dd.items;
      requests = n.requests;
      asked = n.asked;
      asked_at = n.asked_at;
      retransmission = n.retransmission;
    } };

    ghost invariant = { λ n. IsSoundNeighbour n.state n.summary.items n.last_dd.items n.requests
        n.asked n.retransmission };
}

impl Neighbour {
    ghost use Rattle.std.specs.Prelude.{◌≡◌, ◌≤◌, ◌-◌, ◌↔◌, IsTrue, OnOk, OnErr, drop, length, take};
    ghost use Rattle.ospf_neighbour.specs.Machine.{is_exchanging, transition, LeavesNone};
    ghost use Rattle.ospf_neighbour.specs.Neighbour.{IsSoundNeighbour, is_empty, new_neighbour, effected, negotiated};
    ghost use Rattle.ospf_neighbour.specs.Lists.{request_of, requesting, unrequested, is_listed, is_key_listed, unlisted, key_unlisted, relisted, resent};
    ghost use Rattle.ospf_neighbour.specs.OneAKey.{IsAloneOfKeys};

    /// A neighbour in state Down.
    pub fn new(alloc: Global, router: RouterId, address: Addr) -> Neighbour
        ensures { result ≡ new_neighbour router address }
    {
        Neighbour {
            router,
            address,
            declared: Declared {
                priority: 0,
                dr: Addr::NOWHERE,
                backup: Addr::NOWHERE,
            },
            state: NeighbourState::Down,
            inactivity: 0,
            exchanging: Exchanging {
                is_master: false,
                number: 0,
                flags: 0,
                sent_at: 0,
                accepted: None,
            },
            summary: Vec::new(alloc),
            last_dd: Vec::new(alloc),
            requests: Requests::new(alloc),
            asked: 0,
            asked_at: 0,
            retransmission: Retransmissions::new(alloc),
        }
    }

    /// The state of the conversation.
    pub fn state(&self) -> NeighbourState
        ensures { result ≡ self.now.state }
    {
        self.state
    }

    /// Its Router ID.
    pub fn router(&self) -> RouterId
        ensures { result ≡ self.now.router }
    {
        self.router
    }

    /// The address of its interface.
    pub fn address(&self) -> Addr
        ensures { result ≡ self.now.address }
    {
        self.address
    }

    /// What its last Hello declares on a broadcast link; else zeros.
    pub fn declared(&self) -> Declared
        ensures { result ≡ self.now.declared }
    {
        self.declared
    }

    /// The ticks that are left of its inactivity timer.
    pub fn inactivity(&self) -> u32
        ensures { result ≡ self.now.inactivity }
    {
        self.inactivity
    }

    /// The state of the exchange of databases.
    pub fn exchanging(&self) -> Exchanging
        ensures { result ≡ self.now.exchanging }
    {
        self.exchanging
    }

    /// The headers that are still to be described to it.
    pub fn summary(&self) -> &[LsaHeader]
        ensures { result.now ≡ self.now.summary }
    {
        &self.summary
    }

    /// The headers of the last Database Description that was sent to it.
    pub fn last_dd(&self) -> &[LsaHeader]
        ensures { result.now ≡ self.now.last_dd }
    {
        &self.last_dd
    }

    /// The headers of the LSAs that must be requested from it.
    pub fn requests(&self) -> &[LsaHeader]
        ensures { result.now ≡ self.now.requests }
    {
        self.requests.entries()
    }

    /// How many of these, from the front, the last Request named, and when it
    /// was sent, in ticks of the router.
    pub fn asked(&self) -> (usize, u64)
        ensures { result ≡ (self.now.asked, self.now.asked_at) }
    {
        (self.asked, self.asked_at)
    }

    /// The headers of these, which the last Request named.
    pub fn asked_headers(&self) -> &[LsaHeader]
        ensures { result.now ≡ take self.now.asked self.now.requests }
    {
        &self.requests.entries()[..self.asked]
    }

    /// Whether it is in Exchange or above. Below, its lists are empty. Neither its request list nor
    /// its retransmission list has two entries of one LSA.
    pub fn is_exchanging(&self) -> bool
        ensures value { result ≡ is_exchanging self.now.state }
        ensures lists { IsSoundNeighbour self.now.state self.now.summary self.now.last_dd
            self.now.requests
            self.now.asked self.now.retransmission }
    {
        // For the proof.
        let _asked = self.asked;
        self.state.is_exchanging()
    }

    /// The instances that it has not acknowledged.
    pub fn retransmission(&self) -> &[Listed]
        ensures { result.now ≡ self.now.retransmission }
    {
        self.retransmission.entries()
    }

    /// Processes an event (section 10.3). `dead` is the interface's
    /// RouterDeadInterval, in ticks. No memory is taken.
    pub fn event(&mut self, event: NbrEvent, dead: u32) -> NbrChange
        ensures tells { result ≡ transition self.old.state event (is_empty self.old.requests) }
        ensures becomes { self.new ≡ effected result dead self.old }
    {
        let change = transition(self.state, event, self.requests.is_empty());
        self.put_state(change, dead);
        change
    }

    /// Whether an instance is on the retransmission list.
    pub fn is_listed(&self, instance: &Instance) -> bool
        ensures { result ≡ is_listed instance.now self.now.retransmission }
    {
        self.retransmission.is_listed(instance)
    }

    /// Whether some instance of a key is on the retransmission list.
    pub fn is_key_listed(&self, key: &LsaKey) -> bool
        ensures { result ≡ is_key_listed key.now self.now.retransmission }
    {
        self.retransmission.is_key_listed(key)
    }

    /// Puts an instance on the retransmission list at this tick (section 13.3), in place of all
    /// others of its key.
    ///
    /// `AllocError` where memory runs out; then the neighbour is as it was.
    pub fn relist(&mut self, instance: Instance, tick: u64) -> Result<(), AllocError>
        requires { IsTrue (is_exchanging self.old.state) }
        ensures ok { OnOk result (self.new ≡ relisted instance tick self.old) }
        ensures err { OnErr result (self.new ≡ self.old) }
    {
        let entry = Listed {
            instance,
            sent_at: tick,
        };
        self.retransmission.put(entry)
    }

    /// Removes an instance from the retransmission list (section 13.7). No memory is taken.
    pub fn unlist(&mut self, instance: &Instance)
        ensures { self.new ≡ unlisted instance.now self.old }
    {
        self.retransmission.remove_instance(instance);
    }

    /// Removes all instances of a key from the retransmission list (section
    /// 13, step 5). No memory is taken.
    pub fn unlist_key(&mut self, key: &LsaKey)
        ensures { self.new ≡ key_unlisted key.now self.old }
    {
        self.retransmission.remove_key(key);
    }

    /// An instance was sent to the neighbour at this tick; it counts where the instance is on the
    /// retransmission list (section 13.6). No memory is taken.
    pub fn resend(&mut self, instance: &Instance, tick: u64)
        ensures { self.new ≡ resent instance.now tick self.old }
    {
        self.retransmission.mark(instance, tick);
    }

    /// The header on the request list that is of a key's LSA.
    pub fn request_of(&self, key: &LsaKey) -> Option<LsaHeader>
        ensures { result ≡ request_of key.now self.now.requests }
    {
        self.requests.request_of(key)
    }

    /// Removes the entry of a key from the request list; of those that the last Request named, the
    /// others are still asked for (section 13.3). No memory is taken.
    pub fn remove_request(&mut self, key: &LsaKey)
        ensures { self.new ≡ unrequested key.now self.old }
    {
        if self.requests.is_requested(key) {
            let asked = lists::others(key, &self.requests.entries()[..self.asked]);
            self.requests.remove(key);
            self.asked = asked;
        }
    }

    /// Sets the state of the exchange of databases, on which nothing else of the neighbour depends.
    pub fn put_exchanging(&mut self, exchanging: Exchanging)
        ensures { self.new ≡ record self.old { exchanging = exchanging } }
    {
        self.exchanging = exchanging;
    }

    /// NegotiationDone (section 10.3), with the headers that must be described and the
    /// instances that go on the retransmission list, at most one per key. Running out of
    /// memory does not change the result.
    pub fn begin_exchange(&mut self, is_master: bool, summary: Vec<LsaHeader>, listed: Vec<Listed>)
        requires state { self.old.state ≡ NeighbourState.ExStart }
        requires alone { IsAloneOfKeys listed.items }
        ensures { self.new ≡ negotiated is_master summary.items listed.items self.old }
    {
        let change = transition(
            self.state,
            NbrEvent::NegotiationDone,
            self.requests.is_empty(),
        );
        self.state = change.state;
        self.exchanging.is_master = is_master;
        self.exchanging.accepted = None;
        self.summary = summary;
        self.retransmission.replace(listed);
    }

    /// Puts headers on the request list (section 10.6), in turn: each takes the place of the entry
    /// of its LSA, if there is one, and else the last place.
    ///
    /// `AllocError` where memory runs out; then the neighbour is as it was.
    pub fn add_requests(&mut self, headers: &[LsaHeader]) -> Result<(), AllocError>
        requires { IsTrue (is_exchanging self.old.state) }
        ensures ok { OnOk result (self.new ≡ requesting headers.now self.old) }
        ensures err { OnErr result (self.new ≡ self.old) }
    {
        self.requests.put(headers)
    }

    /// The next headers of the summary list, `next`, are described in the last DD packet, and leave
    /// the list (section 10.8). No memory is taken.
    pub fn describe(&mut self, next: Vec<LsaHeader>)
        requires state { IsTrue (is_exchanging self.old.state) }
        requires next { next.items ≡ take (length next.items) self.old.summary }
        ensures { self.new ≡ record self.old
            { last_dd = next.items; summary = drop (length next.items) self.old.summary } }
    {
        drop(self.summary.drain(..next.len()));
        self.last_dd = next;
    }

    /// The first `count` headers of the request list are named in a Request
    /// (section 10.9), sent at this tick.
    pub fn ask(&mut self, count: usize, tick: u64)
        requires { count ≤ length self.old.requests }
        ensures { self.new ≡ record self.old { asked = count; asked_at = tick } }
    {
        self.asked = count;
        self.asked_at = tick;
    }

    /// Stores what a Hello declares.
    pub fn declare(&mut self, declared: Declared)
        ensures { self.new ≡ record self.old { declared = declared } }
    {
        self.declared = declared;
    }

    /// One tick of the inactivity timer; whether it fires.
    pub fn inactivity_tick(&mut self) -> bool
        ensures state { self.new ≡ record self.old { inactivity = self.old.inactivity - 1 } }
        ensures fires { IsTrue result ↔ (self.old.inactivity ≡ 1) }
    {
        let fires = self.inactivity == 1;
        self.inactivity = self.inactivity.saturating_sub(1);
        fires
    }

    // The state that a change leaves, and what begins with it.
    fn put_state(&mut self, change: NbrChange, dead: u32)
        requires { LeavesNone self.old.state change }
        ensures { self.new ≡ effected change dead self.old }
    {
        match change.effect {
            Effect::TimerRestarts => {
                self.inactivity = dead;
            }
            Effect::AdjacencyBegins | Effect::ListsEmptied | Effect::Removed => {
                self.summary.clear();
                self.last_dd.clear();
                self.requests.clear();
                self.asked = 0;
                self.retransmission.clear();
            }
            Effect::Nothing | Effect::ExchangeBegins => {}
        }
        self.state = change.state;
    }
}
