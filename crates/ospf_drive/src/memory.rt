//! A wire in memory: it delivers the arrivals of a script, stores what goes
//! out, and fails at a chosen call.

ghost use Rattle.std.specs.Prelude.{◌≡◌, ◌≤◌, IfOk, vec_len, take, length};
ghost use Rattle.ospf_drive.specs.Traffic.{heard_from};
ghost use Rattle.ospf_drive.specs.Scripts.{new_wire, scripted};

use crate::wire::{Arrival, LONGEST, Wire, WireFault};
use ospf_base::Addr;
use ospf_router::Sent;
use std::alloc::{AllocError, Global};
use std::marker::Model;

/// An arrival of a script.
#[derive(Drop)]
pub enum Scripted {
    Datagram {
        link: usize,
        source: Addr,
        destination: Addr,
        bytes: Vec<u8>,
    },
    Tick,
    LinkUp {
        link: usize,
    },
    LinkDown {
        link: usize,
    },
    End,
}

/// A wire in memory.
#[derive(Drop)]
pub struct MemoryWire {
    arrivals: Vec<Scripted>,
    // How many were delivered.
    taken: usize,
    out: Vec<Sent>,
    failed: u64,
    // How many calls succeed before one fails.
    good_receives: Option<usize>,
    good_sends: Option<usize>,
    alloc: Global,
    ghost taken_within: { taken ≤ vec_len arrivals },
}

impl Model for MemoryWire {
    ghost use Rattle.ospf_drive.specs.Scripts.{MemoryValue};

    ghost Value = { MemoryValue };

    ghost view = { λ w. record {
      arrivals = w.arrivals.items;
      taken = w.taken;
      out = w.out.items;
      failed = w.failed;
    } };
}

impl MemoryWire {
    /// A wire that fails where the script ends without an end, and after so
    /// many good calls, if that is said.
    pub fn new(
        alloc: Global,
        arrivals: Vec<Scripted>,
        good_receives: Option<usize>,
        good_sends: Option<usize>,
    ) -> MemoryWire
        ensures { result ≡ new_wire arrivals.items }
    {
        MemoryWire {
            arrivals,
            taken: 0,
            out: Vec::new(alloc),
            failed: 0,
            good_receives,
            good_sends,
            alloc,
        }
    }

    /// What went out.
    pub fn sent(&self) -> &[Sent]
        ensures { result.now ≡ self.now.out }
    {
        &self.out
    }
}

impl Wire for MemoryWire {
    ghost use Rattle.ospf_drive.specs.Scripts.{told_by_script};
    ghost use Rattle.ospf_drive.specs.Traffic.Carried.{Full};

    ghost traffic = { λ w. Full (told_by_script w.arrivals w.taken w.out) };

    ghost failed = { λ w. w.failed };

    fn recv(&mut self, buffer: &mut [u8; LONGEST]) -> Result<Arrival, WireFault> {
        let (fails, good) = count_down(self.good_receives);
        self.good_receives = good;
        if fails || self.taken >= self.arrivals.len() {
            self.failed += 1;
            return Err(WireFault);
        }
        let arrival = hand_over(&self.arrivals[self.taken], buffer);
        self.taken += 1;
        Ok(arrival)
    }

    fn send(&mut self, sent: &Sent) -> Result<(), WireFault> {
        let (fails, good) = count_down(self.good_sends);
        self.good_sends = good;
        if fails {
            self.failed += 1;
            return Err(WireFault);
        }
        let Ok(copy) = copy_sent(self.alloc, sent) else {
            self.failed += 1;
            return Err(WireFault);
        };
        if self.out.push(copy).is_err() {
            self.failed += 1;
            return Err(WireFault);
        }
        Ok(())
    }

    fn failures(&self) -> u64 {
        self.failed
    }
}

// Whether this call is to fail, and how many are to succeed before one does.
fn count_down(good: Option<usize>) -> (bool, Option<usize>) {
    match good {
        None => (false, None),
        Some(0) => (true, None),
        Some(count) => (false, Some(count - 1)),
    }
}

// Puts what the script says into the buffer.
fn hand_over(arrival: &Scripted, buffer: &mut [u8; LONGEST]) -> Arrival
    ensures { heard_from result buffer.new ≡ scripted arrival.now }
{
    match arrival {
        Scripted::Datagram {
            link,
            source,
            destination,
            bytes,
        } => {
            fill(buffer, bytes);
            Arrival::Datagram {
                link: *link,
                source: *source,
                destination: *destination,
                length: bytes.len(),
            }
        }
        Scripted::Tick => Arrival::Tick,
        Scripted::LinkUp { link } => Arrival::LinkUp { link: *link },
        Scripted::LinkDown { link } => Arrival::LinkDown { link: *link },
        Scripted::End => Arrival::End,
    }
}

// Puts the bytes at the front of the buffer, as many as it holds.
fn fill(buffer: &mut [u8; LONGEST], bytes: &[u8])
    ensures { take (length bytes.now) buffer.new ≡ take 16393 bytes.now }
{
    if bytes.len() <= LONGEST {
        buffer[..bytes.len()].copy_from_slice(bytes);
    } else {
        let (front, _) = bytes.split_at(LONGEST);
        buffer.copy_from_slice(front);
    }
}

// The same datagram, in memory of its own.
fn copy_sent(alloc: Global, sent: &Sent) -> Result<Sent, AllocError>
    ensures { IfOk result (λ copy. copy ≡ sent.now) }
{
    Ok(Sent {
        link: sent.link,
        source: sent.source,
        destination: sent.destination,
        bytes: sent.bytes.to_vec(alloc)?,
    })
}
