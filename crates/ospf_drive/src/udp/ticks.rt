//! Ticks of a steady clock.

ghost use Rattle.std.specs.Prelude.{◌≡◌, ◌+◌, ◌≤◌, IfOk, IfSome, IsTrue, OnErr, OnOk, false, is_some, true};
ghost use Rattle.ospf_drive.specs.Traffic.{MayEndAfter};
ghost use Rattle.std.proofs.Props.{props};
ghost use Rattle.ospf_drive.specs.UdpWire.Handed.{HasMore};
ghost use Rattle.ospf_drive.specs.declared.udp.ticks.Beat.TheVariants as beats;

use crate::udp::ending::Ending;
use std::io::{self, ErrorKind};
use std::time::{Clock, Duration, Instant};

/// The ticks of a wire: each is due one period after the last was due, so that none
/// is lost, and no delay adds up.
#[derive(Drop)]
pub(crate) struct Ticks<C: Clock + Drop> {
    clock: C,
    period: Duration,
    // When the next tick is due, once the first was asked for.
    due: Option<Instant>,
    // How many were taken.
    pub(crate) taken: u64,
    // How many there are in all, if there is a last one.
    pub(crate) most: Option<u64>,
    // The signal that no more come, if there is one.
    pub(crate) ending: Option<Ending>,
    ghost within: { IfSome most (λ ticks. taken ≤ ticks) } by { Prim.hlevel props },
}

impl<C: Clock + Drop> Ticks<C> {
    /// So many ticks, one a period, up to the ending, if there is one.
    pub(crate) fn new(
        clock: C,
        period: Duration,
        most: Option<u64>,
        ending: Option<Ending>,
    ) -> Ticks<C>
        ensures taken { result.taken ≡ 0 }
        ensures most { result.most ≡ most }
        ensures ending { is_some result.ending ≡ is_some ending }
    {
        Ticks {
            clock,
            period,
            due: None,
            taken: 0,
            most,
            ending,
        }
    }

    /// Whether a tick is due. None is due any more once all were taken, or the end was signalled.
    pub(crate) fn beat(&mut self) -> io::Result<Beat>
        ensures taken { self.new.taken ≡ self.old.taken }
        ensures most { self.new.most ≡ self.old.most }
        ensures ending { self.new.ending ≡ self.old.ending }
        // A tick is due only while one is left, and all is over only where it may be.
        ensures due { IfOk result (λ beat. beat ≡ beats.Due →
            HasMore self.new.most self.new.taken) }
        ensures over { IfOk result (λ beat. beat ≡ beats.Over →
            MayEndAfter self.new.most (is_some self.new.ending) self.new.taken) }
    {
        if self.is_over() {
            return Ok(Beat::Over);
        }
        let now = Instant::now(&self.clock)?;
        let due = self.next(now)?;
        if now >= due {
            Ok(Beat::Due)
        } else {
            Ok(Beat::In(due.duration_since(now)))
        }
    }

    /// A tick that is due is taken.
    pub(crate) fn take(&mut self) -> io::Result<()>
        requires { HasMore self.old.most self.old.taken }
        ensures taken { OnOk result (self.new.taken ≡ self.old.taken + 1) }
        // Nothing else changes, and after an error nothing at all.
        ensures most { self.new.most ≡ self.old.most }
        ensures ending { self.new.ending ≡ self.old.ending }
        ensures none { OnErr result (self.new.taken ≡ self.old.taken) }
    {
        let Some(taken) = self.taken.checked_add(1) else {
            return Err(io::Error::from(ErrorKind::InvalidInput));
        };
        if let Some(due) = self.due {
            self.due = Some(after(due, self.period)?);
        }
        self.taken = taken;
        Ok(())
    }

    // Whether no tick comes any more; where one does, there is one more.
    fn is_over(&self) -> bool
        ensures over { IsTrue result →
            MayEndAfter self.now.most (is_some self.now.ending) self.now.taken }
        ensures more { result ≡ false → HasMore self.now.most self.now.taken }
    {
        match self.most {
            Some(most) if self.taken == most => true,
            Some(_) | None => self.is_told(),
        }
    }

    // Whether the end was signalled.
    fn is_told(&self) -> bool
        ensures { IsTrue result → is_some self.now.ending ≡ true }
    {
        match &self.ending {
            Some(ending) => ending.is_told(),
            None => false,
        }
    }

    // When the next tick is due: a period from now, where none was asked for before.
    fn next(&mut self, now: Instant) -> io::Result<Instant>
        ensures taken { self.new.taken ≡ self.old.taken }
        ensures most { self.new.most ≡ self.old.most }
        ensures ending { self.new.ending ≡ self.old.ending }
    {
        if let Some(due) = self.due {
            return Ok(due);
        }
        let due = after(now, self.period)?;
        self.due = Some(due);
        Ok(due)
    }
}

/// What the clock says.
pub(crate) enum Beat {
    /// A tick is due.
    Due,
    /// None is due for so long.
    In(Duration),
    /// None comes any more.
    Over,
}

// The moment a period later.
fn after(moment: Instant, period: Duration) -> io::Result<Instant> {
    moment
        .checked_add(period)
        .ok_or(io::Error::from(ErrorKind::InvalidInput))
}
