//! How far a simulation, or the failures of an area, have come, on a terminal.

use ospf_failures::Progress;
use ospf_files::Failure;
use ospf_notes::StatusLine;
use ospf_sim::{EventWatch, Events, Recording, Watch, World, WorldEvent, WorldFault};
use std::io::Write;
use std::rt::Runtime;
use std::time::Clock;

/// Shows on a terminal the progress of a simulation's rounds, or of its random events, and writes
/// its journal and its capture.
#[derive(Drop)]
pub(crate) struct Screen<R: Runtime + Clock + Drop, T: Write + Drop, F: Write + Drop> {
    rt: R,
    line: StatusLine<T>,
    events: Events<F>,
    recording: Recording<R>,
}

impl<R: Runtime + Clock + Drop, T: Write + Drop, F: Write + Drop> Screen<R, T, F> {
    /// Shows nothing if the line is not on a terminal.
    pub(crate) fn new(
        rt: R,
        line: StatusLine<T>,
        events: Events<F>,
        recording: Recording<R>,
    ) -> Screen<R, T, F> {
        Screen {
            rt,
            line,
            events,
            recording,
        }
    }

    /// Why not all could be written to the journal, if there is one and that is so.
    pub(crate) fn journal_failure(&self) -> Option<Failure> {
        self.events.failure()
    }
}

impl<R: Runtime + Clock + Drop, T: Write + Drop, F: Write + Drop> EventWatch for Screen<R, T, F> {
    ghost use Rattle.ospf_sim.specs.Followed.{FollowsEvent, LooksAhead};

    // The journal receives the event, as it promises.
    ghost comes_gives = { λ w event old new. LooksAhead w event old.events new.events };

    ghost came_gives = { λ w event answer old new. FollowsEvent w event answer old.events
        new.events };

    fn comes(&mut self, world: &World, event: &WorldEvent) {
        self.events.comes(world, event);
    }

    fn came(&mut self, world: &World, event: &WorldEvent, answer: &Result<(), WorldFault>) {
        self.events.came(world, event, answer);
        self.recording.came(world);
    }
}

impl<R: Runtime + Clock + Drop, T: Write + Drop, F: Write + Drop> Watch for Screen<R, T, F> {
    ghost use Rattle.std.specs.Prelude.{◌≡◌};

    // The journal stays.
    ghost goes_on_gives = { λ old new. new.events ≡ old.events };

    fn begins_round(&mut self, done: u64, count: u64) {
        if let Some(terminal) = self.line.begin(&self.rt) {
            let _ = write!(terminal, "\r\x1b[K{done} of {count} rounds");
        }
    }

    fn draws_events(&mut self, done: u64, count: u64) {
        if let Some(terminal) = self.line.begin(&self.rt) {
            let _ = write!(terminal, "\r\x1b[K{done} of {count} random events");
        }
    }

    fn ends_line(&mut self) {
        self.line.erase();
        self.recording.ends_line();
    }
}

/// Shows on a terminal at how many routers the failures of an area are done.
#[derive(Drop)]
pub(crate) struct FailuresLine<R: Clock + Drop, T: Write + Drop> {
    rt: R,
    line: StatusLine<T>,
}

impl<R: Clock + Drop, T: Write + Drop> FailuresLine<R, T> {
    /// Shows nothing if the line is not on a terminal.
    pub(crate) fn new(rt: R, line: StatusLine<T>) -> FailuresLine<R, T> {
        FailuresLine { rt, line }
    }
}

impl<R: Clock + Drop, T: Write + Drop> Progress for FailuresLine<R, T> {
    fn comes(&mut self, done: usize, count: usize) {
        if done == count {
            self.line.erase();
        } else if let Some(terminal) = self.line.begin(&self.rt) {
            let _ = write!(terminal, "\r\x1b[K{done} of {count} routers");
        }
    }
}
