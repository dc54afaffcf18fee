//! What is recorded and shown of routers while they run: a capture of what they send, their tables
//! from time to time, what they drop, a line on a terminal, and messages about neighbours whose
//! LSAs a router refuses and about packets that do not fit it.

ghost use Rattle.std.specs.Prelude.{◌≡◌, IfOk};
ghost use Rattle.ospf_views.specs.RecordFiles.Pcap.{file_header};

use crate::capture::{Capture, record_of};
use crate::dropped::{Heard, dropped_in};
use crate::faulty::Faulty;
use crate::line::StatusLine;
use crate::lsa_changes::{KnownLsas, LsaChange};
use crate::lsa_log::LsaLog;
use crate::misfits::{MisfitShown, Misfits};
use crate::others::Others;
use crate::refused::{RefusedLsa, RefusedShown};
use crate::tables::Tables;
use ospf_area::Outputs;
use ospf_base::{Addr, MOST_INTERFACES, RouterId};
use ospf_config::Interface;
use ospf_files::{Failure, NamedFile, tell_unwritten};
use ospf_journal::{DroppedAt, Reported, RouterChange, Seen};
use ospf_neighbour::NeighbourState;
use ospf_router::step::{DropCounts, count_dropped, none_dropped_on};
use ospf_run::{Config, Drops, Ending, Router, Sent, Step, Tap};
use ospf_views::records::{Journal, write_header};
use std::alloc::{AllocError, Global};
use std::fmt::Display;
use std::io::{self, Write};
use std::mem;
use std::sync::{Arc, Mutex, Wait};
use std::time::Clock;

/// What to record and show of a run.
#[derive(Drop)]
pub struct Noted<F: Write + Drop, T: Write + Drop, O: Write + Drop> {
    /// How many ticks the run has, if one is the last.
    pub of: Option<u64>,
    /// The file into which sent packets are captured, if they are, and its name.
    pub capture: Option<F>,
    pub pcap: Option<String>,
    /// Where messages go, and the progress of the run.
    pub line: StatusLine<T>,
    /// Where tables are printed while the routers run, if they are, and what ends the run if they
    /// can no longer be printed.
    pub tables: Option<Tables<O>>,
    pub ending: Option<Ending>,
    /// Whether to count what the routers drop.
    pub drops: bool,
    /// Where a journal is written, if one is, and the name of that file.
    pub journal: Option<Journal<F>>,
    pub log: Option<String>,
    /// Where a journal of LSAs is written, if one is, and the name of that file.
    pub lsas: Option<LsaLog<F>>,
    pub lsas_name: Option<String>,
}

/// The notes of one router. The notes of all routers of a run share a capture, tables, counts and a
/// line.
#[derive(Drop)]
pub struct Notes<R: Wait + Clock + Copy + Drop, F: Write + Drop, T: Write + Drop, O: Write + Drop> {
    rt: R,
    alloc: Global,
    shared: Arc<Mutex<Shared<F, T, O>>, Global>,
    captures: bool,
    shows: bool,
    // After how many ticks a table is printed, if one is.
    every: Option<u64>,
    // How many ticks the run has, if one is the last, and how many the router has taken.
    of: Option<u64>,
    ticks: u64,
    has_ticked: bool,
    full: usize,
    // The packet that arrived last, until a step has been made.
    heard: Option<Heard>,
    // What the router dropped on its links, if that is counted.
    counts: Option<Vec<DropCounts>>,
    // What was seen of the router, if a journal is written.
    seen: Option<Seen>,
    // The LSAs that it listed, if a journal of LSAs is written.
    known: Option<KnownLsas>,
    teller: Teller,
}

impl<R: Wait + Clock + Copy + Drop, F: Write + Drop, T: Write + Drop, O: Write + Drop> Notes<
    R,
    F,
    T,
    O,
> {
    /// Makes the notes of a run and writes the capture's header. If a file cannot be written, that
    /// is reported with the messages, as soon as it is known.
    ///
    /// `AllocError` if memory runs out.
    pub fn new(
        rt: R,
        alloc: Global,
        noted: Noted<F, T, O>,
    ) -> Result<Notes<R, F, T, O>, AllocError> {
        let (of, drops, shows) = (noted.of, noted.drops, noted.line.has_terminal());
        let (captures, logs) = (noted.capture.is_some(), noted.journal.is_some());
        let lists = noted.lsas.is_some();
        let every = noted.tables.as_ref().map(|it| it.every());
        let mut shared = Shared::new(alloc, noted);
        shared.capture(Ok(capture_head(alloc)?));
        let shared = share(shared, alloc)?;
        Ok(Notes {
            rt,
            alloc,
            shared,
            captures,
            shows,
            every,
            of,
            ticks: 0,
            has_ticked: false,
            full: 0,
            heard: None,
            counts: first_counts(drops, &[], alloc)?,
            seen: logs.then_some(Seen::nothing(alloc)),
            known: lists.then_some(KnownLsas::none(alloc)),
            teller: Teller::none(alloc),
        })
    }

    /// Whether the capture, if there is one, is complete so far.
    pub fn is_written(&self) -> bool {
        self.shared.lock(&self.rt).capture.is_written()
    }

    /// Whether the journal, if there is one, is complete so far.
    pub fn is_logged(&self) -> bool {
        match &self.shared.lock(&self.rt).journal {
            Some(journal) => journal.is_written(),
            None => true,
        }
    }

    /// Whether the journal of LSAs, if there is one, is complete so far.
    pub fn are_lsas_logged(&self) -> bool {
        match &self.shared.lock(&self.rt).lsas {
            Some(lsas) => lsas.is_written(),
            None => true,
        }
    }

    /// Why tables are no longer printed, if they are not.
    pub fn failure(&self) -> Option<Failure> {
        self.shared.lock(&self.rt).failure
    }

    // Notes a step of the router.
    fn follow(&mut self, router: &Router, step: &Step) {
        let other = self.teller.other_due(router);
        self.tell_refused(other);
        let faulty = self.teller.faulty.due(router);
        self.tell_refused(faulty);
        let dropped = dropped_in(step, self.heard.take());
        self.tell_misfit(router, dropped);
        if let (Some(counts), Some(at)) = (&mut self.counts, dropped) {
            count_dropped(counts, Some(at.link), Some(at.cause));
        }
        self.log(router, step, dropped);
        self.log_lsas(router, step);
        if self.has_ticked {
            self.has_ticked = false;
            self.print_table(router);
            self.show(router);
        }
    }

    // Writes what the step dropped and issued, and what changed of the router, into the journal, if
    // there is one.
    fn log(&mut self, router: &Router, step: &Step, dropped: Option<DroppedAt>) {
        let Some(seen) = &mut self.seen else {
            return;
        };
        let changes = match Reported::of(dropped, &step.out.issued, self.alloc) {
            Ok(reported) => seen.follow(router, reported, self.alloc),
            Err(error) => Err(error),
        };
        if let Ok(changes) = &changes {
            if changes.is_empty() {
                return;
            }
        }
        let mut all = self.shared.lock(&self.rt);
        all.log(self.alloc, self.ticks, self.teller.router, changes);
    }

    // Writes what became of the LSAs that the router lists into the journal of LSAs, if one is
    // written.
    fn log_lsas(&mut self, router: &Router, step: &Step) {
        let Some(known) = &mut self.known else {
            return;
        };
        let changes = changed_lsas(known, self.teller.router, router, &step.out, self.alloc);
        if let Ok(changes) = &changes {
            if changes.is_empty() {
                return;
            }
        }
        let mut all = self.shared.lock(&self.rt);
        all.log_lsas(self.alloc, self.ticks, self.teller.router, changes);
    }

    // Reports a neighbour that has an LSA which the router refuses, if there is one to report.
    fn tell_refused(&mut self, due: Option<RefusedLsa>) {
        let Some(refused) = due else {
            return;
        };
        let file = &self.teller.file;
        let mut all = self.shared.lock(&self.rt);
        all.tell(RefusedShown { file, refused });
    }

    // Reports a packet that the router dropped because of how it or its sender is configured.
    fn tell_misfit(&mut self, router: &Router, dropped: Option<DroppedAt>) {
        let Some(misfit) = self.teller.misfits.due(router, self.ticks, dropped) else {
            return;
        };
        let file = &self.teller.file;
        let mut all = self.shared.lock(&self.rt);
        all.tell(MisfitShown { file, misfit });
    }

    // Prints the router's table, if one is due after this tick.
    fn print_table(&mut self, router: &Router) {
        let Some(every) = self.every else {
            return;
        };
        if self.ticks.checked_rem(every) == Some(0) {
            let mut all = self.shared.lock(&self.rt);
            all.print_table(self.alloc, self.teller.router, self.ticks, router);
        }
    }

    // Shows the progress of the run.
    fn show(&mut self, router: &Router) {
        if !self.shows {
            return;
        }
        let before = self.full;
        self.full = full_neighbours(router);
        let mut all = self.shared.lock(&self.rt);
        all.note(&self.rt, self.ticks, self.of, self.full, before);
    }
}

impl<R: Wait + Clock + Copy + Drop, F: Write + Drop, T: Write + Drop, O: Write + Drop> Tap
    for Notes<R, F, T, O> {
    fn another(&self, file: &NamedFile, config: &Config) -> Result<Notes<R, F, T, O>, AllocError> {
        let teller = Teller::new(self.alloc, file, config)?;
        let counts = first_counts(self.counts.is_some(), &config.interfaces, self.alloc)?;
        let shared = Arc::try_clone(&self.shared)?;
        {
            let mut all = shared.lock(&self.rt);
            all.running = all.running.saturating_add(1);
        }
        Ok(Notes {
            rt: self.rt,
            alloc: self.alloc,
            shared,
            captures: self.captures,
            shows: self.shows,
            every: self.every,
            of: self.of,
            ticks: 0,
            has_ticked: false,
            full: 0,
            heard: None,
            counts,
            seen: self.seen.is_some().then_some(Seen::nothing(self.alloc)),
            known: self.known.is_some().then_some(KnownLsas::none(self.alloc)),
            teller,
        })
    }

    fn ticks(&mut self) {
        self.ticks = self.ticks.saturating_add(1);
        self.has_ticked = true;
    }

    fn hears(&mut self, link: usize, source: Addr, packet: &[u8]) {
        if let Some(others) = &mut self.teller.others {
            others.hears(link, packet);
        }
        self.teller.faulty.hears(link, packet);
        self.teller.misfits.hears(packet);
        self.heard = Some(Heard { link, source });
    }

    fn sees(&mut self, router: &Router, step: &Step) {
        self.follow(router, step);
    }

    fn sends(&mut self, sent: &Sent) {
        if !self.captures {
            return;
        }
        let mut all = self.shared.lock(&self.rt);
        let record = record_of(&self.rt, sent, self.alloc);
        all.capture(record);
    }

    fn ends(&mut self) {
        let mut all = self.shared.lock(&self.rt);
        if let Some(links) = self.counts.take() {
            all.keep(self.teller.router, links);
        }
        all.end();
    }

    fn drops(&self, alloc: Global) -> Result<Vec<Drops>, AllocError> {
        self.shared.lock(&self.rt).take_drops(alloc)
    }
}

// What the notes of all routers share.
#[derive(Drop)]
struct Shared<F: Write + Drop, T: Write + Drop, O: Write + Drop> {
    capture: Capture<F>,
    // The name of its file.
    pcap: Option<String>,
    // `None` if no tables are printed, or no longer.
    tables: Option<Tables<O>>,
    // What ends the run in that case.
    ending: Option<Ending>,
    // `None` if no journal is written.
    journal: Option<Journal<F>>,
    // The name of its file.
    log: Option<String>,
    // `None` if no journal of LSAs is written.
    lsas: Option<LsaLog<F>>,
    // The name of its file.
    lsas_name: Option<String>,
    // Why tables are no longer printed.
    failure: Option<Failure>,
    line: StatusLine<T>,
    // What routers that have ended dropped; `None` if some of it could not be stored.
    drops: Option<Vec<Drops>>,
    // The most ticks that a router has taken.
    ticks: u64,
    full: usize,
    running: usize,
}

impl<F: Write + Drop, T: Write + Drop, O: Write + Drop> Shared<F, T, O> {
    // Makes the shared part, before anything is noted.
    fn new(alloc: Global, noted: Noted<F, T, O>) -> Shared<F, T, O> {
        Shared {
            capture: Capture::new(noted.capture),
            pcap: noted.pcap,
            tables: noted.tables,
            ending: noted.ending,
            journal: noted.journal,
            log: noted.log,
            lsas: noted.lsas,
            lsas_name: noted.lsas_name,
            failure: None,
            line: noted.line,
            drops: Some(Vec::new(alloc)),
            ticks: 0,
            full: 0,
            running: 0,
        }
    }

    // A router took its tick of this number, and its number of Full neighbours changed from
    // `before` to `full`.
    fn note<C: Clock>(
        &mut self,
        clock: &C,
        ticks: u64,
        of: Option<u64>,
        full: usize,
        before: usize,
    ) {
        self.full = self.full.saturating_add(full).saturating_sub(before);
        self.ticks = self.ticks.max(ticks);
        let (ticks, full) = (self.ticks, self.full);
        if let Some(terminal) = self.line.begin(clock) {
            let _ = match of {
                Some(of) => write!(
                    terminal,
                    "\r\x1b[Ktick {ticks} of {of}, {full} neighbours Full"
                ),
                None => write!(terminal, "\r\x1b[Ktick {ticks}, {full} neighbours Full"),
            };
        }
    }

    // Writes a record into the capture. When the capture fails, this is reported once.
    fn capture(&mut self, record: Result<Vec<u8>, io::Error>) {
        let was_written = self.capture.is_written();
        self.capture.write(record);
        if was_written && !self.capture.is_written() {
            tell_lost(&self.pcap, &mut self.line);
        }
    }

    // Writes what changed of a router into the journal. When the journal fails, this is reported
    // once.
    fn log(
        &mut self,
        alloc: Global,
        ticks: u64,
        router: RouterId,
        changes: Result<Vec<RouterChange>, AllocError>,
    ) {
        let Some(journal) = &mut self.journal else {
            return;
        };
        let was_written = journal.is_written();
        journal.write(alloc, ticks, router, changes);
        if was_written && !journal.is_written() {
            tell_lost(&self.log, &mut self.line);
        }
    }

    // Writes what became of LSAs of a router into the journal of LSAs. When that fails, this is
    // reported once.
    fn log_lsas(
        &mut self,
        alloc: Global,
        ticks: u64,
        router: RouterId,
        changes: Result<Vec<LsaChange>, AllocError>,
    ) {
        let Some(lsas) = &mut self.lsas else {
            return;
        };
        let was_written = lsas.is_written();
        lsas.write(alloc, ticks, router, changes);
        if was_written && !lsas.is_written() {
            tell_lost(&self.lsas_name, &mut self.line);
        }
    }

    // Prints the table of a router that has taken this many ticks. The first print that fails is
    // the last, and the run ends with it.
    fn print_table(&mut self, alloc: Global, id: RouterId, ticks: u64, router: &Router) {
        let Some(tables) = &mut self.tables else {
            return;
        };
        self.line.erase();
        if let Err(failure) = tables.print(alloc, id, ticks, router) {
            self.tables = None;
            self.failure = Some(failure);
            if let Some(ending) = &self.ending {
                ending.tell();
            }
        }
    }

    // Stores what a router dropped that ends.
    fn keep(&mut self, router: RouterId, links: Vec<DropCounts>) {
        let Some(drops) = &mut self.drops else {
            return;
        };
        if drops.push(Drops { router, links }).is_err() {
            self.drops = None;
        }
    }

    // Returns what is stored of that, once.
    fn take_drops(&mut self, alloc: Global) -> Result<Vec<Drops>, AllocError> {
        mem::replace(&mut self.drops, Some(Vec::new(alloc))).ok_or(AllocError)
    }

    // Writes a message.
    fn tell<D: Display + Drop>(&mut self, line: D) {
        let messages = self.line.messages();
        let _ = writeln!(messages, "{line}");
        let _ = messages.flush();
    }

    // A router ends. The line is erased with the last one.
    fn end(&mut self) {
        self.running = self.running.saturating_sub(1);
        if self.running == 0 {
            self.line.erase();
        }
    }
}

// Reports that a file of this name is no longer written.
fn tell_lost<T: Write + Drop>(name: &Option<String>, line: &mut StatusLine<T>) {
    let Some(name) = name else {
        return;
    };
    let messages = line.messages();
    let _ = tell_unwritten(name, messages);
    let _ = messages.flush();
}

// The messages about one router: its Router ID, the name of its file, and what is known of LSAs
// that it refuses and packets that do not fit it.
#[derive(Drop)]
struct Teller {
    router: RouterId,
    file: String,
    others: Option<Others>,
    faulty: Faulty,
    misfits: Misfits,
}

impl Teller {
    // For the router of no file, about which nothing is reported.
    fn none(alloc: Global) -> Teller {
        Teller {
            router: RouterId(0),
            file: String::new(alloc),
            others: None,
            faulty: Faulty::new(alloc),
            misfits: Misfits::new(alloc),
        }
    }

    fn new(alloc: Global, file: &NamedFile, config: &Config) -> Result<Teller, AllocError> {
        let others = Some(Others::new(alloc, config.passes_over));
        let file = String::from_str(alloc, &file.name)?;
        Ok(Teller {
            router: config.router_id,
            file,
            others,
            faulty: Faulty::new(alloc),
            misfits: Misfits::new(alloc),
        })
    }

    // The LSA of a refused LS type that must be reported now, if there is one.
    fn other_due(&mut self, router: &Router) -> Option<RefusedLsa> {
        match &mut self.others {
            Some(others) => others.due(router),
            None => None,
        }
    }
}

// The file header of a capture.
fn capture_head(alloc: Global) -> Result<Vec<u8>, AllocError>
    ensures { IfOk result (λ head. head.items ≡ file_header) }
{
    let mut head = Vec::new(alloc);
    write_header(&mut head)?;
    Ok(head)
}

// The drop counts of a router with these interfaces at the start, if they are counted.
fn first_counts(
    is_counted: bool,
    interfaces: &[Interface],
    alloc: Global,
) -> Result<Option<Vec<DropCounts>>, AllocError> {
    if !is_counted {
        return Ok(None);
    }
    Ok(Some(none_dropped_on(interfaces, alloc)?))
}

// What became of the LSAs that a router lists, by a step with these outputs.
fn changed_lsas(
    known: &mut KnownLsas,
    own: RouterId,
    router: &Router,
    out: &Outputs,
    alloc: Global,
) -> Result<Vec<LsaChange>, AllocError> {
    if let Some(area) = router.area() {
        if known.is_still(out, &area.database) {
            return Ok(Vec::new(alloc));
        }
    }
    known.follow(own, &out.taken, router.listing(alloc)?, alloc)
}

// Puts it in memory that can be shared.
fn share<S: Drop>(shared: S, alloc: Global) -> Result<Arc<Mutex<S>, Global>, AllocError> {
    Arc::new(alloc, Mutex::new(shared)).map_err(AllocError::from)
}

// How many neighbours of a router are Full.
fn full_neighbours(router: &Router) -> usize {
    let mut full: usize = 0;
    for link in 0..MOST_INTERFACES {
        if !router.has_link(link) {
            break;
        }
        let neighbours = router.neighbours(link);
        let more = neighbours
            .iter()
            .filter(|it| it.state() == NeighbourState::Full)
            .count();
        full = full.saturating_add(more);
    }
    full
}
