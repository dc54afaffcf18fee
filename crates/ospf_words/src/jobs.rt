//! What the program can be asked to do.

ghost use Rattle.std.specs.Prelude.{OnOk};
ghost use Rattle.std.specs.Io.KnownBytes.{Appends};
ghost use Rattle.ospf_words.specs.Job.{address_line};

use clap::error::ErrorKind;
use ospf_base::{Addr, RouterId};
use ospf_failures::FailuresJob;
use ospf_files::{FailedStreams, Failure, Status, Telling};
use ospf_inspect::InspectJob;
use ospf_table::TableJob;
use std::alloc::AllocError;
use std::io::{self, Write};
use thiserror::Error;

/// What to do.
#[derive(Debug, Drop)]
pub enum Job {
    /// Computes the routing table of a router over the LSAs on standard input.
    Table(TableJob),
    /// Prints what failures do to the area of the LSAs on standard input.
    Failures(FailuresJob),
    /// Prints what the LSAs on standard input say.
    Inspect(InspectJob),
    /// Prints the LSAs on standard input after changes.
    Edit(EditWords),
    /// Compares two files of LSAs.
    Diff(DiffWords),
    /// Checks configurations.
    Check(CheckJob),
    /// Runs a script in a world of routers.
    Sim(SimJob),
    /// Runs routers over UDP.
    Run(RunJob),
}

/// Changes of an area, by words; at least one.
#[derive(Debug, Drop)]
pub struct EditWords {
    /// The names of what goes down.
    pub down: Vec<String>,
    /// The new costs of interfaces, each as `ROUTER@ADDRESS=COST` or `ROUTER-ROUTER=COST`.
    pub costs: Vec<String>,
    /// The Router IDs of the routers that are drained.
    pub drains: Vec<String>,
}

/// Two files of LSAs to compare. The name `-` means standard input; at most one of them has it.
#[derive(Debug, Drop)]
pub struct DiffWords {
    /// The name of the file of the area as it was.
    pub before: String,
    /// The name of the file of the area as it became.
    pub after: String,
    /// The router whose tables are compared; `None` for all routers.
    pub root: Option<RouterId>,
}

/// Configurations to check.
#[derive(Debug, Drop)]
pub struct CheckJob {
    /// The names of their files.
    pub files: Vec<String>,
    /// How much is printed about each.
    pub how: Telling,
    /// Whether they are of one area, and are judged together.
    pub area: bool,
    /// Whether that is printed as JSON.
    pub json: bool,
    /// Whether all is printed as JSON of version 2.
    pub lines: bool,
}

/// A simulation that is asked for.
#[derive(Debug, Drop)]
pub struct SimJob {
    /// The name of the script's file.
    pub script: String,
    /// The names of the configurations' files.
    pub files: Vec<String>,
    /// The file into which the first running router's listing is drawn.
    pub dot: Option<String>,
    /// The file into which all datagrams are written.
    pub pcap: Option<String>,
    /// The file into which a journal is written.
    pub log: Option<String>,
    /// Whether the journal's lines are JSON.
    pub json: bool,
    /// Whether a line that is refused counts as an expectation that is not met.
    pub strict: bool,
}

/// Routers that are to run.
#[derive(Debug, Drop)]
pub struct RunJob {
    /// How many ticks there are; `None` where no tick is the last.
    pub ticks: Option<u64>,
    /// Whether the run ends where standard input ends.
    pub until_eof: bool,
    /// The milliseconds of a tick.
    pub milliseconds: u64,
    /// The address that is looked up in the table of each router.
    pub lookup: Option<Addr>,
    /// The text of the floor of the LS sequence numbers of each router's own LSAs.
    pub floor: Option<String>,
    /// Whether the neighbours of each router are printed at the end.
    pub neighbours: bool,
    /// Whether the LSAs that each router lists are printed at the end.
    pub listing: bool,
    /// Whether all LSAs of each router's database are printed at the end, in hexadecimal.
    pub lsdb: bool,
    /// Whether it is printed at the end how many packets each router dropped.
    pub drops: bool,
    /// After how many ticks the tables are printed, again and again.
    pub every: Option<u64>,
    /// The file into which all datagrams are written.
    pub pcap: Option<String>,
    /// The file into which a journal is written.
    pub log: Option<String>,
    /// The file into which a journal of LSAs is written.
    pub log_lsas: Option<String>,
    /// Whether the lines of both journals are JSON.
    pub json: bool,
    /// The names of the configurations' files.
    pub files: Vec<String>,
}

/// Why words ask for nothing that can be done.
#[derive(Debug, Drop, Error)]
pub enum JobFault {
    /// The words fit no command, or ask for help or for the version.
    #[error("{0}")]
    Words(clap::Error),
    /// A word that must be an address or a Router ID is not one.
    #[error("{0}: not an address")]
    Address(String),
    /// Memory ran out.
    #[error("J3 Memory")]
    Memory,
}

impl From<clap::Error> for JobFault {
    ghost use Rattle.ospf_words.specs.Job.{IsFaultOfWords};

    ghost from_gives = { IsFaultOfWords };

    fn from(error: clap::Error) -> JobFault {
        if error.kind() == ErrorKind::OutOfMemory {
            JobFault::Memory
        } else {
            JobFault::Words(error)
        }
    }
}

impl From<AllocError> for JobFault {
    ghost use Rattle.std.specs.Prelude.{◌≡◌};
    ghost use Rattle.ospf_words.specs.declared.jobs.JobFault.TheVariants.{Memory};

    ghost from_gives = { λ _ fault. fault ≡ Memory };

    fn from(_error: AllocError) -> JobFault {
        JobFault::Memory
    }
}

impl JobFault {
    ghost use Rattle.std.specs.Prelude.{◌≡◌, ◌⊎◌};
    ghost use Rattle.ospf_words.specs.Job.{HasStatus, IsHelp, IsToldOf};

    /// The status to end with: `Done` where the words ask for help or for the version.
    pub fn status(&self) -> Status
        ensures { HasStatus self.now result }
    {
        match self {
            JobFault::Words(error) if !error.use_stderr() => Status::Done,
            JobFault::Words(_) | JobFault::Address(_) => Status::Words,
            JobFault::Memory => Status::Memory,
        }
    }

    /// Writes help and the version to `out`, and all else to `err`. The answer is the status to end
    /// with; where a write failed it is that of the failure.
    pub fn tell<O: Write, E: Write>(&self, out: &mut O, err: &mut E) -> Status
        ensures status { HasStatus self.now result ⊎ (result ≡ Status.Memory)
            ⊎ (result ≡ Status.Stream) }
        ensures out { (result ≡ Status.Words) ⊎ (IsHelp self.now → ⊥) →
            O.contents out.new ≡ O.contents out.old }
        ensures err { result ≡ Status.Done → E.contents err.new ≡ E.contents err.old }
        ensures told { result ≡ Status.Words →
            IsToldOf self.now (E.contents err.old) (E.contents err.new) }
    {
        let mut streams = FailedStreams::none();
        match self {
            JobFault::Words(error) if error.use_stderr() => match write_text(err, error) {
                Ok(()) => Status::Words,
                Err(error) => Failure::of(&error, Failure::Error).status(),
            },
            JobFault::Words(error) => match write_text(out, error) {
                Ok(()) => Status::Done,
                Err(error) => Failure::of(&error, Failure::Output).tell(err, &mut streams),
            },
            JobFault::Address(word) => match write_no_address(err, word) {
                Ok(()) => Status::Words,
                Err(error) => Failure::of(&error, Failure::Error).status(),
            },
            JobFault::Memory => Failure::Memory.tell(err, &mut streams),
        }
    }
}

// Writes a text of `clap`, which ends its last line itself.
fn write_text<W: Write>(writer: &mut W, error: &clap::Error) -> io::Result<()> {
    write!(writer, "{error}")?;
    writer.flush()
}

// Writes that a word is no address.
fn write_no_address<W: Write>(writer: &mut W, word: &str) -> io::Result<()>
    ensures { OnOk result (Appends (W.contents writer.old) (W.contents writer.new)
        (address_line word.now)) }
{
    writeln!(writer, "{word}: not an address")?;
    writer.flush()?;
    Ok(())
}
