//! Routing tables of the LSAs of a text.

ghost use Rattle.std.specs.Prelude.{◌≡◌, ◌≢◌, ◌⊎◌, ◌↔◌, ◌++◌, ◌∷◌, ℕ, List, [], Err, Ok, IfOk, IfErr, IfSome, IsTrue, OnOk, OnErr, string_bytes};
ghost use Rattle.std.specs.Io.KnownBytes.{Appends};
ghost use Rattle.ospf_files.specs.Streams.{IsBegun, IsErrorCut, IsOfInput, written_on};
ghost use Rattle.ospf_files.specs.declared.status.Failure.{Failure};
ghost use Rattle.ospf_files.specs.declared.streams.FailedStreams.{FailedStreams};
ghost use Rattle.ospf_fib.specs.PrefixIndex.Known.{opening};
ghost use Rattle.ospf_table.specs.Cut.{IsTableAnswerCut, IsTableCutShort, IsLookupCut, IsOutputBefore, IsOutputBegun, IsTableCut};
ghost use Rattle.ospf_table.specs.Fault.{IsMemoryFault, IsLineRefusal};
ghost use Rattle.ospf_table.specs.declared.table.EntryFault.{EntryFault};
ghost use Rattle.ospf_table.specs.Output.{IsTableAnswered, IsOutput, IsTableWarning, IsUnlisted, IsWarning};
ghost use Rattle.ospf_table.specs.Line.{IsTaken, HasLineFault, IsLeftOut, LeavesOut, Reads, Refuses, left_out_text};
ghost use Rattle.ospf_table.specs.Refusal.{IsLineRefusalTold, refusal_line};

use crate::entries::LineEntries;
use crate::line::{LineFault, is_blank, lsa_of_line, with_plain_age, without_end};
use crate::lookup::{print_lookups, publish_once};
use crate::outside::missing_text;
use ospf_base::{Addr, MAX_AGE, RouterId};
use ospf_fib::{Seat, Writer};
use ospf_files::{FailedStreams, Failure, Status, print_routes};
use ospf_lsa::{Listing, ListingFault, LsaFault};
use ospf_spf::RouteTable;
use std::alloc::{AllocError, Global};
use std::io::{self, BufRead, Write};
use std::sync::Wait;

/// A routing table that is asked for.
#[derive(Debug, Drop)]
pub struct TableJob {
    /// The router whose table it is.
    pub root: RouterId,
    /// The addresses to look up in the table.
    pub addresses: Vec<Addr>,
}

/// Why the LSA of a line was not listed.
#[derive(Clone, Copy, Debug, PartialEq, Eq)]
pub enum EntryFault {
    /// The line spells no LSA.
    Line(LineFault),
    /// The LSA has no place among those before it.
    Listing(ListingFault),
}

impl EntryFault {
    ghost use Rattle.std.specs.Prelude.{◌≡◌};
    ghost use Rattle.ospf_table.specs.Refusal.{entry_fault_text};

    /// The fault as it is printed.
    pub fn text(self) -> &'static str
        ensures { result.now ≡ entry_fault_text self }
    {
        match self {
            EntryFault::Line(fault) => fault.text(),
            EntryFault::Listing(fault) => fault.text(),
        }
    }
}

/// Why there is no listing of the lines, or no table of it.
#[derive(Drop)]
pub enum TableFault {
    /// The line of this number, from 1, was refused.
    Entry { number: u64, fault: EntryFault },
    /// What it cannot go on without.
    Failure(Failure),
}

impl TableFault {
    ghost use Rattle.std.specs.Prelude.{◌≡◌};
    ghost use Rattle.ospf_files.specs.Streams.{IsOfInput};
    ghost use Rattle.ospf_files.specs.declared.status.Failure.{Failure};
    ghost use Rattle.ospf_table.specs.Fault.{IsMemoryFault, IsLineRefusal};

    // The fault of a line, which is no fault of the line where memory ran out.
    fn of_entry(number: u64, fault: EntryFault) -> TableFault
        ensures memory { IsMemoryFault fault → result ≡ TableFault.Failure Failure.Memory }
        ensures entry { (IsMemoryFault fault → ⊥) → result ≡ TableFault.Entry number fault }
        ensures failure { (f : Failure) → result ≡ TableFault.Failure f → f ≡ Failure.Memory }
    {
        match fault {
            EntryFault::Line(LineFault::Lsa(LsaFault::Memory))
            | EntryFault::Listing(ListingFault::Memory) => TableFault::Failure(Failure::Memory),
            _ => TableFault::Entry { number, fault },
        }
    }

    // Why there is no table where reading the input failed.
    fn of_reading(error: io::Error) -> TableFault
        ensures refusal { IsLineRefusal result → ⊥ }
        ensures failure { (f : Failure) → result ≡ TableFault.Failure f → IsOfInput f }
    {
        TableFault::Failure(Failure::of(&error, Failure::Input))
    }
}

impl From<AllocError> for TableFault {
    ghost use Rattle.std.specs.Prelude.{◌≡◌};
    ghost use Rattle.ospf_files.specs.declared.status.Failure.TheVariants as failure;
    ghost use Rattle.ospf_table.specs.declared.table.TableFault.TheVariants as fault;

    ghost from_gives = { λ _ f. f ≡ fault.Failure failure.Memory };

    fn from(_error: AllocError) -> TableFault {
        TableFault::Failure(Failure::Memory)
    }
}

impl From<Failure> for TableFault {
    ghost use Rattle.std.specs.Prelude.{◌≡◌};
    ghost use Rattle.ospf_table.specs.declared.table.TableFault.TheVariants as fault;

    ghost from_gives = { λ failure f. f ≡ fault.Failure failure };

    fn from(failure: Failure) -> TableFault {
        TableFault::Failure(failure)
    }
}

/// The listing of the LSAs of the lines of an input, which are read as by `table_text`.
///
/// The error is the first line that is refused, or what was not read or had no room.
pub fn read_listing<R: BufRead + Drop>(alloc: Global, input: R) -> Result<Listing, TableFault>
    ensures whole { IfOk result (λ listing. IfSome (R.remaining input)
        (λ bytes. Reads bytes [] listing)) }
    ensures refused { (n : ℕ) (f : EntryFault) → result ≡ Err (TableFault.Entry n f) →
        IfSome (R.remaining input) (λ bytes. Refuses bytes [] n f) }
    ensures unread { (f : Failure) → result ≡ Err (TableFault.Failure f) → IsOfInput f }
{
    match read_counted(alloc, input) {
        Ok(read) => Ok(read.listing),
        Err(fault) => Err(fault),
    }
}

/// The listing of the lines of an input, and how many LSAs were left out of it.
#[derive(Drop)]
pub struct CountedListing {
    pub listing: Listing,
    /// The LSAs at `MAX_AGE`.
    pub left_out: u64,
}

/// The same listing, with the number of LSAs that were left out at `MAX_AGE`.
///
/// The error is that of `read_listing`.
pub fn read_counted<R: BufRead + Drop>(
    alloc: Global,
    input: R,
) -> Result<CountedListing, TableFault>
    ensures whole { IfOk result (λ read. IfSome (R.remaining input)
        (λ bytes. Reads bytes [] read.listing)) }
    ensures counted { IfOk result (λ read. IfSome (R.remaining input)
        (λ bytes. LeavesOut bytes read.left_out)) }
    ensures refused { (n : ℕ) (f : EntryFault) → result ≡ Err (TableFault.Entry n f) →
        IfSome (R.remaining input) (λ bytes. Refuses bytes [] n f) }
    ensures unread { (f : Failure) → result ≡ Err (TableFault.Failure f) → IsOfInput f }
{
    let (entries, left_out) = read_entries(alloc, input)?;
    let listing = entries.listing(alloc)?;
    Ok(CountedListing { listing, left_out })
}

/// How many LSAs were left out at `MAX_AGE`, as it is said; nothing where none was.
///
/// `AllocError` where memory runs out.
pub fn left_out_text(alloc: Global, left_out: u64) -> Result<String, AllocError>
    ensures { IfOk result (λ text. string_bytes text ≡ left_out_text left_out) }
{
    if left_out == 0 {
        Ok(String::new(alloc))
    } else {
        Ok(format!(in alloc; "LSAs left out at MaxAge: {left_out}\n")?)
    }
}

/// Reads LSAs, each a line of hexadecimal, and writes a router's table and the lookups in it.
///
/// A line ends in a line feed, which a carriage return may precede, or at the end of the input. A
/// line of only spaces is skipped. An LSA at `MAX_AGE` is checked, and left out of the table; the
/// bit DoNotAge of an age (RFC 1793) does not count. Once all is read the table is published, by
/// `rt`, and written, and the addresses are looked up from a seat that learned it. `err` says if
/// LSAs are listed but not the root's router-LSA, and if the table has no route for an address and
/// the LSAs show why (`warning_text`). The first refused line is reported on `err`,
/// with status `Refused`. Status `Memory` means that memory ran out, or that there was no place for
/// the seat, and `Stream` that a read or a write failed, or that the published table was closed;
/// the cause is reported on `err`, as far as that can be written. Then at most a beginning of the
/// table and the lookups is written, and nothing if the input was not read.
pub fn table_text<W: Wait + Drop, R: BufRead + Drop, O: Write, E: Write>(
    alloc: Global,
    rt: W,
    job: &TableJob,
    input: R,
    out: &mut O,
    err: &mut E,
) -> Status
    // All is printed; or the refused line is reported, and nothing is printed.
    ensures done { let old = written_on (O.contents out.old) (E.contents err.old) in
        let new = written_on (O.contents out.new) (E.contents err.new) in
        result ≡ Status.Done → IfSome (R.remaining input)
        (λ bytes. IsTableAnswered bytes job.now.root job.now.addresses.items old new) }
    ensures refused { result ≡ Status.Refused →
        IfSome (R.remaining input)
        (λ bytes. IsLineRefusalTold bytes (E.contents err.old) (E.contents err.new)) }
    ensures unwritten { result ≡ Status.Refused → O.contents out.new ≡ O.contents out.old }
    // Or a failure cuts it short, and is reported last, as far as possible; there is no other end.
    ensures cut { let old = written_on (O.contents out.old) (E.contents err.old) in
        let new = written_on (O.contents out.new) (E.contents err.new) in
        (result ≡ Status.Memory) ⊎ (result ≡ Status.Stream) →
        (failed : FailedStreams) × IsTableCutShort (R.remaining input) job.now.root
        job.now.addresses.items failed old new result }
    ensures not_words { result ≢ Status.Words }
{
    table_noted(alloc, rt, job, input, out, err, &mut FailedStreams::none())
}

// The LSAs of the lines up to the end of the input, and how many were left out.
fn read_entries<R: BufRead + Drop>(
    alloc: Global,
    mut input: R,
) -> Result<(LineEntries, u64), TableFault>
    ensures whole { IfOk result (λ read. IfSome (R.remaining input)
        (λ bytes. Reads bytes [] read.0)) }
    ensures counted { IfOk result (λ read. IfSome (R.remaining input)
        (λ bytes. LeavesOut bytes read.1)) }
    ensures refused { (n : ℕ) (f : EntryFault) → result ≡ Err (TableFault.Entry n f) →
        IfSome (R.remaining input) (λ bytes. Refuses bytes [] n f) }
    ensures unread { (f : Failure) → result ≡ Err (TableFault.Failure f) → IsOfInput f }
{
    let mut entries = LineEntries::new(alloc);
    let mut line = Vec::new(alloc);
    let mut left_out = 0;
    for number in 1..u64::MAX {
        line.clear();
        match input.read_until(b'\n', &mut line) {
            Ok(0) => return Ok((entries, left_out)),
            Ok(_) => {}
            Err(error) => return Err(TableFault::of_reading(error)),
        }
        match take_entry(alloc, &mut entries, without_end(&line)) {
            Ok(is_left_out) => left_out += u64::from(is_left_out),
            Err(fault) => return Err(TableFault::of_entry(number, fault)),
        }
    }
    Err(TableFault::Failure(Failure::Input))
}

// Takes the LSA of a text, unless the text is blank or the LSA is at `MAX_AGE`. Whether the LSA is
// left out.
fn take_entry(alloc: Global, entries: &mut LineEntries, text: &[u8]) -> Result<bool, EntryFault>
    ensures ok { OnOk result (IsTaken text.now entries.old entries.new) }
    ensures left_out { IfOk result (λ is. IsTrue is ↔ IsLeftOut text.now) }
    ensures err { OnErr result (entries.new ≡ entries.old) }
    ensures fault { IfErr result (λ e. IsMemoryFault e ⊎ HasLineFault text.now entries.old e) }
{
    if is_blank(text) {
        return Ok(false);
    }
    let lsa = match lsa_of_line(alloc, text) {
        Ok(lsa) => with_plain_age(lsa),
        Err(fault) => return Err(EntryFault::Line(fault)),
    };
    if lsa.view().header().age.ticks() == MAX_AGE {
        return Ok(true);
    }
    match entries.add(lsa) {
        Ok(()) => Ok(false),
        Err(fault) => Err(EntryFault::Listing(fault)),
    }
}

// Reads LSAs and prints a routing table, as `table_text`, and notes which streams fail.
fn table_noted<W: Wait + Drop, R: BufRead + Drop, O: Write, E: Write>(
    alloc: Global,
    rt: W,
    job: &TableJob,
    input: R,
    out: &mut O,
    err: &mut E,
    streams: &mut FailedStreams,
) -> Status
    // All is printed; or the refused line is reported, and nothing is printed.
    ensures done { let old = written_on (O.contents out.old) (E.contents err.old) in
        let new = written_on (O.contents out.new) (E.contents err.new) in
        result ≡ Status.Done → IfSome (R.remaining input)
        (λ bytes. IsTableAnswered bytes job.now.root job.now.addresses.items old new) }
    ensures refused { result ≡ Status.Refused →
        IfSome (R.remaining input)
        (λ bytes. IsLineRefusalTold bytes (E.contents err.old) (E.contents err.new)) }
    ensures unwritten { result ≡ Status.Refused → O.contents out.new ≡ O.contents out.old }
    // Or a failure cuts it short, and is reported last, as far as possible; there is no other end.
    ensures cut { let old = written_on (O.contents out.old) (E.contents err.old) in
        let new = written_on (O.contents out.new) (E.contents err.new) in
        (result ≡ Status.Memory) ⊎ (result ≡ Status.Stream) → IsTableCutShort
        (R.remaining input) job.now.root job.now.addresses.items streams.new old new result }
    ensures not_words { result ≢ Status.Words }
{
    match answer_or_refuse(alloc, rt, job, input, out, err, streams) {
        Ok(status) => status,
        Err(failure) => failure.tell(err, streams),
    }
}

// Prints the answer, or reports which line is refused. Returns the status to end with.
fn answer_or_refuse<W: Wait + Drop, R: BufRead + Drop, O: Write, E: Write>(
    alloc: Global,
    rt: W,
    job: &TableJob,
    input: R,
    out: &mut O,
    err: &mut E,
    streams: &mut FailedStreams,
) -> Result<Status, Failure>
    // All is printed; or the refused line is reported, and nothing is printed.
    ensures done { let old = written_on (O.contents out.old) (E.contents err.old) in
        let new = written_on (O.contents out.new) (E.contents err.new) in
        result ≡ Ok Status.Done → IfSome (R.remaining input)
        (λ bytes. IsTableAnswered bytes job.now.root job.now.addresses.items old new) }
    ensures refused { result ≡ Ok Status.Refused →
        IfSome (R.remaining input)
        (λ bytes. IsLineRefusalTold bytes (E.contents err.old) (E.contents err.new)) }
    ensures unwritten { result ≡ Ok Status.Refused → O.contents out.new ≡ O.contents out.old }
    // There is no other status, and a failure cuts short what is printed or reported.
    ensures ended { IfOk result (λ status. (status ≡ Status.Done) ⊎ (status ≡ Status.Refused)) }
    ensures cut { IfErr result (IsTableAnswerCut (R.remaining input) job.now.root
        job.now.addresses.items streams.new (written_on (O.contents out.old) (E.contents err.old))
        (written_on (O.contents out.new) (E.contents err.new))) }
{
    match answer(alloc, rt, job, input, out, err, streams) {
        Ok(()) => Ok(Status::Done),
        Err(TableFault::Entry { number, fault }) => {
            tell_refusal(alloc, number, fault, err, streams)?;
            Ok(Status::Refused)
        }
        Err(TableFault::Failure(failure)) => Err(failure),
    }
}

// Prints the table of the LSAs that are read, and what it says of the addresses.
fn answer<W: Wait + Drop, R: BufRead + Drop, O: Write, E: Write>(
    alloc: Global,
    rt: W,
    job: &TableJob,
    input: R,
    out: &mut O,
    err: &mut E,
    streams: &mut FailedStreams,
) -> Result<(), TableFault>
    // All is printed; or it is known which line is refused, and nothing is printed or reported.
    ensures answer { let old = written_on (O.contents out.old) (E.contents err.old) in
        let new = written_on (O.contents out.new) (E.contents err.new) in
        OnOk result (IfSome (R.remaining input)
        (λ bytes. IsTableAnswered bytes job.now.root job.now.addresses.items old new)) }
    ensures refused { (n : ℕ) (f : EntryFault) → result ≡ Err (TableFault.Entry n f) →
        IfSome (R.remaining input) (λ bytes. Refuses bytes [] n f) }
    ensures unwritten { (n : ℕ) (f : EntryFault) → result ≡ Err (TableFault.Entry n f) →
        O.contents out.new ≡ O.contents out.old }
    ensures untold { (n : ℕ) (f : EntryFault) → result ≡ Err (TableFault.Entry n f) →
        E.contents err.new ≡ E.contents err.old }
    // Or a failure cuts short what is printed or reported.
    ensures cut { (f : Failure) → result ≡ Err (TableFault.Failure f) →
        IsTableAnswerCut (R.remaining input) job.now.root job.now.addresses.items streams.new
        (written_on (O.contents out.old) (E.contents err.old))
        (written_on (O.contents out.new) (E.contents err.new)) f }
{
    let listing = read_listing(alloc, input)?;
    answer_of(alloc, rt, job, &listing, out, err, streams)?;
    Ok(())
}

// Prints the table of a listing and the lookups of the addresses, after the warning.
fn answer_of<W: Wait + Drop, O: Write, E: Write>(
    alloc: Global,
    rt: W,
    job: &TableJob,
    listing: &Listing,
    out: &mut O,
    err: &mut E,
    streams: &mut FailedStreams,
) -> Result<(), Failure>
    ensures answer { let old = written_on (O.contents out.old) (E.contents err.old) in
        let new = written_on (O.contents out.new) (E.contents err.new) in
        (bytes : List ℕ) → Reads bytes [] listing.now →
        OnOk result (IsTableAnswered bytes job.now.root job.now.addresses.items old new) }
    ensures cut { IfErr result (IsTableCut listing.now job.now.root job.now.addresses.items
        streams.new (written_on (O.contents out.old) (E.contents err.old))
        (written_on (O.contents out.new) (E.contents err.new))) }
{
    let table = RouteTable::of(alloc, listing, job.root)?;
    let addresses = job.addresses.as_slice();
    let warning = warning_text(alloc, listing, job.root, &table, addresses)?;
    streams.tell(err, warning.as_str())?;
    print_answer(alloc, rt, &table, addresses, out, streams)
}

/// The warning about a router's table on standard error: that the router-LSA of the router is not
/// listed, though others are; and if the table has no route for one of these addresses, why it
/// may have none (`reasons_text`).
///
/// `AllocError` if memory runs out.
pub fn warning_text(
    alloc: Global,
    listing: &Listing,
    root: RouterId,
    table: &RouteTable,
    addresses: &[Addr],
) -> Result<String, AllocError>
    ensures { IfOk result (λ text. IsTableWarning listing.now root table.now addresses.now
        (string_bytes text)) }
{
    let mut text = unlisted_text(alloc, listing, root)?;
    let more = missing_text(alloc, listing, table, addresses)?;
    text.push_str(more.as_str())?;
    Ok(text)
}

/// The warning about a router: that its router-LSA is not listed, though others are.
///
/// `AllocError` if memory runs out.
pub fn unlisted_text(alloc: Global, listing: &Listing, root: RouterId) -> Result<String, AllocError>
    ensures { IfOk result (λ text. IsWarning listing.now root (string_bytes text)) }
{
    if is_unlisted(listing, root) {
        let text = format!(in alloc; "{root}: no router-LSA of this router\n")?;
        Ok(text)
    } else {
        Ok(String::new(alloc))
    }
}

// Whether LSAs are listed, and the router-LSA of the root is none of them.
fn is_unlisted(listing: &Listing, root: RouterId) -> bool
    ensures { IsTrue result ↔ IsUnlisted listing.now root }
{
    !listing.lsas().is_empty() && listing.router(root).is_none()
}

// Publishes a table, and prints it, and what it says of the addresses.
fn print_answer<W: Wait + Drop, O: Write>(
    alloc: Global,
    rt: W,
    table: &RouteTable,
    addresses: &[Addr],
    out: &mut O,
    streams: &mut FailedStreams,
) -> Result<(), Failure>
    ensures output { OnOk result ((text : List ℕ) × IsOutput table.now addresses.now text
        × Appends (O.contents out.old) (O.contents out.new) text) }
    ensures begun { OnErr result (IsOutputBegun table.now addresses.now (O.contents out.old)
        (O.contents out.new)) }
    ensures cut { IfErr result (IsLookupCut streams.new
        (IsOutputBefore table.now addresses.now (O.contents out.old) (O.contents out.new))) }
{
    let Ok((mut writer, mut seat)) = publish_once(alloc, rt, table) else {
        return Err(Failure::Memory);
    };
    print_table(
        alloc,
        &mut writer,
        &mut seat,
        table,
        addresses,
        out,
        streams,
    )
}

// Prints the routes of a table, and where one that was published sends what goes to the addresses.
fn print_table<W: Wait + Drop, O: Write>(
    alloc: Global,
    writer: &mut Writer<W>,
    seat: &mut Seat,
    table: &RouteTable,
    addresses: &[Addr],
    out: &mut O,
    streams: &mut FailedStreams,
) -> Result<(), Failure>
    // The table is published after the opening one, and the seat has learned it.
    requires seat { seat.old ≡ writer.old }
    requires published { writer.old.tables ≡ opening ++ table.now ∷ [] }
    // All is printed; or a beginning of it, and it is known why no more is.
    ensures output { OnOk result ((text : List ℕ) × IsOutput table.now addresses.now text
        × Appends (O.contents out.old) (O.contents out.new) text) }
    ensures begun { OnErr result (IsOutputBegun table.now addresses.now (O.contents out.old)
        (O.contents out.new)) }
    ensures cut { IfErr result (IsLookupCut streams.new
        (IsOutputBefore table.now addresses.now (O.contents out.old) (O.contents out.new))) }
{
    print_routes(alloc, table.routes(), out, streams)?;
    print_lookups(alloc, writer, seat, addresses, out, streams)?;
    streams.flush(out)
}

// Reports the number of a refused line, and its fault.
fn tell_refusal<E: Write>(
    alloc: Global,
    number: u64,
    fault: EntryFault,
    err: &mut E,
    streams: &mut FailedStreams,
) -> Result<(), Failure>
    ensures told { OnOk result (Appends (E.contents err.old) (E.contents err.new)
        (refusal_line number fault)) }
    ensures begun { OnErr result (IsBegun (E.contents err.old) (E.contents err.new)
        (refusal_line number fault)) }
    ensures cut { IfErr result (IsErrorCut streams.new) }
{
    let line = format!(in alloc; "line {number}: {}\n", fault.text())?;
    streams.tell(err, &line)
}
