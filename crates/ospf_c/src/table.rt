//! Routing tables.

ghost use Rattle.std.specs.Prelude.{◌≡◌, ℕ, List, [], Result, IfOk, Some, map};
ghost use Rattle.ospf_files.specs.declared.report.Report.{Report};
ghost use Rattle.ospf_files.specs.declared.status.Failure.{Failure};
ghost use Rattle.ospf_table.specs.Line.{Reads};
ghost use Rattle.ospf_inspect.specs.Answer.{IsInspectPrinted};
ghost use Rattle.ospf_inspect.specs.declared.answer.InspectJob.TheVariants as job;
ghost use Rattle.ospf_c.specs.Answered.{IsAnswered, IsHandedOver, nothing, streams};
ghost use Rattle.ospf_c.specs.Tables.{IsTableReport, IsTableResult, address_of, form_of, router_of};

use crate::answer::{Answer, hand_over};
use crate::area::{form_of, inspect};
use ospf_base::{Addr, RouterId};
use ospf_files::{Failure, Report, Status};
use ospf_inspect::InspectJob;
use ospf_lsa::Listing;
use ospf_spf::RouteTable;
use ospf_table::{TableFault, line_refused, output_text, read_listing, warning_text};
use std::alloc::{AllocError, Global};

/// The routing table of a router over LSAs, and where it sends what is on its way to addresses, as
/// `ospfd table ROOT ADDRESS..` prints them (`ospf_table::table_text`).
///
/// The LSAs are a text: a line of hexadecimal digits for each.
#[unsafe(no_mangle)]
pub extern "C" fn ospf_table(
    alloc: Global,
    lsas: &[u8],
    root: u32,
    addresses: &[u32],
    room: &mut [u8],
    answer: &mut Answer,
)
    ensures { (report : Result Report Failure)
        × IsTableResult lsas.now (router_of root) addresses.now report
        × IsHandedOver report room.old room.new answer.new }
{
    hand_over(
        table_report(alloc, lsas, RouterId(root), addresses),
        room,
        answer,
    )
}

/// The routing table of a router over LSAs as JSON, as `ospfd table --json ROOT` prints it
/// (`ospf_inspect::table_json`).
#[unsafe(no_mangle)]
pub extern "C" fn ospf_table_json(
    alloc: Global,
    lsas: &[u8],
    root: u32,
    room: &mut [u8],
    answer: &mut Answer,
)
    ensures { (text : List ℕ) × (warnings : List ℕ) × (code : ℕ)
        × IsInspectPrinted (job.Table (router_of root)) (Some lsas.now) nothing
        (streams text warnings) code
        × IsAnswered text warnings code room.old room.new answer.new }
{
    inspect(
        alloc,
        &InspectJob::Table(RouterId(root)),
        lsas,
        room,
        answer,
    )
}

/// The routing tables of all routers over LSAs, as `ospfd table all` prints them, or with `json` as
/// `ospfd table --json all` (`ospf_inspect::tables_text`).
#[unsafe(no_mangle)]
pub extern "C" fn ospf_tables(
    alloc: Global,
    lsas: &[u8],
    json: bool,
    room: &mut [u8],
    answer: &mut Answer,
)
    ensures { (text : List ℕ) × (warnings : List ℕ) × (code : ℕ)
        × IsInspectPrinted (job.Tables (form_of json)) (Some lsas.now) nothing
        (streams text warnings) code
        × IsAnswered text warnings code room.old room.new answer.new }
{
    inspect(
        alloc,
        &InspectJob::Tables(form_of(json)),
        lsas,
        room,
        answer,
    )
}

// What is printed of the table of a router over LSAs.
fn table_report(
    alloc: Global,
    lsas: &[u8],
    root: RouterId,
    addresses: &[u32],
) -> Result<Report, Failure>
    ensures { IsTableResult lsas.now root addresses.now result }
{
    match read_listing(alloc, lsas) {
        Ok(listing) => {
            let report = table_of(alloc, &listing, root, addresses)?;
            Ok(report)
        }
        Err(TableFault::Entry { number, fault }) => {
            let report = line_refused(alloc, number, fault)?;
            Ok(report)
        }
        Err(TableFault::Failure(failure)) => Err(failure),
    }
}

// What is printed of the table of a router over a listing.
fn table_of(
    alloc: Global,
    listing: &Listing,
    root: RouterId,
    addresses: &[u32],
) -> Result<Report, AllocError>
    ensures { (bytes : List ℕ) → Reads bytes [] listing.now →
        IfOk result (IsTableReport bytes root addresses.now) }
{
    let addresses = addresses_of(alloc, addresses)?;
    let table = RouteTable::of(alloc, listing, root)?;
    let warnings = warning_text(alloc, listing, root, &table, &addresses)?;
    let text = output_text(alloc, &table, &addresses)?;
    Ok(Report {
        warnings,
        text,
        status: Status::Done.code(),
    })
}

// Addresses by their numbers.
fn addresses_of(alloc: Global, numbers: &[u32]) -> Result<Vec<Addr>, AllocError>
    ensures { IfOk result (λ found. found.items ≡ map address_of numbers.now) }
{
    numbers.iter().map(|number| Addr(*number)).collect(alloc)
}
