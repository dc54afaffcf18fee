//! What the LSAs of an area say, for LSAs that are read as lines of text.

ghost use Rattle.std.specs.Prelude.{◌≡◌, [], IfOk, string_bytes};
ghost use Rattle.ospf_files.specs.Streams.{written_on};
ghost use Rattle.ospf_inspect.specs.AreaDrawing.Graph.{graph_text};
ghost use Rattle.ospf_inspect.specs.Answer.{IsInspectAnswer, IsInspectPrinted, IsInspectResult, Says, Warns, WarnsOfJob, WarnsOfLookups, WarnsOfWay, head_for};

use crate::drawing::Graph;
use crate::lsas::lsas_text;
use crate::path::path_text;
use crate::tables::{table_json, table_lines, tables_json, tables_lines, tables_text};
use crate::values::lsas_json;
use ospf_base::{Addr, RouterId};
use ospf_files::{Failure, Report, Status, print_report};
use ospf_lsa::Listing;
use ospf_spf::RouteTable;
use ospf_table::{
    TableFault, head_line, left_out_text, line_refused, read_counted, unlisted_text, warning_text,
};
use std::alloc::{AllocError, Global};
use std::io::{BufRead, Write};

/// How an answer is printed.
#[derive(Clone, Copy, Debug, PartialEq, Eq)]
pub enum Form {
    /// In lines of text.
    Text,
    /// As one value of JSON, on a line.
    Json,
}

/// What to print about the LSAs of an area.
#[derive(Debug, Drop)]
pub enum InspectJob {
    /// Each LSA.
    Lsas(Form),
    /// The LSAs as a drawing for Graphviz's `dot`.
    Drawing,
    /// The routing table of each router.
    Tables(Form),
    /// The same as JSON of version 2: a line about the input, and then one for each router.
    TablesLines,
    /// The routing table of one router, as JSON.
    Table(RouterId),
    /// The routing table of one router and lookups in it, as JSON of version 2: a line about the
    /// input, and then one of the table.
    TableLines {
        root: RouterId,
        addresses: Vec<Addr>,
    },
    /// The way from a router to an address, with the choices of hops on it.
    Path {
        from: RouterId,
        address: Addr,
        choices: Vec<u32>,
    },
}

/// Reads LSAs, one per line in hexadecimal as `ospf_table::table_text` does, and prints what the
/// job asks for: each LSA in words or as JSON, a drawing of all, the routing table of each router
/// or of one, or the path from a router to an address. The result is the exit status.
///
/// `err` says how many LSAs were left out at `MAX_AGE`, if any were. If LSAs are listed, but not
/// the router-LSA of the table's router or of the path's first router, it says so. If one of these
/// has no route to an address, it names the routers at the border of the area
/// (`ospf_table::warning_text`). The first refused line is reported on `err`; then nothing is
/// printed, with status 3. Status 4 says that memory ran out, and 5 that a read or a write failed,
/// as `ospf_files::print_report` does.
pub fn inspect_text<R: BufRead + Drop, O: Write, E: Write>(
    alloc: Global,
    job: &InspectJob,
    input: R,
    out: &mut O,
    err: &mut E,
) -> u8
    ensures { IsInspectPrinted job.now (R.remaining input)
        (written_on (O.contents out.old) (E.contents err.old))
        (written_on (O.contents out.new) (E.contents err.new)) result }
{
    print_report(inspect_report(alloc, job, input), out, err)
}

/// What `inspect_text` prints, and the status that it ends with.
///
/// `Memory` where memory ran out, or `Input` where a read failed.
pub fn inspect_report<R: BufRead + Drop>(
    alloc: Global,
    job: &InspectJob,
    input: R,
) -> Result<Report, Failure>
    ensures { IsInspectResult job.now (R.remaining input) result }
{
    match read_counted(alloc, input) {
        Ok(read) => {
            let report = answer_of(alloc, job, &read.listing, read.left_out)?;
            Ok(report)
        }
        Err(TableFault::Entry { number, fault }) => {
            let report = line_refused(alloc, number, fault)?;
            Ok(report)
        }
        Err(TableFault::Failure(failure)) => Err(failure),
    }
}

// The answer for a listing, of which so many LSAs were left out.
fn answer_of(
    alloc: Global,
    job: &InspectJob,
    listing: &Listing,
    left_out: u64,
) -> Result<Report, AllocError>
    ensures { IfOk result (IsInspectAnswer job.now listing.now left_out) }
{
    let warnings = warning_of(alloc, job, listing, left_out)?;
    let mut text = head_for(alloc, job, listing, left_out, &warnings)?;
    let body = text_of(alloc, job, listing)?;
    text.push_str(&body)?;
    Ok(Report {
        warnings,
        text,
        status: Status::Done.code(),
    })
}

// The line before the answer, in version 2 of the JSON.
fn head_for(
    alloc: Global,
    job: &InspectJob,
    listing: &Listing,
    left_out: u64,
    warnings: &str,
) -> Result<String, AllocError>
    ensures { IfOk result (λ text. string_bytes text
        ≡ head_for job.now listing.now left_out warnings.now) }
{
    match job {
        InspectJob::TablesLines => head_line(alloc, listing, left_out, warnings),
        InspectJob::TableLines { .. } => head_line(alloc, listing, left_out, warnings),
        InspectJob::Lsas(_) => Ok(String::new(alloc)),
        InspectJob::Drawing => Ok(String::new(alloc)),
        InspectJob::Tables(_) => Ok(String::new(alloc)),
        InspectJob::Table(_) => Ok(String::new(alloc)),
        InspectJob::Path { .. } => Ok(String::new(alloc)),
    }
}

// The warning about the LSAs that were left out, and about what the job asks for.
fn warning_of(
    alloc: Global,
    job: &InspectJob,
    listing: &Listing,
    left_out: u64,
) -> Result<String, AllocError>
    ensures { IfOk result (λ text. Warns job.now listing.now left_out (string_bytes text)) }
{
    let mut text = left_out_text(alloc, left_out)?;
    let more = job_warning(alloc, job, listing)?;
    text.push_str(more.as_str())?;
    Ok(text)
}

// The warning about the router of a table, about lookups in it, or about the path that is asked
// for.
fn job_warning(alloc: Global, job: &InspectJob, listing: &Listing) -> Result<String, AllocError>
    ensures { IfOk result (λ text. WarnsOfJob job.now listing.now (string_bytes text)) }
{
    match job {
        InspectJob::Lsas(_)
        | InspectJob::Drawing
        | InspectJob::Tables(_)
        | InspectJob::TablesLines => Ok(String::new(alloc)),
        InspectJob::Table(router) => unlisted_text(alloc, listing, *router),
        InspectJob::TableLines { root, addresses } => {
            lookups_warning(alloc, listing, *root, addresses)
        }
        InspectJob::Path { from, address, .. } => way_warning(alloc, listing, *from, *address),
    }
}

// The warning about the router where a path starts, and if it has no route.
fn way_warning(
    alloc: Global,
    listing: &Listing,
    from: RouterId,
    address: Addr,
) -> Result<String, AllocError>
    ensures { IfOk result (λ text. WarnsOfWay listing.now from address (string_bytes text)) }
{
    let table = RouteTable::of(alloc, listing, from)?;
    warning_text(alloc, listing, from, &table, &[address])
}

// The warning about the router whose table it is, and if it has no route for one of these.
fn lookups_warning(
    alloc: Global,
    listing: &Listing,
    root: RouterId,
    addresses: &[Addr],
) -> Result<String, AllocError>
    ensures { IfOk result (λ text. WarnsOfLookups listing.now root addresses.now
        (string_bytes text)) }
{
    let table = RouteTable::of(alloc, listing, root)?;
    warning_text(alloc, listing, root, &table, addresses)
}

// What is printed of a listing.
fn text_of(alloc: Global, job: &InspectJob, listing: &Listing) -> Result<String, AllocError>
    ensures { IfOk result (λ text. Says job.now listing.now (string_bytes text)) }
{
    match job {
        InspectJob::Lsas(Form::Text) => lsas_text(alloc, listing),
        InspectJob::Lsas(Form::Json) => lsas_json(alloc, listing),
        InspectJob::Drawing => drawing_text(alloc, listing),
        InspectJob::Tables(Form::Text) => tables_text(alloc, listing),
        InspectJob::Tables(Form::Json) => tables_json(alloc, listing),
        InspectJob::TablesLines => tables_lines(alloc, listing),
        InspectJob::Table(router) => table_json(alloc, listing, *router),
        InspectJob::TableLines { root, addresses } => {
            table_lines(alloc, listing, *root, addresses)
        }
        InspectJob::Path {
            from,
            address,
            choices,
        } => path_text(alloc, listing, *from, *address, choices),
    }
}

// A listing as a drawing.
fn drawing_text(alloc: Global, listing: &Listing) -> Result<String, AllocError>
    ensures { IfOk result (λ text. string_bytes text ≡ graph_text listing.now [] []) }
{
    let graph = Graph {
        listing,
        stopped: &[],
        walked: &[],
    };
    format!(in alloc; "{graph}")
}
