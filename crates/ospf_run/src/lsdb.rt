//! All LSAs of a router's LSDB, each as a line of hexadecimal digits.

ghost use Rattle.std.specs.Prelude.{◌≡◌, IfErr, IfOk, OnErr, OnOk, flat_map, map, string_bytes};
ghost use Rattle.std.specs.Io.KnownBytes.{Appends};
ghost use Rattle.ospf_files.specs.Streams.{IsBegun, IsOutputCut};
ghost use Rattle.ospf_lsdb.specs.Database.{entries, lsa_of};
ghost use Rattle.ospf_run.specs.Printed.{lsdb_line, lsdb_lines, lsdb_of};

use ospf_files::{FailedStreams, Failure};
use ospf_lsa::Lsa;
use ospf_lsdb::Lsdb;
use ospf_router::Router;
use std::alloc::{AllocError, Global};
use std::io::Write;

/// Prints all LSAs of a router's LSDB in the order of their keys, a line each, if they are wanted:
/// as `ospf_table` reads them.
pub(crate) fn print_lsdb<O: Write>(
    alloc: Global,
    is_wanted: bool,
    router: &Router,
    out: &mut O,
    streams: &mut FailedStreams,
) -> Result<(), Failure>
    ensures printed { OnOk result
        (Appends (O.contents out.old) (O.contents out.new) (lsdb_lines is_wanted router.now)) }
    ensures begun { OnErr result
        (IsBegun (O.contents out.old) (O.contents out.new) (lsdb_lines is_wanted router.now)) }
    ensures cut { IfErr result (IsOutputCut streams.new) }
{
    if !is_wanted {
        return Ok(());
    }
    let lsas = lsas_of(alloc, router)?;
    print_lsas(alloc, &lsas, out, streams)
}

// The LSAs of a router's LSDB at their present ages.
fn lsas_of(alloc: Global, router: &Router) -> Result<Vec<Lsa>, AllocError>
    ensures { IfOk result (λ lsas. lsas.items ≡ lsdb_of router.now.area) }
{
    match router.area() {
        Some(area) => lsas_in(alloc, &area.database),
        None => Ok(Vec::new(alloc)),
    }
}

// The LSAs of a database at their present ages.
fn lsas_in(alloc: Global, database: &Lsdb) -> Result<Vec<Lsa>, AllocError>
    ensures { IfOk result (λ lsas. lsas.items ≡ map lsa_of (entries database.now)) }
{
    let mut lsas = Vec::new(alloc);
    for entry in database.entries() {
        let Ok(lsa) = entry.copy(alloc) else {
            return Err(AllocError);
        };
        lsas.push(lsa)?;
    }
    Ok(lsas)
}

// Prints LSAs, a line each.
fn print_lsas<O: Write>(
    alloc: Global,
    lsas: &[Lsa],
    out: &mut O,
    streams: &mut FailedStreams,
) -> Result<(), Failure>
    ensures printed { OnOk result
        (Appends (O.contents out.old) (O.contents out.new) (flat_map lsdb_line lsas.now)) }
    ensures begun { OnErr result
        (IsBegun (O.contents out.old) (O.contents out.new) (flat_map lsdb_line lsas.now)) }
    ensures cut { IfErr result (IsOutputCut streams.new) }
{
    for lsa in lsas {
        print_lsa(alloc, lsa, out, streams)?;
    }
    Ok(())
}

// Prints an LSA.
fn print_lsa<O: Write>(
    alloc: Global,
    lsa: &Lsa,
    out: &mut O,
    streams: &mut FailedStreams,
) -> Result<(), Failure>
    ensures printed { OnOk result
        (Appends (O.contents out.old) (O.contents out.new) (lsdb_line lsa.now)) }
    ensures begun { OnErr result
        (IsBegun (O.contents out.old) (O.contents out.new) (lsdb_line lsa.now)) }
    ensures cut { IfErr result (IsOutputCut streams.new) }
{
    let line = lsdb_line(alloc, lsa)?;
    streams.write(out, &line)
}

// Formats the line of an LSA.
fn lsdb_line(alloc: Global, lsa: &Lsa) -> Result<String, AllocError>
    ensures { IfOk result (λ line. string_bytes line ≡ lsdb_line lsa.now) }
{
    let view = lsa.view();
    let mut line = hex::encode(alloc, view.as_bytes())?;
    line.push_str("\n")?;
    Ok(line)
}
