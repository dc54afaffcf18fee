//! The files that are wanted of a simulation.

ghost use Rattle.std.specs.Prelude.{◌≡◌, ◌++◌, IfErr, IfOk, OnErr, Ok, true};
ghost use Rattle.std.specs.IoError.{error_kind};
ghost use Rattle.ospf_views.specs.RecordFiles.Files.{TellsBefore, TellsUnwritten, names_in};

use crate::records::captures::capture;
use crate::records::drawings::drawing;
use ospf_base::RouterId;
use ospf_files::write_file;
use ospf_world::{Walk, World};
use std::io::{self, ErrorKind, Write};
use std::rt::Runtime;

/// Writes the wanted files about the world after a simulation: into the file `dot` its drawing,
/// with the walk if there was one, into `pcap` its capture. Returns whether all was written. Files
/// that were not written are reported, as far as `err` can be written, one line per file, the
/// drawing before the capture.
///
/// The only error is out of memory. Files before it that were not written are reported.
pub fn write_records<R: Runtime + AllocGlobal, E: Write>(
    rt: &R,
    world: &World,
    walk: Option<&Walk>,
    dot: Option<&str>,
    pcap: Option<&str>,
    err: &mut E,
) -> io::Result<bool>
    // Of each file that could not be written its line was begun, in their order.
    ensures told { IfOk result (λ all. TellsUnwritten (names_in dot.entry ++ names_in pcap.entry)
        all (E.contents err.old) (E.contents err.new)) }
    ensures silent { result ≡ Ok true → E.contents err.new ≡ E.contents err.old }
    // Out of memory, at one of the files, is the only error. The files before it that could not be
    // written are reported.
    ensures cut { OnErr result (TellsBefore (names_in dot.entry ++ names_in pcap.entry)
        (E.contents err.old) (E.contents err.new)) }
    ensures memory { IfErr result (λ error. error_kind error ≡ ErrorKind.OutOfMemory) }
{
    let drawn = write_drawing(rt, world, walk, dot, err)?;
    let captured = write_capture(rt, world, pcap, err)?;
    Ok(drawn && captured)
}

// Writes the drawing of the world, if it is wanted. The answer is whether all was written.
fn write_drawing<R: Runtime + AllocGlobal, E: Write>(
    rt: &R,
    world: &World,
    walk: Option<&Walk>,
    dot: Option<&str>,
    err: &mut E,
) -> io::Result<bool>
    ensures told { IfOk result (λ all. TellsUnwritten (names_in dot.entry) all (E.contents err.old)
        (E.contents err.new)) }
    ensures cut { OnErr result (TellsBefore (names_in dot.entry) (E.contents err.old)
        (E.contents err.new)) }
    ensures memory { IfErr result (λ error. error_kind error ≡ ErrorKind.OutOfMemory) }
{
    match dot {
        None => Ok(true),
        Some(name) => {
            let text = drawing(world, routers_in(walk), rt.alloc())?;
            write_file(rt, name, text.as_bytes(), err)
        }
    }
}

// Writes the capture of the world, if it is wanted. The answer is whether all was written.
fn write_capture<R: Runtime + AllocGlobal, E: Write>(
    rt: &R,
    world: &World,
    pcap: Option<&str>,
    err: &mut E,
) -> io::Result<bool>
    ensures told { IfOk result (λ all. TellsUnwritten (names_in pcap.entry) all (E.contents err.old)
        (E.contents err.new)) }
    ensures cut { OnErr result (TellsBefore (names_in pcap.entry) (E.contents err.old)
        (E.contents err.new)) }
    ensures memory { IfErr result (λ error. error_kind error ≡ ErrorKind.OutOfMemory) }
{
    match pcap {
        None => Ok(true),
        Some(name) => {
            let bytes = capture(world, rt.alloc())?;
            write_file(rt, name, &bytes, err)
        }
    }
}

// The routers that a walk met; none where there was no walk.
fn routers_in(walk: Option<&Walk>) -> &[RouterId] {
    match walk {
        Some(walk) => &walk.routers,
        None => &[],
    }
}
