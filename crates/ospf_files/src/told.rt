//! What is printed about a file that is refused.

ghost use Rattle.std.specs.Prelude.{◌≡◌, ◌⊎◌, IfErr, IfOk, OnErr, OnOk, string_bytes};
ghost use Rattle.std.specs.Io.KnownBytes.{Appends};
ghost use Rattle.ospf_files.specs.Files.{refused_line, unread_line};
ghost use Rattle.ospf_files.specs.Streams.{IsBegun, IsErrorCut, with_error};

use crate::files::NamedFile;
use crate::status::Failure;
use crate::streams::FailedStreams;
use ospf_config::ConfigFault;
use std::alloc::{AllocError, Global};
use std::io::Write;

/// Reports that a file could not be read, as `1.toml: not read`.
///
/// `Failure` if memory runs out or the stream fails: then a beginning of the line was written.
pub fn tell_unread<E: Write>(
    alloc: Global,
    file: &NamedFile,
    err: &mut E,
    streams: &mut FailedStreams,
) -> Result<(), Failure>
    // The line is written, and no stream has failed by it.
    ensures same { OnOk result (streams.new ≡ streams.old) }
    ensures told { OnOk result
        (Appends (E.contents err.old) (E.contents err.new) (unread_line file.now)) }
    // Else a beginning of it was written, and standard error has failed, or memory ran out.
    ensures begun { OnErr result
        (IsBegun (E.contents err.old) (E.contents err.new) (unread_line file.now)) }
    ensures failed { OnErr result ((streams.new ≡ streams.old)
        ⊎ (streams.new ≡ with_error streams.old)) }
    ensures cut { IfErr result (IsErrorCut streams.new) }
{
    let line = unread_line(alloc, file)?;
    streams.tell(err, &line)
}

/// Reports the fault of a file, as `1.toml: C6 SamePrefix`.
///
/// `Failure` if memory runs out or the stream fails: then a beginning of the line was written.
pub fn tell_refused<E: Write>(
    alloc: Global,
    file: &NamedFile,
    fault: ConfigFault,
    err: &mut E,
    streams: &mut FailedStreams,
) -> Result<(), Failure>
    // The line is written, and no stream has failed by it.
    ensures same { OnOk result (streams.new ≡ streams.old) }
    ensures told { OnOk result
        (Appends (E.contents err.old) (E.contents err.new) (refused_line file.now fault)) }
    // Else a beginning of it was written, and standard error has failed, or memory ran out.
    ensures begun { OnErr result
        (IsBegun (E.contents err.old) (E.contents err.new) (refused_line file.now fault)) }
    ensures failed { OnErr result ((streams.new ≡ streams.old)
        ⊎ (streams.new ≡ with_error streams.old)) }
    ensures cut { IfErr result (IsErrorCut streams.new) }
{
    let line = refused_line(alloc, file, fault)?;
    streams.tell(err, &line)
}

// The line of a file that could not be read.
fn unread_line(alloc: Global, file: &NamedFile) -> Result<String, AllocError>
    ensures { IfOk result (λ line. string_bytes line ≡ unread_line file.now) }
{
    format!(in alloc; "{}: not read\n", file.name)
}

// The line of a file that is refused.
fn refused_line(alloc: Global, file: &NamedFile, fault: ConfigFault) -> Result<String, AllocError>
    ensures { IfOk result (λ line. string_bytes line ≡ refused_line file.now fault) }
{
    format!(in alloc; "{}: {}\n", file.name, fault.text())
}
