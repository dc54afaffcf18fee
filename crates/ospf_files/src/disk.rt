//! Files of a disk, read and written whole.

ghost use Rattle.std.specs.Prelude.{◌≡◌, IfOk, IfErr, Ok, OnErr, OnOk, false, map, true};
ghost use Rattle.std.specs.Io.KnownBytes.{Appends};
ghost use Rattle.std.specs.IoError.{error_kind};
ghost use Rattle.ospf_files.specs.Files.{unwritten};
ghost use Rattle.ospf_files.specs.Streams.{IsBegun};

use crate::files::NamedFile;
use crate::streams::write_joined;
use std::fs;
use std::io::{self, ErrorKind, Write};
use std::rt::Runtime;

/// Reads the file of this name. A file that cannot be read has no bytes.
///
/// Fails only if memory runs out.
pub fn read_file<R: Runtime + AllocGlobal>(rt: &R, name: String) -> io::Result<NamedFile>
    ensures name { IfOk result (λ file. file.name ≡ name) }
    ensures memory { IfErr result (λ error. error_kind error ≡ ErrorKind.OutOfMemory) }
{
    let bytes = match fs::read(rt, name.as_str()) {
        Ok(bytes) => Some(bytes),
        Err(error) if error.kind() == ErrorKind::OutOfMemory => return Err(error),
        Err(_) => None,
    };
    Ok(NamedFile { name, bytes })
}

/// Reads the files of these names, in their order. A file that cannot be read has no bytes.
///
/// Fails only if memory runs out.
pub fn read_files<R: Runtime + AllocGlobal>(
    rt: &R,
    names: Vec<String>,
) -> io::Result<Vec<NamedFile>>
    ensures names { IfOk result (λ files. map (λ file. file.name) files.items ≡ names.items) }
    ensures memory { IfErr result (λ error. error_kind error ≡ ErrorKind.OutOfMemory) }
{
    let mut files = Vec::with_capacity(rt.alloc(), names.len())?;
    for name in names {
        files.push(read_file(rt, name)?)?;
    }
    Ok(files)
}

/// Reports that a file could not be written. If that fails, a beginning of the line was written.
pub fn tell_unwritten<E: Write>(name: &str, err: &mut E) -> io::Result<()>
    ensures ok { OnOk result
        (Appends (E.contents err.old) (E.contents err.new) (unwritten name.now)) }
    ensures err { OnErr result
        (IsBegun (E.contents err.old) (E.contents err.new) (unwritten name.now)) }
{
    write_joined(err, name, ": not written\n")
}

/// Writes a file, and returns whether it was written. If not, prints so on `err`, as far as `err`
/// can be written.
///
/// Fails only if memory runs out.
pub fn write_file<R: Runtime + AllocGlobal, E: Write>(
    rt: &R,
    name: &str,
    bytes: &[u8],
    err: &mut E,
) -> io::Result<bool>
    // If the file was written, nothing is printed; if not, a beginning of its line is.
    ensures silent { result ≡ Ok true → E.contents err.new ≡ E.contents err.old }
    ensures told { result ≡ Ok false →
        IsBegun (E.contents err.old) (E.contents err.new) (unwritten name.now) }
    // The only error is that memory ran out, and then nothing is printed.
    ensures unchanged { OnErr result (E.contents err.new ≡ E.contents err.old) }
    ensures memory { IfErr result (λ error. error_kind error ≡ ErrorKind.OutOfMemory) }
{
    match fs::write(rt, name, bytes) {
        Ok(()) => Ok(true),
        Err(error) if error.kind() == ErrorKind::OutOfMemory => Err(error),
        Err(_) => {
            let _ = tell_unwritten(name, err);
            Ok(false)
        }
    }
}
