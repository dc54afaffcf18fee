//! The names of the files that are read and written.

use std::io::Write;

/// Whether an output file has the name of a file that is read, or of another output file. This is
/// reported before anything in the file is lost.
pub(crate) fn tell_overwritten<E: Write>(
    script: Option<&str>,
    files: &[String],
    written: &[Option<&str>],
    err: &mut E,
) -> bool {
    for name in written {
        let Some(name) = *name else {
            continue;
        };
        if script == Some(name) || is_among(files, name) || is_twice(written, name) {
            let _ = writeln!(err, "{name}: would be overwritten").and_then(|_| err.flush());
            return true;
        }
    }
    false
}

// Whether one of the files has this name.
fn is_among(files: &[String], name: &str) -> bool {
    files.iter().any(|file| file.as_str() == name)
}

// Whether two output files have this name.
fn is_twice(written: &[Option<&str>], name: &str) -> bool {
    written.iter().filter(|it| **it == Some(name)).count() > 1
}
