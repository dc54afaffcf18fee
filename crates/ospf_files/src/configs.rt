//! Which files could be read.

ghost use Rattle.std.specs.Prelude.{IfSome, IfNone};
ghost use Rattle.ospf_files.specs.Listed.{AreFilesRead, IsFirstUnread};

use crate::files::NamedFile;

/// The first file that could not be read.
pub fn first_unread(files: &[NamedFile]) -> Option<&NamedFile>
    ensures some { IfSome result (λ file. IsFirstUnread file.now files.now) }
    ensures none { IfNone result (AreFilesRead files.now) }
{
    for file in files {
        if !file.is_read() {
            return Some(file);
        }
    }
    None
}
