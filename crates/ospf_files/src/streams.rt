//! The streams that a program writes to, and which of them have failed.

ghost use Rattle.std.specs.Prelude.{◌≡◌, ◌⊎◌, ◌++◌, true, false, OnErr, OnOk, IfErr, codes};
ghost use Rattle.std.specs.Io.KnownBytes.{Appends, Keeps};
ghost use Rattle.ospf_files.specs.Streams.{IsBegun, IsErrorCut, IsErrorFailed, IsOutputCut, IsOutputFailed, with_error, with_output};

use crate::status::Failure;
use std::io::{self, ErrorKind, Write};

/// Which of a program's two streams a write or a flush has failed at.
#[derive(Clone, Copy, Debug, PartialEq, Eq)]
pub struct FailedStreams {
    pub(crate) output: bool,
    pub(crate) error: bool,
}

impl FailedStreams {
    /// Neither.
    pub fn none() -> FailedStreams
        ensures output { IsOutputFailed result → ⊥ }
        ensures error { IsErrorFailed result → ⊥ }
    {
        FailedStreams {
            output: false,
            error: false,
        }
    }

    /// Writes a text to standard output, which may keep it until it is flushed.
    ///
    /// `Memory` where that ran out, else `Output`; the stream is noted then.
    pub fn write<O: Write>(&mut self, out: &mut O, text: &str) -> Result<(), Failure>
        // The text is appended, and no stream has failed by it.
        ensures same { OnOk result (self.new ≡ self.old) }
        ensures written { OnOk result (Appends (O.contents out.old) (O.contents out.new) text.now) }
        // Else a beginning of it was written, and standard output has failed.
        ensures begun { OnErr result (IsBegun (O.contents out.old) (O.contents out.new) text.now) }
        ensures failed { OnErr result (self.new ≡ with_output self.old) }
        ensures cut { IfErr result (IsOutputCut self.new) }
    {
        match put(out, text.as_bytes()) {
            Ok(()) => Ok(()),
            Err(error) => {
                self.output = true;
                Err(Failure::of(&error, Failure::Output))
            }
        }
    }

    /// Flushes standard output.
    ///
    /// `Memory` where that ran out, else `Output`; the stream is noted then.
    pub fn flush<O: Write>(&mut self, out: &mut O) -> Result<(), Failure>
        ensures same { OnOk result (self.new ≡ self.old) }
        ensures bytes { Keeps (O.contents out.old) (O.contents out.new) }
        ensures failed { OnErr result (self.new ≡ with_output self.old) }
        ensures cut { IfErr result (IsOutputCut self.new) }
    {
        match out.flush() {
            Ok(()) => Ok(()),
            Err(error) => {
                self.output = true;
                Err(Failure::of(&error, Failure::Output))
            }
        }
    }

    /// Writes a text to standard output, and flushes.
    ///
    /// `Memory` where that ran out, else `Output`; the stream is noted then.
    pub fn print<O: Write>(&mut self, out: &mut O, text: &str) -> Result<(), Failure>
        ensures printed { OnOk result ((self.new ≡ self.old)
            × Appends (O.contents out.old) (O.contents out.new) text.now) }
        ensures begun { OnErr result (IsBegun (O.contents out.old) (O.contents out.new) text.now) }
        ensures failed { OnErr result (self.new ≡ with_output self.old) }
        ensures failure { IfErr result (λ failure. (failure ≡ Failure.Memory)
            ⊎ (failure ≡ Failure.Output)) }
    {
        match write_text(out, text) {
            Ok(()) => Ok(()),
            Err(error) => {
                self.output = true;
                Err(Failure::of(&error, Failure::Output))
            }
        }
    }

    /// Writes a text to standard error, and flushes.
    ///
    /// `Memory` where that ran out, else `Error`; the stream is noted then.
    pub fn tell<E: Write>(&mut self, err: &mut E, text: &str) -> Result<(), Failure>
        // The text is appended, and no stream has failed by it.
        ensures told { OnOk result ((self.new ≡ self.old)
            × Appends (E.contents err.old) (E.contents err.new) text.now) }
        // Else a beginning of it was written, and standard error has failed, or memory ran out.
        ensures begun { OnErr result (IsBegun (E.contents err.old) (E.contents err.new) text.now) }
        ensures failed { OnErr result (self.new ≡ with_error self.old) }
        ensures failure { IfErr result (λ failure. (failure ≡ Failure.Memory)
            ⊎ (failure ≡ Failure.Error)) }
        ensures cut { IfErr result (IsErrorCut self.new) }
    {
        match write_text(err, text) {
            Ok(()) => Ok(()),
            Err(error) => {
                self.error = true;
                Err(Failure::of(&error, Failure::Error))
            }
        }
    }
}

/// Writes a text, and flushes. Where that fails, a beginning of it was written.
pub fn write_text<W: Write>(writer: &mut W, text: &str) -> io::Result<()>
    ensures ok { OnOk result (Appends (W.contents writer.old) (W.contents writer.new) text.now) }
    ensures err { OnErr result (IsBegun (W.contents writer.old) (W.contents writer.new) text.now) }
{
    put(writer, text.as_bytes())?;
    writer.flush()
}

/// Writes a text as a line, and flushes. Where that fails, a beginning of the line was written.
pub fn write_line<W: Write>(writer: &mut W, text: &str) -> io::Result<()>
    ensures ok { OnOk result (Appends (W.contents writer.old) (W.contents writer.new)
        (text.now ++ codes "\n")) }
    ensures err { OnErr result (IsBegun (W.contents writer.old) (W.contents writer.new)
        (text.now ++ codes "\n")) }
{
    write_joined(writer, text, "\n")
}

// Writes two texts, one after the other, and flushes.
pub(crate) fn write_joined<W: Write>(writer: &mut W, front: &str, back: &str) -> io::Result<()>
    ensures ok { OnOk result (Appends (W.contents writer.old) (W.contents writer.new)
        (front.now ++ back.now)) }
    ensures err { OnErr result (IsBegun (W.contents writer.old) (W.contents writer.new)
        (front.now ++ back.now)) }
{
    put(writer, front.as_bytes())?;
    put(writer, back.as_bytes())?;
    writer.flush()
}

// Writes all bytes.
fn put<W: Write>(writer: &mut W, bytes: &[u8]) -> io::Result<()>
    ensures ok { OnOk result (Appends (W.contents writer.old) (W.contents writer.new) bytes.now) }
    ensures err { OnErr result (IsBegun (W.contents writer.old) (W.contents writer.new) bytes.now) }
{
    let mut written = 0;
    for _ in 0..u64::MAX {
        if written == bytes.len() {
            return Ok(());
        }
        match writer.write(&bytes[written..]) {
            Ok(0) => return Err(io::Error::from(ErrorKind::WriteZero)),
            Ok(count) => written += count,
            Err(error) if error.kind() == ErrorKind::Interrupted => {}
            Err(error) => return Err(error),
        }
    }
    Err(io::Error::from(ErrorKind::Interrupted))
}
