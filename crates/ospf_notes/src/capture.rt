//! The capture of a run.

ghost use Rattle.std.specs.Prelude.{IfOk};
ghost use Rattle.ospf_notes.specs.Capturing.{IsRecord};

use ospf_run::Sent;
use ospf_views::records::{CaptureFault, Moment, write_datagram};
use std::alloc::Global;
use std::io::{self, ErrorKind, Write};
use std::marker::Model;
use std::time::Clock;

/// The capture of a run in a file, up to the first write that fails.
#[derive(Drop)]
pub(crate) struct Capture<F: Write + Drop> {
    // `None` if nothing is captured, or no longer.
    file: Option<F>,
    is_written: bool,
}

impl<F: Write + Drop> Model for Capture<F> {
    ghost use Rattle.std.specs.Prelude.{option_map};
    ghost use Rattle.ospf_notes.specs.Capturing.{CaptureValue};

    ghost Value = { CaptureValue };

    ghost view = { λ c. record {
      contents = option_map (λ f. F.contents f) c.file;
      is_written = c.is_written;
    } };
}

impl<F: Write + Drop> Capture<F> {
    ghost use Rattle.std.specs.Prelude.{◌≡◌, ◌≢◌, None, true, false, IfOk, IfSome, IsErr, option_map};
    ghost use Rattle.std.specs.Io.KnownBytes.{Appends};

    /// Nothing is captured yet, and nothing will be if there is no file.
    pub(crate) fn new(file: Option<F>) -> Capture<F>
        ensures { result
            ≡ record { contents = option_map (λ f. F.contents f) file; is_written = true } }
    {
        Capture {
            file,
            is_written: true,
        }
    }

    /// Whether everything could be written so far.
    pub(crate) fn is_written(&self) -> bool
        ensures { result ≡ self.now.is_written }
    {
        self.is_written
    }

    /// Appends bytes. If that fails, or they could not be made, nothing more is written.
    pub(crate) fn write(&mut self, bytes: Result<Vec<u8>, io::Error>)
        ensures none { self.old.contents ≡ None → self.new ≡ self.old }
        // As long as there is a file, all bytes are in it.
        ensures written { IfSome self.old.contents (λ old. IfSome self.new.contents
            (λ new. IfOk bytes (λ bytes. Appends old new bytes.items))) }
        ensures kept { self.new.contents ≢ None → self.new.is_written ≡ self.old.is_written }
        // If that fails the file is dropped, and not everything is written.
        ensures unmade { IsErr bytes → self.new.contents ≡ None }
        ensures ended { self.old.contents ≢ None → self.new.contents ≡ None →
            self.new.is_written ≡ false }
    {
        let Some(file) = &mut self.file else {
            return;
        };
        let written = match bytes {
            Ok(bytes) => file.write_all(&bytes),
            Err(error) => Err(error),
        };
        if written.is_err() {
            self.file = None;
            self.is_written = false;
        }
    }
}

/// A datagram as captured now; no bytes if it does not fit into an IP packet.
pub(crate) fn record_of<C: Clock>(
    clock: &C,
    sent: &Sent,
    alloc: Global,
) -> Result<Vec<u8>, io::Error> {
    let now = clock.since_1970()?;
    let at = Moment {
        seconds: u32::try_from(now.as_secs()).unwrap_or(u32::MAX),
        microseconds: now.subsec_micros(),
    };
    record_at(alloc, at, sent)
}

// A datagram as captured at a moment.
fn record_at(alloc: Global, at: Moment, sent: &Sent) -> Result<Vec<u8>, io::Error>
    ensures { IfOk result (λ bytes. IsRecord at sent.now.source sent.now.destination sent.now.bytes
        bytes.items) }
{
    let mut bytes = Vec::new(alloc);
    match write_datagram(&mut bytes, at, sent.source, sent.destination, &sent.bytes) {
        Ok(()) => Ok(bytes),
        Err(CaptureFault::TooLong) => Ok(bytes),
        Err(CaptureFault::Memory) => Err(io::Error::from(ErrorKind::OutOfMemory)),
    }
}
