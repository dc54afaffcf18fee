//! What a command has computed, and how it is printed.

ghost use Rattle.std.specs.Prelude.{◌≡◌, IfErr, Ok, OnOk};
ghost use Rattle.ospf_files.specs.Report.{IsCutBy, IsReportPrinted, IsReportPrintedBy, IsReportWritten};
ghost use Rattle.ospf_files.specs.Streams.{written_on};

use crate::status::Failure;
use crate::streams::FailedStreams;
use std::io::Write;

/// What a command has computed of its words and its input, before it writes anything.
///
/// A refusal is a report too: its line is the warnings, there is no text, and the status says so.
#[derive(Debug, Drop)]
pub struct Report {
    /// What is printed on standard error, in whole lines.
    pub warnings: String,
    /// What is printed on standard output.
    pub text: String,
    /// The exit status, once both are written.
    pub status: u8,
}

/// Prints a report: its warnings on `err`, and then its text on `out`. Both are flushed. The result
/// is the exit status.
///
/// Where there is no report, or a stream fails, the failure's line is printed on `err` as far as
/// that can be written, and the result is the failure's status: 4 where memory ran out, else 5. No
/// more than a beginning of the warnings is written then, or all of them and a beginning of the
/// text.
pub fn print_report<O: Write, E: Write>(
    report: Result<Report, Failure>,
    out: &mut O,
    err: &mut E,
) -> u8
    ensures { IsReportPrinted report (written_on (O.contents out.old) (E.contents err.old))
        (written_on (O.contents out.new) (E.contents err.new)) result }
{
    print_noted(report, out, err, &mut FailedStreams::none())
}

// Prints a report, as `print_report`, and notes which streams fail.
fn print_noted<O: Write, E: Write>(
    report: Result<Report, Failure>,
    out: &mut O,
    err: &mut E,
    streams: &mut FailedStreams,
) -> u8
    ensures { IsReportPrintedBy streams.new report
        (written_on (O.contents out.old) (E.contents err.old))
        (written_on (O.contents out.new) (E.contents err.new)) result }
{
    match report {
        Ok(report) => match write_report(&report, out, err, streams) {
            Ok(()) => report.status,
            Err(failure) => failure.tell(err, streams).code(),
        },
        Err(failure) => failure.tell(err, streams).code(),
    }
}

// Writes the warnings of a report, and then its text.
fn write_report<O: Write, E: Write>(
    report: &Report,
    out: &mut O,
    err: &mut E,
    streams: &mut FailedStreams,
) -> Result<(), Failure>
    ensures written { OnOk result (IsReportWritten report.now
        (written_on (O.contents out.old) (E.contents err.old))
        (written_on (O.contents out.new) (E.contents err.new))) }
    ensures cut { IfErr result (λ failure. IsCutBy (Ok report.now) streams.new failure
        (written_on (O.contents out.old) (E.contents err.old))
        (written_on (O.contents out.new) (E.contents err.new))) }
{
    match streams.tell(err, &report.warnings) {
        Ok(()) => {}
        Err(failure) => return Err(failure),
    }
    streams.print(out, &report.text)
}
