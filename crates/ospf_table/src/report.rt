//! Reports of commands that refuse what they are given.

ghost use Rattle.std.specs.Prelude.{IfOk, [], string_bytes};
ghost use Rattle.ospf_files.specs.Status.{code_of};
ghost use Rattle.ospf_table.specs.Refusal.{refusal_line};
ghost use Rattle.ospf_table.specs.Report.{Shows};

use crate::table::EntryFault;
use ospf_files::{Report, Status};
use std::alloc::{AllocError, Global};

/// The report that refuses a line of LSAs: `line 3: L3 Sum` on standard error, nothing on standard
/// output, and status 3.
///
/// `AllocError` where memory runs out.
pub fn line_refused(alloc: Global, number: u64, fault: EntryFault) -> Result<Report, AllocError>
    ensures { IfOk result (λ report. Shows report (refusal_line number fault) [] 3) }
{
    let line = format!(in alloc; "line {number}: {}\n", fault.text())?;
    Ok(refusal(alloc, line, Status::Refused))
}

/// A report that refuses: lines for standard error alone, and a status.
pub fn refusal(alloc: Global, lines: String, status: Status) -> Report
    ensures { Shows result (string_bytes lines) [] (code_of status) }
{
    Report {
        warnings: lines,
        text: String::new(alloc),
        status: status.code(),
    }
}
