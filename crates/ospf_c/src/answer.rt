//! What a call answers, and how it is handed over.

ghost use Rattle.std.specs.Prelude.{◌≡◌, ◌≤◌, ◌+◌, ◌++◌, drop, length};
ghost use Rattle.ospf_files.specs.Status.{failure_line};
ghost use Rattle.ospf_c.specs.Answered.{IsAnswered, IsHandedOver};

use ospf_files::{Failure, Report};

/// What a call says of its answer, which it writes into the caller's memory: first the text, that
/// `ospfd` prints on standard output, and then the warnings, that it prints on standard error.
///
/// If the memory is smaller than both together, the call writes nothing there. The sizes then say
/// how much memory the same call needs.
#[repr(C)]
#[derive(Clone, Copy, Debug, PartialEq, Eq)]
pub struct Answer {
    /// How many bytes the text has.
    pub text: usize,
    /// How many bytes the warnings have.
    pub warnings: usize,
    /// The status: 0 where all is done, 1 where a route is lost, 2 if a word names nothing, 3 if
    /// the input is refused, 4 if memory ran out.
    pub status: u8,
}

// Hands over a report, or the line of the failure for which there is none.
pub(crate) fn hand_over(report: Result<Report, Failure>, room: &mut [u8], answer: &mut Answer)
    ensures { IsHandedOver report room.old room.new answer.new }
{
    match report {
        Ok(report) => answer_with(
            report.text.as_bytes(),
            report.warnings.as_bytes(),
            report.status,
            room,
            answer,
        ),
        Err(failure) => answer_with(
            b"",
            line_of(failure).as_bytes(),
            failure.status().code(),
            room,
            answer,
        ),
    }
}

// Hands over a text, warnings and a status.
pub(crate) fn answer_with(
    text: &[u8],
    warnings: &[u8],
    status: u8,
    room: &mut [u8],
    answer: &mut Answer,
)
    ensures { IsAnswered text.now warnings.now status room.old room.new answer.new }
{
    *answer = Answer {
        text: text.len(),
        warnings: warnings.len(),
        status,
    };
    if text.len() <= room.len() && warnings.len() <= room.len() - text.len() {
        write_both(text, warnings, room);
    }
}

// Writes two texts, one after the other, to the beginning of memory in which they have room.
fn write_both(text: &[u8], warnings: &[u8], room: &mut [u8])
    requires { length text.now + length warnings.now ≤ length room.old }
    ensures { room.new ≡ text.now ++ (warnings.now ++ drop (length text.now + length warnings.now)
        room.old) }
{
    let (front, rest) = room.split_at_mut(text.len());
    front.copy_from_slice(text);
    let (middle, _) = rest.split_at_mut(warnings.len());
    middle.copy_from_slice(warnings);
}

// The line of a failure.
fn line_of(failure: Failure) -> &'static str
    ensures { result.now ≡ failure_line failure }
{
    match failure {
        Failure::Memory => "out of memory\n",
        Failure::Input => "standard input: not read\n",
        Failure::Output => "standard output: not written\n",
        Failure::Error => "standard error: not written\n",
        Failure::Closed => "the published table is closed\n",
    }
}
