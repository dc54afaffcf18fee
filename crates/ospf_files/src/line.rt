//! The lines of a text, with their numbers and without their comments.

ghost use Rattle.std.specs.Prelude.{◌≡◌, ◌<◌, ◌∷◌, [], length, map, IfOk, IfSome, IfNone};
ghost use Rattle.std.specs.Str.Lines.{strip_carriage_return};
ghost use Rattle.ospf_files.specs.Lines.{BeginsWithLine, numbered_line, lines_of, numbered_from, uncommented};

use crate::byte::place_of;
use std::alloc::{AllocError, Global};

/// A line of a text.
#[derive(Clone, Copy, Debug, PartialEq, Eq)]
pub struct Line<'a> {
    /// From 1 on.
    pub number: u64,
    /// Its bytes, without its end and its comment.
    pub text: &'a [u8],
}

/// The first line of a text, without its end, and the text after it; `None` if the text is empty.
///
/// A line ends with a line feed, with a carriage return and a line feed, or with the text.
pub fn first_line(text: &[u8]) -> Option<(&[u8], &[u8])>
    ensures line { IfSome result (λ found. lines_of text.now ≡ found.0.now ∷ lines_of found.1.now) }
    ensures cut { IfSome result (λ found. BeginsWithLine text.now found.0.now found.1.now) }
    ensures shorter { IfSome result (λ found. length found.1.now < length text.now) }
    ensures none { IfNone result (text.now ≡ []) }
{
    if text.is_empty() {
        return None;
    }
    let (line, rest) = text.split_at(place_of(text, b'\n'));
    match rest {
        [_, behind @ ..] => Some((without_return(line), behind)),
        [] => Some((text, rest)),
    }
}

/// The lines of a text, in order, without their comments: one begins with `#`.
///
/// The error says that memory ran out.
pub fn lines(alloc: Global, text: &[u8]) -> Result<Vec<Line<'_>>, AllocError>
    ensures { IfOk result (λ found. map numbered_line found.items ≡ numbered_from 1 text.now) }
{
    let mut found = Vec::new(alloc);
    let mut rest = text;
    let mut number = 0;
    while let Some((line, behind)) = first_line(rest) {
        number += 1;
        let text = without_comment(line);
        found.push(Line { number, text })?;
        rest = behind;
    }
    Ok(found)
}

// A line without a carriage return at its end.
fn without_return(line: &[u8]) -> &[u8]
    ensures { result.now ≡ strip_carriage_return line.now }
{
    match line {
        [text @ .., b'\r'] => text,
        _ => line,
    }
}

// A line without its comment.
fn without_comment(line: &[u8]) -> &[u8]
    ensures { result.now ≡ uncommented line.now }
{
    let (text, _) = line.split_at(place_of(line, b'#'));
    text
}
