//! Words that a caller gives as the lines of a text.

ghost use Rattle.std.specs.Prelude.{◌≡◌, IfOk, map, string_bytes};
ghost use Rattle.ospf_files.specs.Lines.{lines_of};
ghost use Rattle.ospf_c.specs.Words.{AreWords};

use std::alloc::{AllocError, Global};

// The words that are the lines of a text. What is not UTF-8 in it is read as U+FFFD.
pub(crate) fn words_of(alloc: Global, text: &[u8]) -> Result<Vec<String>, AllocError>
    ensures { IfOk result (λ words. AreWords text.now words.items) }
{
    let text = String::from_utf8_lossy(alloc, text)?;
    let words = copies_of_lines(alloc, &text)?;
    Ok(words)
}

// The lines of a text, without their ends.
fn copies_of_lines(alloc: Global, text: &str) -> Result<Vec<String>, AllocError>
    ensures { IfOk result (λ copies. map string_bytes copies.items ≡ lines_of text.now) }
{
    let lines = lines_of(alloc, text)?;
    let mut copies = Vec::new(alloc);
    for line in lines.iter() {
        copies.push(String::from_str(alloc, line)?)?;
    }
    Ok(copies)
}

// The lines of a text where it has them.
fn lines_of(alloc: Global, text: &str) -> Result<Vec<&str>, AllocError>
    ensures { IfOk result (λ lines. map (λ line. line.now) lines.items ≡ lines_of text.now) }
{
    text.lines().collect(alloc)
}
