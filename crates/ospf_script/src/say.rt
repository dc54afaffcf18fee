//! The words behind `say`.

ghost use Rattle.std.specs.Prelude.{◌≡◌, IfErr, IfOk, String, string_bytes};
ghost use Rattle.std.specs.declared.alloc.Global.{Global};
ghost use Rattle.ospf_script.specs.Commands.{spaced};
ghost use Rattle.ospf_script.specs.Words.{line_words};

use crate::fault::CommandFault;
use crate::words::first_word;
use std::alloc::{AllocError, Global};

// The words of a text, with a space between two.
pub(crate) fn text_in(alloc: Global, text: &[u8]) -> Result<String, CommandFault>
    ensures ok { IfOk result (λ said. string_bytes said ≡ spaced (line_words text.now)) }
    ensures not_a_text { IfErr result (λ e. e ≡ CommandFault.NotACommand → (said : String Global) →
        string_bytes said ≡ spaced (line_words text.now) → ⊥) }
{
    let bytes = bytes_in(alloc, text)?;
    match String::from_utf8(bytes) {
        Ok(said) => Ok(said),
        Err(_) => Err(CommandFault::NotACommand),
    }
}

// Their bytes.
fn bytes_in(alloc: Global, text: &[u8]) -> Result<Vec<u8>, AllocError>
    ensures { IfOk result (λ bytes. bytes.items ≡ spaced (line_words text.now)) }
{
    let mut bytes = Vec::new(alloc);
    let Some((word, mut rest)) = first_word(text) else {
        return Ok(bytes);
    };
    bytes.extend_from_slice(word)?;
    while let Some((word, behind)) = first_word(rest) {
        bytes.push(b' ')?;
        bytes.extend_from_slice(word)?;
        rest = behind;
    }
    Ok(bytes)
}
