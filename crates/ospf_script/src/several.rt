//! Words that spell a value each.

ghost use Rattle.std.specs.Prelude.{◌≡◌, ◌↔◌, IfOk, IfErr, IsTrue};
ghost use Rattle.std.specs.List.{AllZip};
ghost use Rattle.ospf_script.specs.Values.{AreManySpelled, AreSomeSpelled};
ghost use Rattle.ospf_script.specs.Words.{line_words};

use crate::fault::CommandFault;
use crate::spelled::Spelled;
use crate::words::first_word;
use std::alloc::Global;

// The values that the words of a text spell. `Memory` is returned only if each word spells
// one.
pub(crate) fn values_in<V: Spelled>(alloc: Global, text: &[u8]) -> Result<Vec<V>, CommandFault>
    ensures ok { IfOk result (λ values. AllZip V.is_spelled (line_words text.now)
        values.items) }
    ensures not_values { IfErr result (λ e. e ≡ CommandFault.NotACommand →
        AreSomeSpelled V.is_spelled (line_words text.now) → ⊥) }
    ensures memory { IfErr result (λ e. e ≡ CommandFault.Memory →
        AreManySpelled V.is_spelled (line_words text.now)) }
{
    let mut values = Vec::new(alloc);
    let mut rest = text;
    while let Some((word, behind)) = first_word(rest) {
        let value = V::of_word(word).ok_or(CommandFault::NotACommand)?;
        if values.push(value).is_err() {
            if are_spelled::<V>(behind) {
                return Err(CommandFault::Memory);
            }
            return Err(CommandFault::NotACommand);
        }
        rest = behind;
    }
    Ok(values)
}

// Whether each word of a text spells a value.
fn are_spelled<V: Spelled>(text: &[u8]) -> bool
    ensures { IsTrue result ↔ AreSomeSpelled V.is_spelled (line_words text.now) }
{
    let mut rest = text;
    while let Some((word, behind)) = first_word(rest) {
        match V::of_word(word) {
            Some(_) => rest = behind,
            None => return false,
        }
    }
    true
}
