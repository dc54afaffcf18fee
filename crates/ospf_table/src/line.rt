//! LSAs as lines of text.

ghost use Rattle.std.specs.Prelude.{◌≡◌, ◌⊎◌, ◌↔◌, Ok, IsErr, IfOk, IfErr, IsTrue};
ghost use Rattle.hex.specs.Hex.{decode_of};
ghost use Rattle.ospf_base.specs.Text.{IsBlank};
ghost use Rattle.ospf_lsa.specs.Lsa.{IsLsa};
ghost use Rattle.ospf_lsa.specs.declared.fault.LsaFault.{LsaFault};
ghost use Rattle.ospf_lsa.specs.declared.fault.LsaFault.TheVariants as fault;
ghost use Rattle.ospf_table.specs.Line.{HasFirstFault, text_of, with_plain_age};

use hex::FromHexError;
use ospf_base::{Age, u16_at};
use ospf_lsa::{Lsa, LsaFault, LsaView};
use std::alloc::Global;
use std::fmt::{self, Display, Formatter, Write};
use thiserror::Error;

// The bit of an age field that keeps an LSA from growing older in databases (RFC 1793, section
// 2.2). Demand circuits and flood reduction set it.
const DO_NOT_AGE: u16 = 0x8000;

/// Why a line is no LSA.
#[derive(Clone, Copy, Debug, PartialEq, Eq, Error)]
pub enum LineFault {
    /// The text is not hexadecimal digits, two by two.
    NotHex,
    /// The bytes are no LSA, or memory ran out.
    Lsa(LsaFault),
}

impl LineFault {
    ghost use Rattle.std.specs.Prelude.{◌≡◌};
    ghost use Rattle.ospf_table.specs.Refusal.{line_fault_text};

    /// The fault as it is printed.
    pub fn text(self) -> &'static str
        ensures { result.now ≡ line_fault_text self }
    {
        match self {
            LineFault::NotHex => "not hex",
            LineFault::Lsa(fault) => fault.text(),
        }
    }
}

/// `not hex`, or what is printed of the LSA's fault.
impl Display for LineFault {
    ghost use Rattle.std.specs.Prelude.{Some};
    ghost use Rattle.ospf_table.specs.Refusal.{line_fault_text};

    ghost output = { λ fault. Some (line_fault_text fault) };

    fn fmt<W: Write>(&self, f: &mut Formatter<W>) -> fmt::Result {
        f.write_str(self.text())
    }
}

/// The LSA whose bytes the text spells in hexadecimal digits of either case.
///
/// The error is `NotHex` where the text spells no bytes, `Lsa` with the first fault of bytes that
/// are no LSA, and `LsaFault::Memory` where memory ran out.
pub fn lsa_line(alloc: Global, text: &str) -> Result<Lsa, LineFault>
    ensures lsa { IfOk result (λ lsa. (decode_of text.now ≡ Ok lsa) × IsLsa lsa) }
    ensures not_hex { IfErr result (λ e. e ≡ LineFault.NotHex → IsErr (decode_of text.now)) }
    ensures fault { IfErr result (λ e. (f : LsaFault) → e ≡ LineFault.Lsa f →
        (f ≡ fault.Memory) ⊎ HasFirstFault (decode_of text.now) f) }
{
    let bytes = match hex::decode(alloc, text) {
        Ok(bytes) => bytes,
        Err(FromHexError::OutOfMemory) => return Err(LineFault::Lsa(LsaFault::Memory)),
        Err(_) => return Err(LineFault::NotHex),
    };
    let view = LsaView::read(&bytes).map_err(LineFault::Lsa)?;
    Lsa::copy(alloc, &view).map_err(LineFault::Lsa)
}

// The LSA that a line's text spells. Bytes that are no text spell none.
pub(crate) fn lsa_of_line(alloc: Global, text: &[u8]) -> Result<Lsa, LineFault>
    ensures lsa { IfOk result (λ lsa. (decode_of text.now ≡ Ok lsa) × IsLsa lsa) }
    ensures not_hex { IfErr result (λ e. e ≡ LineFault.NotHex → IsErr (decode_of text.now)) }
    ensures fault { IfErr result (λ e. (f : LsaFault) → e ≡ LineFault.Lsa f →
        (f ≡ fault.Memory) ⊎ HasFirstFault (decode_of text.now) f) }
{
    match str::from_utf8(text) {
        Ok(text) => lsa_line(alloc, text),
        Err(_) => Err(LineFault::NotHex),
    }
}

// The LSA at the age that counts, which is that without the bit DoNotAge.
#[tactic(auto, unfolding(crate::specs::Line::with_plain_age))]
pub(crate) fn with_plain_age(lsa: Lsa) -> Lsa
    ensures { result ≡ with_plain_age lsa }
{
    let mut lsa = lsa;
    let age = u16_at(lsa.view().as_bytes(), 0);
    if age >= DO_NOT_AGE {
        lsa.set_age(Age::new(age - DO_NOT_AGE));
    }
    lsa
}

// A line without its end: a line feed, or a carriage return and a line feed.
pub(crate) fn without_end(line: &[u8]) -> &[u8]
    ensures { result.now ≡ text_of line.now }
{
    match line {
        [text @ .., b'\r', b'\n'] => text,
        [text @ .., b'\n'] => text,
        _ => line,
    }
}

// Whether a text has no character but spaces.
pub(crate) fn is_blank(text: &[u8]) -> bool
    ensures { IsTrue result ↔ IsBlank text.now }
{
    text.iter().all(|byte| *byte == b' ')
}
