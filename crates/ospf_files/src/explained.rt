//! What to do about a text that is refused.

ghost use Rattle.std.specs.Prelude.{◌≡◌, ◌==◌, ◌+◌, ◌≤◌, length, take, count_by, IfOk, []};
ghost use Rattle.std.specs.Fmt.{WritesOnOk};
ghost use Rattle.ospf_config.specs.Configs.{TextHasFault};
ghost use Rattle.ospf_files.specs.Explained.{IsExplained, IsLinePlace, found_here_text, section_text};
ghost use Rattle.ospf_config.specs.Fault.{IsLeastFault};
ghost use Rattle.ospf_config.specs.declared.fault.ConfigFault.{ConfigFault};

use crate::places::table_explained;
use ospf_config::{Config, ConfigFault};
use std::alloc::{AllocError, Global};
use std::fmt::{self, Display, Formatter, Write};

/// A place of a text that is refused, and what to do about it.
#[derive(Debug, Drop)]
pub enum Explained {
    /// The line, from 1, where the text is no TOML.
    Line(usize),
    /// A key that is not as it has to be.
    Key(KeyExplained),
}

/// As `interface 0: mtu: 576 to 9000 wanted, 100 found`.
impl Display for Explained {
    ghost use Rattle.std.specs.Prelude.{Some};
    ghost use Rattle.ospf_files.specs.Explained.{explained_text};

    ghost output = { λ place. Some (explained_text place) };

    fn fmt<W: Write>(&self, f: &mut Formatter<W>) -> fmt::Result {
        match self {
            Explained::Line(line) => write!(f, "line {line}: not valid TOML"),
            Explained::Key(place) => write!(f, "{place}"),
        }
    }
}

/// The table that a key stands in: the number of an interface or of a host is from 0.
#[derive(Clone, Copy, Debug)]
pub enum Section {
    Top,
    Interface(usize),
    Host(usize),
}

/// A key that is not as it has to be.
#[derive(Debug, Drop)]
pub struct KeyExplained {
    pub section: Section,
    pub key: String,
    /// What belongs there, in words.
    pub wanted: &'static str,
    /// What was found there; `None` if nothing was.
    pub found: Option<String>,
}

/// As `interface 0: mtu: 576 to 9000 wanted, 100 found`.
impl Display for KeyExplained {
    ghost use Rattle.std.specs.Prelude.{Some};
    ghost use Rattle.ospf_files.specs.Explained.{key_explained_text};

    ghost output = { λ place. Some (key_explained_text place) };

    fn fmt<W: Write>(&self, f: &mut Formatter<W>) -> fmt::Result {
        write_section(f, self.section)?;
        write!(f, "{}: {} wanted, ", self.key, self.wanted)?;
        write_found(f, &self.found)
    }
}

/// What to do about a text that `Config::from_text` refuses: each place that has the fault it
/// reports, first those at the top, then those of the interfaces and of the hosts in order. Empty
/// if the text is accepted.
///
/// `AllocError` if memory runs out.
pub fn explain(alloc: Global, text: &str) -> Result<Vec<Explained>, AllocError>
    ensures accepted { ((f : ConfigFault) → TextHasFault text.now f → ⊥) →
        IfOk result (λ places. places.items ≡ []) }
    ensures refused { (f : ConfigFault) → IsLeastFault (TextHasFault text.now) f →
        IfOk result (λ places. IsExplained text.now f places.items) }
{
    match Config::from_text(alloc, text) {
        Ok(_) => Ok(Vec::new(alloc)),
        Err(ConfigFault::Memory) => Err(AllocError),
        Err(fault) => text_explained(alloc, text, fault),
    }
}

// Writes the table that a key stands in, if not at the top.
fn write_section<W: Write>(f: &mut Formatter<W>, section: Section) -> fmt::Result
    ensures { WritesOnOk W.Write.write_str_gives f.old result (section_text section) f.new }
{
    match section {
        Section::Top => Ok(()),
        Section::Interface(number) => write!(f, "interface {number}: "),
        Section::Host(number) => write!(f, "host {number}: "),
    }
}

// Writes what was found at a key.
fn write_found<W: Write>(f: &mut Formatter<W>, found: &Option<String>) -> fmt::Result
    ensures { WritesOnOk W.Write.write_str_gives f.old result (found_here_text found.now) f.new }
{
    match found {
        None => f.write_str("none found"),
        Some(found) => write!(f, "{found} found"),
    }
}

// The places of a text that have its fault.
fn text_explained(
    alloc: Global,
    text: &str,
    fault: ConfigFault,
) -> Result<Vec<Explained>, AllocError>
    ensures { TextHasFault text.now fault →
        IfOk result (λ places. IsExplained text.now fault places.items) }
{
    match toml::table_from_str(alloc, text) {
        Ok(table) => table_explained(alloc, &table, fault),
        Err(error) => match error.span() {
            None => Err(AllocError),
            Some(span) => line_places(alloc, text, span.start),
        },
    }
}

// The places of a text that is no TOML: the line where that is seen.
pub(crate) fn line_places(
    alloc: Global,
    text: &str,
    place: usize,
) -> Result<Vec<Explained>, AllocError>
    requires { place ≤ length text.now }
    ensures { IfOk result (λ places. IsLinePlace text.now places.items) }
{
    let mut out = Vec::new(alloc);
    out.push(Explained::Line(line_of(text.as_bytes(), place)))?;
    Ok(out)
}

// The line, from 1, of a place in a text.
fn line_of(text: &[u8], place: usize) -> usize
    requires { place ≤ length text.now }
    ensures { result ≡ 1 + count_by (λ byte. byte == 10) (take place text.now) }
{
    let before = &text[..place];
    1 + before.iter().filter(|byte| **byte == b'\n').count()
}
