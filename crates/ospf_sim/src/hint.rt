//! The hint after a line that spells no command.

ghost use Rattle.std.specs.Prelude.{◌≡◌, None};
ghost use Rattle.std.specs.Fmt.{WritesOnOk};
ghost use Rattle.ospf_sim.specs.Hints.{byte_text, form_text, hint_of, hint_text, word_text};
ghost use Rattle.ospf_script.specs.Words.{line_words};

use ospf_script::{Name, View, first_word};
use std::fmt::{self, Display, Formatter, Write};

/// A hint for a line that spells no command, by its text: the list of commands if its first word
/// begins none, else the form of the command that it begins.
#[derive(Clone, Copy, Debug, PartialEq, Eq)]
pub struct Hint<'a>(pub &'a [u8]);

/// As `tick R`.
impl Display for Hint<'_> {
    ghost use Rattle.std.specs.Prelude.{Some};
    ghost use Rattle.ospf_sim.specs.Hints.{hint_text};
    ghost use Rattle.ospf_script.specs.Words.{line_words};

    ghost output = { λ hint. Some (hint_text (line_words hint.0.now)) };

    fn fmt<W: Write>(&self, f: &mut Formatter<W>) -> fmt::Result {
        write_hint(f, self.0)
    }
}

// Writes the hint of a line.
fn write_hint<W: Write>(f: &mut Formatter<W>, line: &[u8]) -> fmt::Result
    ensures { WritesOnOk W.Write.write_str_gives f.old result (hint_text (line_words line.now))
        f.new }
{
    let Some((word, _)) = first_word(line) else {
        return Ok(());
    };
    match Name::read(word) {
        Some(name) => f.write_str(form_of(name)),
        None => write_names(f, word),
    }
}

// Writes that a word begins no command, and which words do.
fn write_names<W: Write>(f: &mut Formatter<W>, word: &[u8]) -> fmt::Result
    ensures { WritesOnOk W.Write.write_str_gives f.old result (hint_of word.now None) f.new }
{
    write_word(f, word)?;
    f.write_str(
        ": no such command; the commands are start, stop, tick, up, down, deliver, cut, mend, round, batch, random, settle, neighbours, listing, table, walk, floor, say, why, datagrams, drops, lsas, loss, expect, label; each one alone, except say, shows its form",
    )
}

// Writes a word so that it can be read whatever its bytes are.
fn write_word<W: Write>(f: &mut Formatter<W>, word: &[u8]) -> fmt::Result
    ensures { WritesOnOk W.Write.write_str_gives f.old result (word_text word.now) f.new }
{
    for byte in word {
        write_byte(f, *byte)?;
    }
    Ok(())
}

// Writes a byte of a word.
fn write_byte<W: Write>(f: &mut Formatter<W>, byte: u8) -> fmt::Result
    ensures { WritesOnOk W.Write.write_str_gives f.old result (byte_text byte) f.new }
{
    if byte < b'!' || byte > b'~' {
        write!(f, "\\x{byte:02x}")
    } else {
        f.write_char(char::from(byte))
    }
}

// The form of a command.
fn form_of(name: Name) -> &'static str
    ensures { result.now ≡ form_text name }
{
    match name {
        Name::Start => "start R DD [FLOOR], or start all",
        Name::Stop => "stop R",
        Name::Tick => "tick R",
        Name::Up => "up R LINK, or up all",
        Name::Down => "down R LINK, or down all",
        Name::Deliver => "deliver N R LINK",
        Name::Cut => "cut ADDRESS",
        Name::Mend => "mend ADDRESS",
        Name::Round => "round COUNT [MOST]",
        Name::Batch => "batch COUNT",
        Name::Random => "random NUMBER COUNT",
        Name::Settle => "settle MAX",
        Name::Show(View::Neighbours) => "neighbours R",
        Name::Show(View::Listing) => "listing R",
        Name::Show(View::Table) => "table R",
        Name::Show(View::Floor) => "floor R",
        Name::Walk => "walk R ADDRESS [CHOICE..]",
        Name::Say => "say WORD..",
        Name::Why => "why R LINK [NEIGHBOUR], or why headline R",
        Name::Datagrams => "datagrams R [MOST]",
        Name::Drops => "drops R",
        Name::Lsas => "lsas R",
        Name::Loss => "loss PERCENT NUMBER [ADDRESS]",
        Name::Expect =>
            "expect full R S, expect neighbour R S STATE, expect no neighbour R LINK, expect dr R LINK ADDRESS [BACKUP], expect route R PREFIX COST [HOP..], expect no route R PREFIX, expect walk R ADDRESS arrived [COST], expect agree, expect headline [R], or expect settled",
        Name::Label => "label on, or label off",
    }
}
