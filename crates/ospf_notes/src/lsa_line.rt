//! The lines of a journal of LSAs.

ghost use Rattle.std.specs.Fmt.{WritesOnOk};
ghost use Rattle.std.specs.Prelude.{◌≡◌, IfOk, string_bytes};
ghost use Rattle.ospf_journal.specs.Objects.{moment_members, number_member, own_members};
ghost use Rattle.ospf_notes.specs.LsaLines.{advertising_router_member, lsa_bytes_members, lsa_entry, lsa_event_line, lsa_event_member, lsa_lead_members, lsa_moment, lsa_name_members, lsa_named, lsa_names, lsa_object};

use crate::lsa_changes::{LsaChange, LsaEvent};
use ospf_base::{Kind, LsaKey, RouterId};
use ospf_lsa::Lsa;
use ospf_script::FloorShown;
use ospf_views::ListedShown;
use std::alloc::{AllocError, Global};
use std::fmt::{self, Display, Formatter, Write};

impl LsaEvent {
    ghost use Rattle.std.specs.Prelude.{◌≡◌};
    ghost use Rattle.ospf_notes.specs.LsaLines.{lsa_event_text};

    /// The word for it.
    pub fn text(self) -> &'static str
        ensures { result.now ≡ lsa_event_text self }
    {
        match self {
            LsaEvent::Installed => "installed",
            LsaEvent::Refreshed => "refreshed",
            LsaEvent::AgedOut => "aged-out",
            LsaEvent::Flushed => "flushed",
        }
    }
}

/// A line of a journal of LSAs: the tick, the router, what became of an LSA, and all of it, as it
/// is spelled in hexadecimal digits; as text or as a JSON object.
#[derive(Clone, Copy)]
pub(crate) struct LsaLine<'a> {
    is_json: bool,
    tick: u64,
    router: RouterId,
    change: &'a LsaChange,
    spelled: &'a str,
}

/// As `7 10.0.0.9 installed router 1.1.1.1 1.1.1.1 80000002 e02d 5 00050201..`, or as
/// `{"tick":7,"router":"10.0.0.9","event":"installed","lsa":"router","id":"1.1.1.1",..}`.
impl Display for LsaLine<'_> {
    ghost use Rattle.std.specs.Prelude.{Some};
    ghost use Rattle.ospf_notes.specs.LsaLines.{lsa_line_text};

    ghost output = { λ line. Some (lsa_line_text line) };

    fn fmt<W: Write>(&self, f: &mut Formatter<W>) -> fmt::Result {
        if self.is_json {
            write_object(f, self)
        } else {
            write_text(f, self)
        }
    }
}

/// A change of a router that has taken so many ticks, as a journal has it.
///
/// `AllocError` if memory runs out.
pub(crate) fn entry_text(
    alloc: Global,
    is_json: bool,
    tick: u64,
    router: RouterId,
    change: &LsaChange,
) -> Result<String, AllocError>
    ensures { IfOk result (λ text. string_bytes text ≡ lsa_entry is_json tick router change.now) }
{
    let view = change.lsa.view();
    let spelled = hex::encode(alloc, view.as_bytes())?;
    let line = LsaLine {
        is_json,
        tick,
        router,
        change,
        spelled: &spelled,
    };
    format!(in alloc; "{line}\n")
}

// A line of text.
fn write_text<W: Write>(f: &mut Formatter<W>, line: &LsaLine) -> fmt::Result
    ensures { WritesOnOk W.Write.write_str_gives f.old result
        (lsa_event_line line.now.tick line.now.router line.now.change.now.event
        line.now.change.now.lsa line.now.spelled.now) f.new }
{
    write_moment(f, line.tick, line.router, line.change.event)?;
    write_named(f, &line.change.lsa)?;
    f.write_str(line.spelled)
}

// A JSON object.
fn write_object<W: Write>(f: &mut Formatter<W>, line: &LsaLine) -> fmt::Result
    ensures { WritesOnOk W.Write.write_str_gives f.old result
        (lsa_object line.now.tick line.now.router line.now.change.now.event
        line.now.change.now.lsa line.now.spelled.now) f.new }
{
    write_lead(f, line.tick, line.router, line.change.event)?;
    write_names(f, &line.change.lsa)?;
    write_bytes(f, &line.change.lsa, line.spelled)
}

// The tick, the router, and what becomes of an LSA.
#[tactic(auto, unfolding(crate::specs::LsaLines::lsa_moment))]
fn write_moment<W: Write>(
    f: &mut Formatter<W>,
    tick: u64,
    router: RouterId,
    event: LsaEvent,
) -> fmt::Result
    ensures { WritesOnOk W.Write.write_str_gives f.old result (lsa_moment tick router event) f.new }
{
    let word = event.text();
    write!(f, "{tick} {router} {word} ")
}

// What names the LSA and its instance, and its age.
#[tactic(auto, unfolding(crate::specs::LsaLines::lsa_named))]
fn write_named<W: Write>(f: &mut Formatter<W>, lsa: &Lsa) -> fmt::Result
    ensures { WritesOnOk W.Write.write_str_gives f.old result (lsa_named lsa.now) f.new }
{
    let view = lsa.view();
    let listed = ListedShown(view.instance());
    let age = view.header().age.ticks();
    write!(f, "{listed} {age} ")
}

// The tick, the router, and what becomes of an LSA, as members.
#[tactic(auto, unfolding(crate::specs::LsaLines::lsa_lead_members))]
fn write_lead<W: Write>(
    f: &mut Formatter<W>,
    tick: u64,
    router: RouterId,
    event: LsaEvent,
) -> fmt::Result
    ensures { WritesOnOk W.Write.write_str_gives f.old result
        (lsa_lead_members tick router event) f.new }
{
    write_tick(f, tick, router)?;
    write_event(f, event)
}

// The tick, and the router.
#[tactic(auto, unfolding(ospf_journal::specs::Objects::moment_members))]
fn write_tick<W: Write>(f: &mut Formatter<W>, tick: u64, router: RouterId) -> fmt::Result
    ensures { WritesOnOk W.Write.write_str_gives f.old result (moment_members tick router) f.new }
{
    write!(f, "{{\"tick\":{tick},\"router\":\"{router}\",")
}

// What becomes of an LSA.
#[tactic(auto, unfolding(crate::specs::LsaLines::lsa_event_member))]
fn write_event<W: Write>(f: &mut Formatter<W>, event: LsaEvent) -> fmt::Result
    ensures { WritesOnOk W.Write.write_str_gives f.old result (lsa_event_member event) f.new }
{
    write!(f, "\"event\":\"{}\"", event.text())
}

// What names an LSA, and its sequence number.
fn write_names<W: Write>(f: &mut Formatter<W>, lsa: &Lsa) -> fmt::Result
    ensures { WritesOnOk W.Write.write_str_gives f.old result (lsa_names lsa.now) f.new }
{
    let view = lsa.view();
    let (key, number) = (view.key(), view.header().number);
    write_numbered(f, &key, number)
}

// The name of an LSA, and a sequence number.
#[tactic(auto, unfolding(crate::specs::LsaLines::lsa_name_members))]
fn write_numbered<W: Write>(f: &mut Formatter<W>, key: &LsaKey, number: i32) -> fmt::Result
    ensures { WritesOnOk W.Write.write_str_gives f.old result
        (lsa_name_members key.now number) f.new }
{
    write_name(f, key)?;
    write_advertising_router(f, key.router)?;
    write_number(f, number)
}

// The kind and the Link State ID of an LSA.
#[tactic(auto, unfolding(ospf_journal::specs::Objects::own_members))]
fn write_name<W: Write>(f: &mut Formatter<W>, key: &LsaKey) -> fmt::Result
    ensures { WritesOnOk W.Write.write_str_gives f.old result (own_members key.now) f.new }
{
    let id = RouterId(key.id);
    match key.kind {
        Kind::Router => write!(f, ",\"lsa\":\"router\",\"id\":\"{id}\""),
        Kind::Network => write!(f, ",\"lsa\":\"network\",\"id\":\"{id}\""),
    }
}

// Its Advertising Router.
#[tactic(auto, unfolding(crate::specs::LsaLines::advertising_router_member))]
fn write_advertising_router<W: Write>(f: &mut Formatter<W>, router: RouterId) -> fmt::Result
    ensures { WritesOnOk W.Write.write_str_gives f.old result
        (advertising_router_member router) f.new }
{
    write!(f, ",\"advertising_router\":\"{router}\"")
}

// Its sequence number.
#[tactic(auto, unfolding(ospf_journal::specs::Objects::number_member))]
fn write_number<W: Write>(f: &mut Formatter<W>, number: i32) -> fmt::Result
    ensures { WritesOnOk W.Write.write_str_gives f.old result (number_member number) f.new }
{
    write!(f, ",\"number\":\"{}\"", FloorShown(number))
}

// Its age, and all of it, as it is spelled.
#[tactic(auto, unfolding(crate::specs::LsaLines::lsa_bytes_members))]
fn write_bytes<W: Write>(f: &mut Formatter<W>, lsa: &Lsa, spelled: &str) -> fmt::Result
    ensures { WritesOnOk W.Write.write_str_gives f.old result
        (lsa_bytes_members lsa.now spelled.now) f.new }
{
    let age = lsa.view().header().age.ticks();
    write!(f, ",\"age\":{age},\"bytes\":\"{spelled}\"}}")
}
