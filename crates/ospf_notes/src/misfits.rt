//! Packets that a router drops because of how their sender, or the router itself, is configured.

ghost use Rattle.std.specs.Fmt.{WritesOnOk};
ghost use Rattle.std.specs.Prelude.{◌≡◌, option_map};
ghost use Rattle.ospf_notes.specs.Misfits.{IsMisfit, area_kind_words, area_words, au_type, field_words, flaw_of, flaw_words, is_alike, is_lasting, misfit_of, topic_of, typed_flaw};
ghost use Rattle.ospf_views.specs.Drops.{detail_words};

use ospf_base::{Addr, PACKET_HEADER, u16_at};
use ospf_journal::DroppedAt;
use ospf_packet::{Packet, PacketFault};
use ospf_router::step::Dropped;
use ospf_run::Router;
use ospf_views::{Detail, dropped_detail};
use std::alloc::Global;
use std::fmt::{self, Display, Formatter, Write};
use std::marker::Model;

// A misfit is reported once in this many ticks, and then again if it lasts.
const PERIOD: u64 = 600;
// At most this many are reported in a period for one cause on one link, whatever arrives.
const MOST_ALIKE: usize = 8;

// Where the AuType begins (RFC 2328, appendix A.3.1), and the values of its appendix D and of RFC
// 7474.
const AU_TYPE_AT: usize = 14;

const SIMPLE_PASSWORD: u16 = 1;

const CRYPTOGRAPHIC: u16 = 2;

const EXTENDED_CRYPTOGRAPHIC: u16 = 3;

// The N bit of the Options: with it and without the E bit the sender's area is an NSSA (RFC 3101).
const N_BIT: u8 = 8;

/// Why the router does not accept bytes as a packet.
#[derive(Clone, Copy, Debug, PartialEq, Eq)]
pub enum Flaw {
    /// The sender authenticates with a password, and the router does not.
    Password,
    /// The sender authenticates with a cryptographic digest, and the router does not.
    Digest,
    /// Another fault.
    Fault(PacketFault),
}

/// As `cryptographic authentication there, none here`, or `P2 Version`.
impl Display for Flaw {
    ghost use Rattle.std.specs.Prelude.{Some};
    ghost use Rattle.ospf_notes.specs.Misfits.{flaw_text};

    ghost output = { λ flaw. Some (flaw_text flaw) };

    fn fmt<W: Write>(&self, f: &mut Formatter<W>) -> fmt::Result {
        match *self {
            Flaw::Password => f.write_str("simple password authentication there, none here"),
            Flaw::Digest => f.write_str("cryptographic authentication there, none here"),
            Flaw::Fault(fault) => write!(f, "{fault}"),
        }
    }
}

/// A packet that was dropped for a cause that lasts as long as the configuration of its sender and
/// the router does not change (RFC 2328, sections 8.2, 10.5 and 10.6).
#[derive(Clone, Copy, Debug, PartialEq, Eq)]
pub struct Misfit {
    pub link: usize,
    pub source: Addr,
    pub cause: Dropped,
    /// Why the router does not accept it as a packet, if it does not.
    pub flaw: Option<Flaw>,
    /// The field that does not agree, if one explains the cause.
    pub detail: Option<Detail>,
}

/// The link and the cause of a misfit: few misfits with the same topic are reported.
#[derive(Clone, Copy, Debug, PartialEq, Eq)]
pub struct Topic {
    pub link: usize,
    pub cause: Dropped,
    pub flaw: Option<Flaw>,
}

/// A misfit, with the name of the router's file.
#[derive(Clone, Copy)]
pub struct MisfitShown<'a> {
    pub file: &'a str,
    pub misfit: Misfit,
}

/// As `r1.toml: link 0: what 10.0.0.2 sends is dropped: R6 HelloMismatch: HelloInterval 5 there,
/// 10 here`.
impl Display for MisfitShown<'_> {
    ghost use Rattle.std.specs.Prelude.{Some};
    ghost use Rattle.ospf_notes.specs.Misfits.{misfit_text};

    ghost output = { λ shown. Some (misfit_text shown.file.now shown.misfit) };

    fn fmt<W: Write>(&self, f: &mut Formatter<W>) -> fmt::Result {
        let MisfitShown { file, misfit } = *self;
        write!(f, "{file}: link {}: what ", misfit.link)?;
        write!(f, "{} sends is dropped: ", misfit.source)?;
        write!(f, "{}", misfit.cause)?;
        write_flaw(f, misfit.flaw)?;
        write_field(f, misfit.detail)
    }
}

/// The misfits of one router: in a period each is reported once, and few with one cause on one
/// link.
#[derive(Drop)]
pub struct Misfits {
    // The packet that arrived last, if there was room for it.
    packet: Vec<u8>,
    is_kept: bool,
    // The period of the misfits that are stored here as reported.
    period: u64,
    told: Vec<Misfit>,
}

impl Model for Misfits {
    ghost use Rattle.std.specs.Prelude.{None, Some, if◌then◌else◌};
    ghost use Rattle.ospf_notes.specs.Misfits.{MisfitsValue};

    ghost Value = { MisfitsValue };

    ghost view = { λ m. record {
      packet = if m.is_kept then Some m.packet.items else None;
      period = m.period;
      told = m.told.items;
    } };
}

impl Misfits {
    ghost use Rattle.std.specs.Prelude.{◌≡◌, ◌⊎◌, ◌/◌, ◌∷◌, ◌++◌, [], None, Some, count_by, option_map};
    ghost use Rattle.ospf_notes.specs.Misfits.{TellsMisfit, is_alike, is_new_misfit, period_ticks, told_at};

    /// None yet.
    pub fn new(alloc: Global) -> Misfits
        ensures { result ≡ record { packet = None; period = 0; told = [] } }
    {
        Misfits {
            packet: Vec::new(alloc),
            is_kept: false,
            period: 0,
            told: Vec::new(alloc),
        }
    }

    /// A packet has arrived.
    pub fn hears(&mut self, packet: &[u8])
        ensures packet { (self.new.packet ≡ Some packet.now) ⊎ (self.new.packet ≡ None) }
        ensures period { self.new.period ≡ self.old.period }
        ensures told { self.new.told ≡ self.old.told }
    {
        self.packet.clear();
        self.is_kept = self.packet.extend_from_slice(packet).is_ok();
    }

    /// Returns what to report after a step of a router that has taken this many ticks, if the step
    /// dropped the packet that arrived last.
    pub fn due(&mut self, router: &Router, tick: u64, dropped: Option<DroppedAt>) -> Option<Misfit>
        ensures { TellsMisfit router.now.area tick self.old dropped self.new result }
    {
        let Some(at) = dropped else {
            return None;
        };
        let Some(packet) = self.kept() else {
            return None;
        };
        let Some(misfit) = misfit_in(router, at, packet) else {
            return None;
        };
        self.forget(tick);
        if !self.is_new(&misfit) {
            return None;
        }
        self.add(misfit);
        Some(misfit)
    }

    // Forgets what was reported when a new period begins.
    fn forget(&mut self, tick: u64)
        ensures packet { self.new.packet ≡ self.old.packet }
        ensures period { self.new.period ≡ tick / period_ticks }
        ensures told { self.new.told ≡ told_at tick self.old }
    {
        let period = tick / PERIOD;
        if self.period != period {
            self.period = period;
            self.told.clear();
        }
    }

    // Whether a misfit is reported: once, and few that are alike.
    fn is_new(&self, misfit: &Misfit) -> bool
        ensures { result ≡ is_new_misfit self.now.told misfit.now }
    {
        !self.told.contains(misfit) && self.alike(misfit) < MOST_ALIKE
    }

    // How many that are alike were reported.
    fn alike(&self, misfit: &Misfit) -> usize
        ensures { result ≡ count_by (λ t. is_alike t misfit.now) self.now.told }
    {
        self.told.iter().filter(|it| is_alike(it, misfit)).count()
    }

    // It is reported now. If memory runs out it is reported again.
    fn add(&mut self, misfit: Misfit)
        ensures packet { self.new.packet ≡ self.old.packet }
        ensures period { self.new.period ≡ self.old.period }
        ensures told { (self.new.told ≡ self.old.told ++ misfit ∷ [])
            ⊎ (self.new.told ≡ self.old.told) }
    {
        let _ = self.told.push(misfit);
    }

    // The packet that arrived last, if it is stored.
    fn kept(&self) -> Option<&[u8]>
        ensures { option_map (λ packet. packet.now) result ≡ self.now.packet }
    {
        if self.is_kept {
            Some(&self.packet)
        } else {
            None
        }
    }
}

fn is_alike(one: &Misfit, other: &Misfit) -> bool
    ensures { result ≡ is_alike one.now other.now }
{
    topic_of(one) == topic_of(other)
}

fn topic_of(misfit: &Misfit) -> Topic
    ensures { result ≡ topic_of misfit.now }
{
    Topic {
        link: misfit.link,
        cause: misfit.cause,
        flaw: misfit.flaw,
    }
}

// The misfit of a packet that a router dropped, if its cause lasts.
fn misfit_in(router: &Router, at: DroppedAt, packet: &[u8]) -> Option<Misfit>
    ensures { IsMisfit router.now.area at packet.now result }
{
    let fault = Packet::read(packet).err();
    let flaw = flaw_in(packet, fault);
    let detail = dropped_detail(router, at.link, at.cause, packet);
    misfit_of(at, flaw, detail)
}

fn misfit_of(at: DroppedAt, flaw: Option<Flaw>, detail: Option<Detail>) -> Option<Misfit>
    ensures { result ≡ misfit_of at flaw detail }
{
    let DroppedAt {
        link,
        source,
        cause,
    } = at;
    is_lasting(cause, flaw, detail).then_some(Misfit {
        link,
        source,
        cause,
        flaw,
        detail,
    })
}

// Whether a cause lasts as long as the configuration of both routers does not change. Not so for a
// packet for other routers, nor for one from a sender that is not a neighbour yet or that has
// started again.
fn is_lasting(cause: Dropped, flaw: Option<Flaw>, detail: Option<Detail>) -> bool
    ensures { result ≡ is_lasting cause flaw detail }
{
    match cause {
        Dropped::Packet => flaw.is_some(),
        Dropped::State => detail.is_some(),
        Dropped::Area | Dropped::OwnPacket | Dropped::Subnet | Dropped::HelloMismatch => true,
        Dropped::Destination | Dropped::NoNeighbour | Dropped::WrongRouter => false,
    }
}

// The flaw of bytes with this fault, if they have one.
fn flaw_in(packet: &[u8], fault: Option<PacketFault>) -> Option<Flaw>
    ensures { result ≡ option_map (flaw_of (au_type packet.now)) fault }
{
    match fault {
        Some(fault) => Some(flaw_of(au_type(packet), fault)),
        None => None,
    }
}

// A digest makes the packet longer than its length field says and leaves its checksum 0, so these
// faults are found before the AuType is checked (RFC 2328, appendix D.4.3).
fn flaw_of(au_type: u16, fault: PacketFault) -> Flaw
    ensures { result ≡ flaw_of au_type fault }
{
    match fault {
        PacketFault::Length | PacketFault::Sum | PacketFault::Auth => typed_flaw(au_type, fault),
        PacketFault::Short
        | PacketFault::Version
        | PacketFault::Kind
        | PacketFault::Body
        | PacketFault::TooLong => Flaw::Fault(fault),
    }
}

fn typed_flaw(au_type: u16, fault: PacketFault) -> Flaw
    ensures { result ≡ typed_flaw au_type fault }
{
    if au_type == SIMPLE_PASSWORD {
        Flaw::Password
    } else if au_type == CRYPTOGRAPHIC || au_type == EXTENDED_CRYPTOGRAPHIC {
        Flaw::Digest
    } else {
        Flaw::Fault(fault)
    }
}

// The AuType in the header; 0 if the bytes are too few to have one.
fn au_type(packet: &[u8]) -> u16
    ensures { result ≡ au_type packet.now }
{
    if packet.len() < PACKET_HEADER {
        0
    } else {
        u16_at(packet, AU_TYPE_AT)
    }
}

// Writes why it is not a packet, if it is not.
fn write_flaw<W: Write>(f: &mut Formatter<W>, flaw: Option<Flaw>) -> fmt::Result
    ensures { WritesOnOk W.Write.write_str_gives f.old result (flaw_words flaw) f.new }
{
    match flaw {
        Some(flaw) => write!(f, ": {flaw}"),
        None => Ok(()),
    }
}

// Writes the kind of the sender's area and the field that does not agree, if there is one.
fn write_field<W: Write>(f: &mut Formatter<W>, detail: Option<Detail>) -> fmt::Result
    ensures { WritesOnOk W.Write.write_str_gives f.old result (field_words detail) f.new }
{
    write_area(f, detail)?;
    write_detail(f, detail)
}

// Writes the kind of the sender's area, if it differs from the router's.
fn write_area<W: Write>(f: &mut Formatter<W>, detail: Option<Detail>) -> fmt::Result
    ensures { WritesOnOk W.Write.write_str_gives f.old result (area_words detail) f.new }
{
    match detail {
        Some(detail) => write_kind(f, detail),
        None => Ok(()),
    }
}

fn write_kind<W: Write>(f: &mut Formatter<W>, detail: Detail) -> fmt::Result
    ensures { WritesOnOk W.Write.write_str_gives f.old result (area_kind_words detail) f.new }
{
    match detail {
        Detail::Options(there) => {
            if there & N_BIT == N_BIT {
                f.write_str(": NSSA there, normal area here")
            } else {
                f.write_str(": stub area there, normal area here")
            }
        }
        Detail::Area(..)
        | Detail::HelloInterval(..)
        | Detail::DeadInterval(..)
        | Detail::Mask(..)
        | Detail::Mtu(..) => Ok(()),
    }
}

// Writes the field, if there is one.
fn write_detail<W: Write>(f: &mut Formatter<W>, detail: Option<Detail>) -> fmt::Result
    ensures { WritesOnOk W.Write.write_str_gives f.old result (detail_words detail) f.new }
{
    match detail {
        Some(detail) => write!(f, ": {detail}"),
        None => Ok(()),
    }
}
