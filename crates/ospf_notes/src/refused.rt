//! LSAs that neighbours have and their router refuses: each neighbour is reported once.

ghost use Rattle.std.specs.Fmt.{WritesOnOk};
ghost use Rattle.std.specs.Prelude.{◌≡◌, OnErr, OnOk, false, true};
ghost use Rattle.ospf_notes.specs.Refused.{IsToldOnce, MarksNeighbour, is_neighbour_of, is_of_neighbour, is_told_now, of_type_text, was_told_of};

use ospf_base::RouterId;
use ospf_lsa::LsaFault;
use ospf_neighbour::Neighbour;
use ospf_run::Router;
use std::alloc::AllocError;
use std::collections::BTreeSet;
use std::fmt::{self, Display, Formatter, Write};

/// An LSA in a packet that the router refuses.
#[derive(Clone, Copy)]
pub enum Untaken {
    /// An LSA of this LS type, which a Database Description describes (RFC 2328, section 10.6).
    Described(u8),
    /// An LSA of this LS type, which a Link State Update sends (RFC 2328, section 13).
    Sent(u8),
    /// A router-LSA or network-LSA with this fault, which a Link State Update sends: it is never
    /// acknowledged, and a neighbour from which it was requested stays in Loading (section 10.9).
    Invalid(LsaFault),
}

/// As `sends an LSA of type 5: this area has what this router does not take (other_lsas)`.
impl Display for Untaken {
    ghost use Rattle.std.specs.Prelude.{Some};
    ghost use Rattle.ospf_notes.specs.Refused.{untaken_text};

    ghost output = { λ untaken. Some (untaken_text untaken) };

    fn fmt<W: Write>(&self, f: &mut Formatter<W>) -> fmt::Result {
        match *self {
            Untaken::Described(kind) => {
                f.write_str("describes an LSA of type ")?;
                write_type(f, kind)
            }
            Untaken::Sent(kind) => {
                f.write_str("sends an LSA of type ")?;
                write_type(f, kind)
            }
            Untaken::Invalid(fault) => {
                f.write_str("sends an LSA that is refused: ")?;
                write!(f, "{fault}: it is never acknowledged")
            }
        }
    }
}

// The LS type, and why LSAs of it are refused.
fn write_type<W: Write>(f: &mut Formatter<W>, kind: u8) -> fmt::Result
    ensures { WritesOnOk W.Write.write_str_gives f.old result (of_type_text kind) f.new }
{
    write!(
        f,
        "{kind}: this area has what this router does not take (other_lsas)"
    )
}

/// A neighbour on a link, and its LSA that the router refuses.
#[derive(Clone, Copy)]
pub struct RefusedLsa {
    pub link: usize,
    pub neighbour: RouterId,
    pub untaken: Untaken,
}

/// A refused LSA, with the name of the router's file.
#[derive(Clone, Copy)]
pub struct RefusedShown<'a> {
    pub file: &'a str,
    pub refused: RefusedLsa,
}

/// As `r1.toml: link 0: 2.2.2.2 describes an LSA of type 5: this area has what ..`.
impl Display for RefusedShown<'_> {
    ghost use Rattle.std.specs.Prelude.{Some};
    ghost use Rattle.ospf_notes.specs.Refused.{refused_text};

    ghost output = { λ shown. Some (refused_text shown.file.now shown.refused) };

    fn fmt<W: Write>(&self, f: &mut Formatter<W>) -> fmt::Result {
        let RefusedShown { file, refused } = *self;
        write!(f, "{file}: link {}: ", refused.link)?;
        write!(f, "{} ", refused.neighbour)?;
        write!(f, "{}", refused.untaken)
    }
}

/// The number of a link, and the Router ID of a neighbour there.
pub type ToldKey = (usize, u32);

/// Whether to report it now: if it is from a neighbour of the router, once for each neighbour. If
/// memory runs out it is reported again.
pub fn tell_once(told: &mut BTreeSet<ToldKey>, router: &Router, refused: RefusedLsa) -> bool
    ensures value { result ≡ is_told_now router.now told.old refused }
    ensures told { result ≡ true → IsToldOnce told.old refused told.new }
    ensures kept { result ≡ false → told.new ≡ told.old }
{
    let is_due = is_told_now(router, told, refused);
    if is_due {
        let _ = add(told, refused);
    }
    is_due
}

fn is_told_now(router: &Router, told: &BTreeSet<ToldKey>, refused: RefusedLsa) -> bool
    ensures { result ≡ is_told_now router.now told.now refused }
{
    is_of_neighbour(router, refused) && !was_told_of(told, refused)
}

fn was_told_of(told: &BTreeSet<ToldKey>, refused: RefusedLsa) -> bool
    ensures { result ≡ was_told_of told.now refused }
{
    told.contains(&(refused.link, refused.neighbour.0))
}

// Adds it to the reported ones.
fn add(told: &mut BTreeSet<ToldKey>, refused: RefusedLsa) -> Result<(), AllocError>
    ensures ok { OnOk result (MarksNeighbour told.old refused told.new) }
    ensures err { OnErr result (told.new ≡ told.old) }
{
    match told.insert((refused.link, refused.neighbour.0)) {
        Ok(_) => Ok(()),
        Err(_) => Err(AllocError),
    }
}

// Whether the router that has it is a neighbour on the link.
fn is_of_neighbour(router: &Router, refused: RefusedLsa) -> bool
    ensures { result ≡ is_of_neighbour router.now refused }
{
    let neighbours = router.neighbours(refused.link);
    neighbours
        .iter()
        .any(|it| is_neighbour_of(refused.neighbour, it))
}

fn is_neighbour_of(router: RouterId, neighbour: &Neighbour) -> bool
    ensures { result ≡ is_neighbour_of router neighbour.now }
{
    neighbour.router().0 == router.0
}
