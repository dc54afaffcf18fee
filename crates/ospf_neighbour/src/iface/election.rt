//! The election itself.

ghost use Rattle.std.specs.Prelude.{◌≡◌, ◌<◌, ◌↔◌, IsTrue, IfSome, IfNone, Contains, map};
ghost use Rattle.ospf_neighbour.specs.Interface.Choice.{BestOr, BelongsTo};
ghost use Rattle.ospf_neighbour.specs.Interface.Election.{changes_role, declaring, AreDistinct, HasMe, HasNoneIn, IsBestIn, IsDr, IsBackup, IsElected, IsElectionRound, Outranks};

use crate::iface::candidate::{Candidate, Elected};
use ospf_base::{Addr, RouterId};

/// The elected Designated Router and Backup, as the router `me` finds them (RFC 2328, section 9.4).
///
/// The candidates are the router itself and its neighbours in 2-Way or above. Those of
/// priority 0 are never elected. The router's own entry declares what the interface had before
/// the election. No memory is taken.
pub fn elect(candidates: &[Candidate], me: RouterId) -> Elected
    requires distinct { AreDistinct candidates.now }
    requires me { HasMe candidates.now me }
    ensures { IsElected candidates.now me result }
{
    let own = find_me(candidates, me);
    let first = round(
        candidates,
        me,
        Elected {
            dr: own.dr,
            backup: own.backup,
        },
    );
    if is_new_role(own, first) {
        round(candidates, me, first)
    } else {
        first
    }
}

// What a candidate must be to be chosen.
#[derive(Clone, Copy)]
enum Standing {
    DeclaresDr,
    DeclaresBackup,
    MayBeBackup,
}

// The candidate that is the router itself.
fn find_me(candidates: &[Candidate], me: RouterId) -> Candidate
    requires { HasMe candidates.now me }
    ensures member { Contains candidates.now result }
    ensures me { result.id ≡ me }
{
    for c in candidates {
        if c.id.0 == me.0 {
            return *c;
        }
    }
    unreachable!()
}

// One round, the router itself declaring `own`.
fn round(candidates: &[Candidate], me: RouterId, own: Elected) -> Elected
    ensures { IsElectionRound (map (declaring me own) candidates.now) result }
{
    let backup = backup(candidates, me, own);
    Elected {
        dr: designated(candidates, me, own, backup),
        backup,
    }
}

// The new Backup.
fn backup(candidates: &[Candidate], me: RouterId, own: Elected) -> Addr
    ensures { IsBackup (map (declaring me own) candidates.now) result }
{
    match best(candidates, me, own, Standing::DeclaresBackup) {
        Some(c) => c.address,
        None => match best(candidates, me, own, Standing::MayBeBackup) {
            Some(c) => c.address,
            None => Addr::NOWHERE,
        },
    }
}

// The best candidate of a standing, the router itself declaring `own`.
fn best(
    candidates: &[Candidate],
    me: RouterId,
    own: Elected,
    standing: Standing,
) -> Option<Candidate>
    ensures some { IfSome result (IsBestIn (BelongsTo standing)
        (map (declaring me own) candidates.now)) }
    ensures none { IfNone result (HasNoneIn (BelongsTo standing)
        (map (declaring me own) candidates.now)) }
{
    let mut best = None;
    for c in candidates {
        best = better(best, declare(*c, me, own), standing);
    }
    best
}

// The better of the best so far and the next candidate.
fn better(best: Option<Candidate>, c: Candidate, standing: Standing) -> Option<Candidate>
    ensures { BestOr (BelongsTo standing) best c result }
{
    if !belongs(c, standing) {
        return best;
    }
    match best {
        None => Some(c),
        Some(b) => { if outranks(c, b) { Some(c) } else { Some(b) } }
    }
}

// Whether a candidate is one of these.
fn belongs(c: Candidate, standing: Standing) -> bool
    ensures { IsTrue result ↔ BelongsTo standing c }
{
    let is_dr = c.dr.0 == c.address.0;
    match standing {
        Standing::DeclaresDr => c.priority > 0 && is_dr,
        Standing::MayBeBackup => c.priority > 0 && !is_dr,
        Standing::DeclaresBackup => c.priority > 0 && !is_dr && c.backup.0 == c.address.0,
    }
}

// Whether the first goes before the second.
fn outranks(a: Candidate, b: Candidate) -> bool
    ensures { IsTrue result ↔ Outranks a b }
{
    a.priority > b.priority || (a.priority == b.priority && a.id.0 > b.id.0)
}

// The candidate, where it is the router itself with this as its declaration.
fn declare(c: Candidate, me: RouterId, own: Elected) -> Candidate
    ensures { result ≡ declaring me own c }
{
    if c.id.0 == me.0 {
        Candidate {
            id: c.id,
            address: c.address,
            priority: c.priority,
            dr: own.dr,
            backup: own.backup,
        }
    } else {
        c
    }
}

// The new Designated Router.
fn designated(candidates: &[Candidate], me: RouterId, own: Elected, backup: Addr) -> Addr
    ensures { IsDr (map (declaring me own) candidates.now) backup result }
{
    match best(candidates, me, own, Standing::DeclaresDr) {
        Some(c) => c.address,
        None => backup,
    }
}

// Whether the router is newly, or is no longer, Designated Router or Backup.
fn is_new_role(own: Candidate, e: Elected) -> bool
    ensures { result ≡ changes_role own e }
{
    let was_dr = own.dr.0 == own.address.0;
    let is_dr = e.dr.0 == own.address.0;
    let was_backup = own.backup.0 == own.address.0;
    let is_backup = e.backup.0 == own.address.0;
    was_dr != is_dr || was_backup != is_backup
}
