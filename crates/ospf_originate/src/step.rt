//! Own LSAs as they are issued.

ghost use Rattle.std.specs.Prelude.{◌≡◌, ◌∷◌, ◌++◌, [], IfOk, OnOk};
ghost use Rattle.ospf_lsa.specs.Lsa.{IsLsa};
ghost use Rattle.ospf_lsa.specs.Value.{HasAll, IsMade};
ghost use Rattle.ospf_originate.specs.Wants.Made.{Needs, lsa_value};
ghost use Rattle.ospf_originate.specs.Numbers.{issued};
ghost use Rattle.ospf_originate.specs.Wants.Own.{wanted_value};
ghost use Rattle.ospf_originate.specs.Steps.{Issues};

use crate::contents::OwnLsa;
use crate::numbers::note_issue;
use ospf_area::update::store;
use ospf_area::{Area, Outputs};
use ospf_base::LsaKey;
use ospf_lsa::{Lsa, LsaFault, LsaView};
use std::alloc::{AllocError, Global};

/// Issues a wanted LSA with a number (RFC 2328, section 12.4): it is stored as a neighbour's LSA
/// would be, at age 0, and flooded to all.
///
/// `AllocError` when memory runs out; then the router must be stopped.
pub fn issue(
    area: &mut Area,
    wanted: &OwnLsa,
    number: i32,
    out: &mut Outputs,
    alloc: Global,
) -> Result<(), AllocError>
    requires { HasAll (Needs number (wanted_value wanted.now)) }
    ensures { OnOk result (Issues (wanted_value wanted.now) number area.old out.old out.new
        area.new) }
{
    let key = wanted.key();
    let lsa = made(wanted, number, alloc)?;
    tell_issued(out, &lsa.view(), alloc)?;
    let _ = store(area, lsa, None, out, alloc)?;
    note_tick(area, &key);
    Ok(())
}

// The fault of an LSA that lacks nothing but memory.
pub(crate) fn want_of_memory(fault: LsaFault) -> AllocError
    requires { fault ≡ LsaFault.Memory }
{
    prove!(matches!(&fault, LsaFault::Memory));
    AllocError
}

// The LSA of a wanted one, with a number.
fn made(wanted: &OwnLsa, number: i32, alloc: Global) -> Result<Lsa, AllocError>
    requires { HasAll (Needs number (wanted_value wanted.now)) }
    ensures { IfOk result (λ lsa. IsMade (lsa_value number (wanted_value wanted.now)) lsa) }
{
    match wanted.make(number, alloc) {
        Ok(lsa) => Ok(lsa),
        Err(fault) => Err(want_of_memory(fault)),
    }
}

// Reports an LSA that is issued.
fn tell_issued(out: &mut Outputs, lsa: &LsaView<'_>, alloc: Global) -> Result<(), AllocError>
    ensures told { OnOk result (out.new ≡ record out.old
        { issued = out.old.issued ++ lsa.now ∷ [] }) }
    ensures valid { OnOk result (IsLsa lsa.now) }
{
    // The bytes of the view show that it is of an LSA.
    let _bytes = lsa.as_bytes();
    match Lsa::copy(alloc, lsa) {
        Ok(copy) => {
            out.issued.push(copy)?;
            Ok(())
        }
        Err(_) => Err(AllocError),
    }
}

// The tick of an issue is recorded.
fn note_tick(area: &mut Area, key: &LsaKey)
    ensures { area.new ≡ record area.old
        { numbering = issued key.now area.old.tick area.old.numbering } }
{
    let tick = area.tick;
    note_issue(&mut area.numbering, key, tick);
}
