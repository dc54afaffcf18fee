//! How every step ends.

ghost use Rattle.std.specs.Prelude.{OnOk, length};
ghost use Rattle.ospf_adjacency.specs.LinkSteps.Elections.{ElectsFrom};
ghost use Rattle.ospf_lsdb.specs.Database.{IsDatabase};
ghost use Rattle.ospf_originate.specs.Steps.{OwnLsas};
ghost use Rattle.ospf_router.specs.AreaStep.Ends.{EndsStep};
ghost use Rattle.ospf_router.specs.AreaStep.Fit.{IsFitRouter};
ghost use Rattle.ospf_area.specs.Acting.{InTurn};
ghost use Rattle.ospf_area.specs.Updates.Removal.{RemovesOne, leaving};

use crate::step::outputs_laws::database_is_one;
use ospf_adjacency::neighbours_stay_of_link;
use ospf_area::{Area, Outputs};
use ospf_originate::{area_stays_sound, own_stay_sound};
use std::alloc::{AllocError, Global};

/// The elections that are due, the router's own LSAs, and the LSAs that leave the database.
pub(crate) fn end(area: &mut Area, out: &mut Outputs, alloc: Global) -> Result<(), AllocError>
    requires { IsFitRouter area.old }
    ensures ends { OnOk result (EndsStep area.old out.old out.new area.new) }
    ensures fit { OnOk result (IsFitRouter area.new) }
{
    // For the proof.
    database_is_one(area);
    // (9.4)
    elect(area, out, alloc)?;
    // (12.4)
    own_lsas(area, out, alloc)?;
    // (14)
    remove(area, out, alloc)?;
    // For the proof.
    let _sent = out.sent();
    Ok(())
}

// As `ospf_adjacency::link_steps::elect`, and the router stays fit.
fn elect(area: &mut Area, out: &mut Outputs, alloc: Global) -> Result<(), AllocError>
    requires { IsFitRouter area.old }
    ensures elects { OnOk result (ElectsFrom (length area.old.links) area.old
        out.old out.new area.new) }
    ensures fit { OnOk result (IsFitRouter area.new) }
{
    // For the proof.
    neighbours_stay_of_link();
    ospf_adjacency::link_steps::elect(area, out, alloc)
}

// As `ospf_originate::own_lsas`, and the router stays fit.
fn own_lsas(area: &mut Area, out: &mut Outputs, alloc: Global) -> Result<(), AllocError>
    requires { IsFitRouter area.old }
    ensures own { OnOk result (OwnLsas area.old out.old out.new area.new) }
    ensures fit { OnOk result (IsFitRouter area.new) }
{
    // For the proof.
    own_stay_sound();
    ospf_originate::own_lsas(area, out, alloc)
}

// As `ospf_area::update::remove`, and the router stays fit.
fn remove(area: &mut Area, out: &mut Outputs, alloc: Global) -> Result<(), AllocError>
    requires { IsFitRouter area.old }
    ensures database { IsDatabase area.old.database }
    ensures removes { OnOk result (InTurn RemovesOne (leaving area.old) area.old out.old
        out.new area.new) }
    ensures fit { OnOk result (IsFitRouter area.new) }
{
    // For the proof.
    database_is_one(area);
    area_stays_sound();
    ospf_area::update::remove(area, out, alloc)
}
