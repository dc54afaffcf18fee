//! Laws: what ends a step is the chain of its last parts, appended to the outputs so far.

ghost use Rattle.std.specs.Prelude.{length};
ghost use Rattle.ospf_lsdb.specs.Database.{IsDatabase};
ghost use Rattle.ospf_area.specs.Outputs.{AreReadAsSent, OutputsValue};
ghost use Rattle.ospf_area.specs.State.{AreaValue};
ghost use Rattle.ospf_area.specs.Acting.{InTurn};
ghost use Rattle.ospf_area.specs.Updates.Removal.{RemovesOne, leaving};
ghost use Rattle.ospf_adjacency.specs.LinkSteps.Elections.{ElectsFrom};
ghost use Rattle.ospf_originate.specs.Steps.{OwnLsas};
ghost use Rattle.ospf_router.specs.AreaStep.Puts.{PutsOut};
ghost use Rattle.ospf_router.specs.AreaStep.Step.{Chain, IsPart, Part, last_parts};

/// The elections, one after the other.
pub fn elections_put_out()
    ensures { (s t : AreaValue) (out out' : OutputsValue) →
        AreReadAsSent out'.sent → ElectsFrom (length s.links) s out out' t →
        PutsOut (λ o. IsPart Part.Elections s o t) out out' }
{}

/// The own LSAs that are due.
pub fn own_lsas_put_out()
    ensures { (s t : AreaValue) (out out' : OutputsValue) →
        IsDatabase s.database → AreReadAsSent out'.sent → OwnLsas s out out' t →
        PutsOut (λ o. IsPart Part.OwnLsas s o t) out out' }
{}

/// The elections, then own LSAs, then removals. Elections leave the database unchanged.
pub fn ends_are_chains()
    ensures { (s elected owned t : AreaValue) (out elected_out owned_out out' : OutputsValue) →
        IsDatabase s.database → IsDatabase owned.database → AreReadAsSent out'.sent →
        ElectsFrom (length s.links) s out elected_out elected →
        OwnLsas elected elected_out owned_out owned →
        InTurn RemovesOne (leaving owned) owned owned_out out' t →
        PutsOut (λ o. Chain last_parts s o t) out out' }
{}
