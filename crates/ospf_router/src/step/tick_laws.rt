//! Laws: what a tick does on all links is a part appended to the outputs so far, and the whole
//! tick is the chain of its parts.

ghost use Rattle.std.specs.Prelude.{◌≡◌, List, map};
ghost use Rattle.ospf_adjacency.specs.LinkSteps.Repeats.{link_repeats_out, link_repeated};
ghost use Rattle.ospf_base.specs.declared.ids.LsaKey.{LsaKey};
ghost use Rattle.ospf_lsdb.specs.Database.{IsDatabase};
ghost use Rattle.ospf_area.specs.Outputs.{AreReadAsSent, OutputsValue};
ghost use Rattle.ospf_area.specs.Acting.{OnEachLink};
ghost use Rattle.ospf_area.specs.Sending.{context_of};
ghost use Rattle.ospf_area.specs.State.{AreaValue};
ghost use Rattle.ospf_adjacency.specs.Links.{hello_ticked};
ghost use Rattle.ospf_adjacency.specs.LinkSteps.Parts.{hello_out, link_timed};
ghost use Rattle.ospf_router.specs.AreaStep.Begins.{BeginsChain};
ghost use Rattle.ospf_router.specs.AreaStep.Puts.{PutsOut};
ghost use Rattle.ospf_router.specs.AreaStep.Step.{Chain, Event, IsPart, Part};
ghost use Rattle.ospf_router.specs.AreaStep.Invariants.{AreRising};
ghost use Rattle.ospf_router.specs.AreaStep.Ticks.{TakesTick};

/// The wait timers and the inactivity timers.
pub fn timers_put_out()
    ensures { (s t : AreaValue) (out : OutputsValue) →
        AreRising s.links → t ≡ record s { links = map link_timed s.links } →
        PutsOut (λ o. IsPart Part.Timers s o t) out out }
{}

/// The Hellos that are due.
pub fn due_hellos_put_out()
    ensures { (s t : AreaValue) (out out' : OutputsValue) →
        AreReadAsSent out'.sent →
        OnEachLink (λ link. record link { iface = hello_ticked link.iface })
        (hello_out (context_of s)) s out out' t →
        PutsOut (λ o. IsPart Part.Hellos s o t) out out' }
{}

/// What is sent again. The keys whose copies go out are marked.
pub fn repeats_put_out()
    ensures { (marks : List LsaKey) (s t : AreaValue) (out out' : OutputsValue) →
        IsDatabase s.database → AreRising s.links → AreReadAsSent out'.sent →
        OnEachLink (link_repeated (context_of s) s.database)
        (link_repeats_out (context_of s) s.database) (record s { sent = marks }) out out' t →
        PutsOut (λ o. IsPart Part.Repeats s o t) out out' }
{}

/// All of a tick.
pub fn ticks_are_chains()
    ensures { (s t : AreaValue) (out mid_out : OutputsValue) (is : TakesTick s out mid_out t) →
        IsDatabase is.aged.database → AreRising is.aged.links → AreRising is.acknowledged.links →
        BeginsChain Event.Tick s out t mid_out }
{}

/// What is read once a part is in the outputs, was read before.
pub fn outputs_before_are_read()
    ensures { (rest : List Part) (s t : AreaValue) (out out' : OutputsValue) →
        PutsOut (λ o. Chain rest s o t) out out' → AreReadAsSent out'.sent →
        AreReadAsSent out.sent }
{}
