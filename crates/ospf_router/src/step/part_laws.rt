//! Laws: what the contracts of the calls below say of the outputs so far and of those
//! after, is a part appended to them.

ghost use Rattle.std.specs.Prelude.{◌≡◌, ◌++◌, ◌∷◌, [], Bool, false, List, Some, map, suc, ℕ};
ghost use Rattle.ospf_area.specs.Updates.Acks.{delayed_out_on};
ghost use Rattle.ospf_base.specs.declared.ids.LsaKey.{LsaKey};
ghost use Rattle.ospf_lsa.specs.declared.header.LsaHeader.{LsaHeader};
ghost use Rattle.ospf_lsdb.specs.Database.{Entry, IsDatabase};
ghost use Rattle.ospf_area.specs.Outputs.{AreReadAsSent, OutputsValue, no_outputs};
ghost use Rattle.ospf_area.specs.Sending.{and_sends, context_of};
ghost use Rattle.ospf_area.specs.State.{AreaValue, database_entry};
ghost use Rattle.ospf_area.specs.declared.flooding.PacketSource.{PacketSource};
ghost use Rattle.ospf_area.specs.Updates.Aging.{Flushes, TickAges, turn_out, turned_area};
ghost use Rattle.ospf_area.specs.Acting.{InTurn, OnEachLink};
ghost use Rattle.ospf_area.specs.Updates.Removal.{RemovesOne, leaving};
ghost use Rattle.ospf_area.specs.Updates.Updates.{TakesUpdate};
ghost use Rattle.ospf_router.specs.AreaStep.Neighbours.{Quiet};
ghost use Rattle.ospf_router.specs.AreaStep.Parts.{ExpiryPart, RemovalPart};
ghost use Rattle.ospf_router.specs.AreaStep.Puts.{PutsOut, headers_met};
ghost use Rattle.ospf_router.specs.AreaStep.Step.{AndRequests, Chain, Event, IsPart, OwnStep, Part, StepLaws, Times, first_parts, last_parts, lsa_parts};

/// No part, and a part before others.
pub fn chains_put_out()
    ensures none { (s t : AreaValue) (out out' : OutputsValue) → t ≡ s → out' ≡ out →
        PutsOut (λ o. Chain [] s o t) out out' }
    ensures more { (part : Part) (parts : List Part) (s t u : AreaValue)
        (out mid_out out' : OutputsValue) →
        PutsOut (λ o. IsPart part s o t) out mid_out →
        PutsOut (λ o. Chain parts t o u) mid_out out' →
        PutsOut (λ o. Chain (part ∷ parts) s o u) out out' }
{}

/// A chain of an event's parts, that began with no outputs, is a step.
pub fn steps_are_chains()
    ensures { (is_dropped : Event → AreaValue → Bool) (event : Event) (before : AreaValue)
        (out : OutputsValue) (after : AreaValue) →
        is_dropped event before ≡ false → AreReadAsSent out.sent →
        PutsOut (λ o. Chain (first_parts event ++ last_parts) before o after) no_outputs out →
        StepLaws is_dropped event before out after }
{}

/// What is done with an Update, and then what follows, is the chain of its parts.
pub fn updates_are_chains()
    ensures { (f : PacketSource) (slices : List (List ℕ)) (rest : List Part) (s t u : AreaValue)
        (out mid_out out' : OutputsValue) →
        AreReadAsSent out'.sent → TakesUpdate f slices s out mid_out t →
        PutsOut (λ o. Chain rest t o u) mid_out out' →
        PutsOut (λ o. Chain ((lsa_parts f slices ++ Part.DirectAcknowledgements f ∷ [])
        ++ rest) s o u) out out' }
{}

/// What is done with the headers of an Acknowledgment, and then what
/// follows, is the chain of its parts.
pub fn headers_are_chains()
    ensures { (f : PacketSource) (hs : List LsaHeader) (rest : List Part) (s t u : AreaValue)
        (out out' : OutputsValue) →
        t ≡ headers_met f hs s → PutsOut (λ o. Chain rest t o u) out out' →
        PutsOut (λ o. Chain (map (λ h. Part.HeaderComes f h) hs ++ rest) s o u) out out' }
{}

/// What is done at a tick with ages is a part.
pub fn ages_put_out()
    ensures { (s t : AreaValue) (out out' : OutputsValue) →
        IsDatabase t.database → AreReadAsSent out'.sent → TickAges s out out' t →
        PutsOut (λ o. IsPart Part.Ages s o t) out out' }
{}

/// LoadingDone and the next Requests are a part.
pub fn next_requests_put_out()
    ensures { (s t : AreaValue) (out out' : OutputsValue) →
        t ≡ turned_area s → out' ≡ and_sends out (turn_out s) → AreReadAsSent out'.sent →
        PutsOut (λ o. Quiet s o t) out out' }
{}

/// The delayed acknowledgements of a tick are a part.
pub fn acknowledgements_put_out()
    ensures { (s t : AreaValue) (out out' : OutputsValue) →
        AreReadAsSent out'.sent →
        OnEachLink (λ link. record link { delayed = [] }) (delayed_out_on (context_of s)) s out
        out' t →
        PutsOut (λ o. Quiet s o t) out out' }
{}

/// A flush is a part, with the Requests that follow from it.
pub fn flushes_put_out()
    ensures { (key : LsaKey) (copy : Entry) (s t : AreaValue) (out out' : OutputsValue) →
        IsDatabase s.database → database_entry s key ≡ Some copy → AreReadAsSent out'.sent →
        Flushes key s out out' t →
        PutsOut (λ o. AndRequests (ExpiryPart key copy) s o t) out out' }
{}

/// Own LSAs that are issued or flushed, one after the other, are a part once what
/// had to be answered is forgotten.
pub fn own_steps_put_out()
    ensures none { (s : AreaValue) (out : OutputsValue) →
        PutsOut (λ o. Times 0 OwnStep s o s) out out }
    ensures more { (n : ℕ) (s t u : AreaValue) (out mid_out out' : OutputsValue) →
        PutsOut (λ o. OwnStep s o t) out mid_out →
        PutsOut (λ o. Times n OwnStep t o u) mid_out out' →
        PutsOut (λ o. Times (suc n) OwnStep s o u) out out' }
    ensures end { (n : ℕ) (s t u : AreaValue) (out out' : OutputsValue) →
        PutsOut (λ o. Times n OwnStep s o t) out out' → u ≡ record t { heard = [] } →
        PutsOut (λ o. IsPart Part.OwnLsas s o u) out out' }
{}

/// The removals that end a step are a part.
pub fn removals_put_out()
    ensures { (s t : AreaValue) (out out' : OutputsValue) →
        IsDatabase s.database → InTurn RemovesOne (leaving s) s out out' t →
        PutsOut (λ o. RemovalPart s o t) out out' }
{}
