//! Laws: each holds after all lists of events of all worlds.

ghost use Rattle.std.specs.Prelude.{◌≡◌, Bool, List, Result, ℕ, Some, false};
ghost use Rattle.ospf_base.specs.Sums.{contents};
ghost use Rattle.ospf_base.specs.declared.ids.RouterId.{RouterId};
ghost use Rattle.ospf_graph.specs.Routes.{IsTable};
ghost use Rattle.ospf_area.specs.State.{AreaValue};
ghost use Rattle.ospf_router.specs.AreaStep.Step.{Event};
ghost use Rattle.ospf_world.specs.Headline.{Headline, IsReached};
ghost use Rattle.ospf_world.specs.Runs.{IsRun};
ghost use Rattle.ospf_world.specs.Sound.{HeldAnywhere, WasIssued, AgreeUnlessIssuedAgain, BasesAreHigh, NoCollision, NoneLargest, BasesAreFloors, IsSoundAcknowledgement};
ghost use Rattle.ospf_world.specs.Walks.{adverts, AllListedAgree, AllReachedAgree, RunningWalksArrive, ChosenWalksArrive};
ghost use Rattle.ospf_world.specs.World.{World, WorldEvent, WorldFault, Running, router_at, IsNewWorld, RunsEvents, Happens, Comes};

use ospf_spf::walk_law;

/// What is held anywhere was issued, at whatever age.
pub fn held_lsas_were_issued()
    ensures { (is_dropped : Event → AreaValue → Bool) (events : List WorldEvent) (start end : World)
        (lsa : List ℕ) →
        IsNewWorld start → RunsEvents is_dropped events start end → HeldAnywhere end lsa →
        WasIssued end.issued (contents lsa) }
{}

/// LSAs of one instance held anywhere, at one moment or at two, have equal contents unless their
/// originator issued both, the second in a low run.
pub fn held_lsas_agree()
    ensures { (is_dropped : Event → AreaValue → Bool) (events later : List WorldEvent)
        (start mid end : World) (a b : List ℕ) →
        IsNewWorld start → RunsEvents is_dropped events start mid →
        RunsEvents is_dropped later mid end →
        HeldAnywhere mid a → HeldAnywhere end b → AgreeUnlessIssuedAgain end.issued a b }
{}

/// Each running router has the table of its own listing.
pub fn tables_are_exact()
    ensures { (is_dropped : Event → AreaValue → Bool) (events : List WorldEvent) (start end : World)
        (r : RouterId) (x : Running) →
        IsNewWorld start → RunsEvents is_dropped events start end → router_at end r ≡ Some x →
        IsTable (adverts x) r x.table }
{}

/// Where nothing issued collides, and all listed routers run and list the same
/// instances, every walk along next hops ends on the prefix of its first route at that
/// route's cost, and meets no router twice. It is enough if the routers that the first router
/// reaches in its listing run and list the same instances.
pub fn walks_arrive()
    ensures listed { (is_dropped : Event → AreaValue → Bool) (events : List WorldEvent)
        (start end : World) (a : RouterId) (x : Running) →
        IsNewWorld start → RunsEvents is_dropped events start end → NoCollision end.issued →
        router_at end a ≡ Some x → AllListedAgree end x → RunningWalksArrive end a x }
    ensures reached { (is_dropped : Event → AreaValue → Bool) (events : List WorldEvent)
        (start end : World) (a : RouterId) (x : Running) →
        IsNewWorld start → RunsEvents is_dropped events start end → NoCollision end.issued →
        router_at end a ≡ Some x → AllReachedAgree end a x → RunningWalksArrive end a x }
{
    walk_law()
}

/// There each walk by choices arrives, and none runs out of hops.
pub fn chosen_walks_arrive()
    ensures listed { (is_dropped : Event → AreaValue → Bool) (events : List WorldEvent)
        (start end : World) (a : RouterId) (x : Running) →
        IsNewWorld start → RunsEvents is_dropped events start end → NoCollision end.issued →
        router_at end a ≡ Some x → AllListedAgree end x → ChosenWalksArrive end a x }
    ensures reached { (is_dropped : Event → AreaValue → Bool) (events : List WorldEvent)
        (start end : World) (a : RouterId) (x : Running) →
        IsNewWorld start → RunsEvents is_dropped events start end → NoCollision end.issued →
        router_at end a ≡ Some x → AllReachedAgree end a x → ChosenWalksArrive end a x }
{
    walk_law()
}

/// With floors that are high enough, no two LSAs of one instance are ever
/// issued with different contents.
pub fn high_floors_exclude_collisions()
    ensures { (is_dropped : Event → AreaValue → Bool) (events : List WorldEvent)
        (start end : World) →
        IsNewWorld start → RunsEvents is_dropped events start end → BasesAreHigh end.issued →
        NoCollision end.issued }
{}

/// Where MaxSequenceNumber was never issued, the base of each run is the floor
/// of the start at which it began.
pub fn bases_are_floors()
    ensures { (is_dropped : Event → AreaValue → Bool) (events : List WorldEvent)
        (start end : World) →
        IsNewWorld start → RunsEvents is_dropped events start end → NoneLargest end.issued →
        BasesAreFloors is_dropped start events end }
{}

/// If a router no longer waits for a neighbour's acknowledgement, that neighbour has installed,
/// issued or acknowledged the instance, or a later one, unless a newer LSA replaced the instance
/// or the neighbour is below Exchange.
pub fn acknowledgement_is_sound()
    ensures { (is_dropped : Event → AreaValue → Bool) (events : List WorldEvent)
        (event : WorldEvent) (start before after : World) →
        IsNewWorld start → RunsEvents is_dropped events start before →
        Happens is_dropped event before after → IsSoundAcknowledgement event before after }
{}

/// The headline holds for every world that was reached, and for every one that follows from it.
pub fn headline()
    ensures { (is_dropped : Event → AreaValue → Bool) (later : List WorldEvent)
        (before after : World) →
        IsReached is_dropped before → RunsEvents is_dropped later before after →
        Headline before after }
{
    // For the proof.
    held_lsas_were_issued();
    held_lsas_agree();
    tables_are_exact();
    walks_arrive();
    chosen_walks_arrive();
    high_floors_exclude_collisions()
}

/// Acknowledgement is sound at each event of a world that was reached.
pub fn soundness()
    ensures { (is_dropped : Event → AreaValue → Bool) (event : WorldEvent) (before after : World) →
        IsReached is_dropped before → Happens is_dropped event before after →
        IsSoundAcknowledgement event before after }
{
    acknowledgement_is_sound()
}

/// A run over a list of events leads where some list of events leads.
pub fn runs_lead_on()
    ensures { (is_dropped : Event → AreaValue → Bool) (events : List WorldEvent)
        (before after : World) (result : Result ℕ WorldFault) →
        IsRun (Comes is_dropped) events before result after → (later : List WorldEvent)
        × RunsEvents is_dropped later before after }
{}

/// There are worlds to which this applies: in one a router has started, and a second has passed.
pub fn some_world_ticks()
    ensures { (start after : World) × (events : List WorldEvent) × (r : RouterId) × (x : Running)
        × IsNewWorld start ×
        RunsEvents (λ event s. false) events start after × (router_at after r ≡ Some x)
        × (x.state.tick ≡ 1) }
{}
