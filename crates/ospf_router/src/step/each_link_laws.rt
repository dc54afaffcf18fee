//! Laws: what is done on links is a part of a step of the router.

ghost use Rattle.std.specs.Prelude.{◌≡◌, List, Option, ℕ};
ghost use Rattle.ospf_area.specs.Outputs.{AreReadAsSent, OutputsValue, SentValue, sends};
ghost use Rattle.ospf_area.specs.State.{AreaValue, LinkValue};
ghost use Rattle.ospf_router.specs.AreaStep.Packets.{Received};
ghost use Rattle.ospf_router.specs.AreaStep.Links.{AllEach, AllGo, AreKnown, ChangesLinks, LinkGoes, LinkQuiet, OnOneLink};
ghost use Rattle.ospf_router.specs.AreaStep.Neighbours.{NeighboursGo, Quiet, told_by};

/// What each link does by what is known, and what it does by the packet heard.
pub fn links_go()
    ensures quiet { (s after : AreaValue) (out : OutputsValue) (ds : List SentValue) →
        ChangesLinks s after → out ≡ sends ds → AreReadAsSent out.sent →
        AllEach (LinkQuiet s) s.links after.links → AreKnown s ds → Quiet s out after }
    ensures goes { (heard : Option Received) (s after : AreaValue) (out : OutputsValue)
        (ds : List SentValue) → ChangesLinks s after → out ≡ sends ds → AreReadAsSent out.sent →
        AllGo s heard s.links after.links → AreKnown s ds → NeighboursGo heard s out after }
{}

/// Where only one link does something, what it does by what is known, and by the packet heard.
pub fn one_link_goes()
    ensures quiet { (l : ℕ) (link link' : LinkValue) (ds : List SentValue) (s : AreaValue)
        (out : OutputsValue) (after : AreaValue) →
        OnOneLink l link link' ds s out after → LinkQuiet s link link' → AreKnown s ds →
        Quiet s out after }
    ensures goes { (heard : Option Received) (l : ℕ) (link link' : LinkValue) (ds : List SentValue)
        (s : AreaValue) (out : OutputsValue) (after : AreaValue) →
        OnOneLink l link link' ds s out after → LinkGoes s (told_by heard l) link link' →
        AreKnown s ds → NeighboursGo heard s out after }
{}
