//! Laws: what an event does, before what follows, is the chain of its parts. What is in the outputs
//! in the end is read, and so what was in them before.

ghost use Rattle.std.specs.Prelude.{◌≡◌, ◌++◌, Bool, List, slice_get, ℕ};
ghost use Rattle.ospf_base.specs.declared.ids.Addr.{Addr};
ghost use Rattle.ospf_base.specs.declared.ids.LsaKey.{LsaKey};
ghost use Rattle.ospf_base.specs.declared.ids.RouterId.{RouterId};
ghost use Rattle.ospf_lsa.specs.declared.header.LsaHeader.{LsaHeader};
ghost use Rattle.ospf_lsdb.specs.Database.{IsDatabase};
ghost use Rattle.ospf_packet.specs.Meaning.{Meaning, acknowledgment, description, hello, request, update};
ghost use Rattle.ospf_packet.specs.declared.body.Description.{Description};
ghost use Rattle.ospf_packet.specs.declared.body.Hello.{Hello};
ghost use Rattle.ospf_packet.specs.declared.entry.RequestEntry.{RequestEntry};
ghost use Rattle.ospf_area.specs.Outputs.{OutputsValue};
ghost use Rattle.ospf_area.specs.Sending.{and_sends, context_of};
ghost use Rattle.ospf_area.specs.State.{AreaValue};
ghost use Rattle.ospf_area.specs.Updates.Updates.{TakesUpdate};
ghost use Rattle.ospf_adjacency.specs.LinkSteps.Parts.{description_part, hello_part, link_down, link_up, request_part};
ghost use Rattle.ospf_adjacency.specs.LinkSteps.Works.{WorksOn, link_changed, up_out_on};
ghost use Rattle.ospf_router.specs.AreaStep.Begins.{BeginsChain, BeginsWork, IsArrival};
ghost use Rattle.ospf_router.specs.AreaStep.Puts.{PutsOut, headers_met};
ghost use Rattle.ospf_router.specs.AreaStep.Step.{Chain, Event, Part, first_parts};
ghost use Rattle.ospf_router.specs.AreaStep.Takes.{source_of};
ghost use Rattle.ospf_router.specs.AreaStep.Invariants.{NoneWaitsBelow};

/// A datagram that is a packet, by what it says; a Database Description where nothing waits for the
/// acknowledgement of its router while that is below Exchange (RFC 2328, section 10.1).
pub fn datagrams_are_chains()
    // A Hello (10.5).
    ensures hello { (e : Event) (link : ℕ) (source : Addr) (p : Meaning) →
        IsArrival e link source p →
        (h : Hello) (heard : List RouterId) (named : Bool) → p.body ≡ hello h heard →
        (s : AreaValue) (out : OutputsValue) → BeginsWork e
        (hello_part (context_of s) (source_of link source p) h named s.next_dd) link s out }
    // A Database Description (10.6).
    ensures description { (e : Event) (link : ℕ) (source : Addr) (p : Meaning) →
        IsArrival e link source p →
        (d : Description) (headers : List LsaHeader) → p.body ≡ description d headers →
        (s : AreaValue) (out : OutputsValue) → IsDatabase s.database →
        NoneWaitsBelow s link p.router → BeginsWork e
        (description_part (context_of s) (source_of link source p) d headers s.database s.next_dd)
        link s out }
    // A Request (10.7). The keys whose copies go out are marked.
    ensures request { (e : Event) (link : ℕ) (source : Addr) (p : Meaning) →
        IsArrival e link source p →
        (entries : List RequestEntry) (marks : List LsaKey) → p.body ≡ request entries →
        (s : AreaValue) (out : OutputsValue) → IsDatabase s.database →
        let part =
        request_part (context_of s) (source_of link source p) s.database entries s.next_dd in
        (t : AreaValue) (mid_out : OutputsValue) →
        WorksOn part link (record s { sent = marks }) out mid_out t →
        BeginsChain e s out t mid_out }
    // An Update (13).
    ensures update { (e : Event) (link : ℕ) (source : Addr) (p : Meaning) →
        IsArrival e link source p →
        (lsas : List (List ℕ)) → p.body ≡ update lsas →
        (s t : AreaValue) (out mid_out : OutputsValue) →
        TakesUpdate (source_of link source p) lsas s out mid_out t → BeginsChain e s out t mid_out }
    // An Acknowledgment (13.7).
    ensures acknowledgment { (e : Event) (link : ℕ) (source : Addr) (p : Meaning) →
        IsArrival e link source p →
        (headers : List LsaHeader) → p.body ≡ acknowledgment headers →
        (s : AreaValue) (out : OutputsValue) →
        BeginsChain e s out (headers_met (source_of link source p) headers s) out }
{}

/// A link that goes up or down.
pub fn link_changes_are_chains()
    ensures up { (l : ℕ) (s : AreaValue) (out : OutputsValue) → BeginsChain (Event.LinkUp l) s out
        (link_changed link_up l s)
        (and_sends out (up_out_on (slice_get s.links l) (context_of s) l)) }
    ensures down { (l : ℕ) (rest : List Part) (s t u : AreaValue)
        (out mid_out out' : OutputsValue) → PutsOut (λ o. Chain rest t o u) mid_out out' →
        t ≡ link_changed link_down l s → mid_out ≡ out →
        PutsOut (λ o. Chain (first_parts (Event.LinkDown l) ++ rest) s o u) out out' }
{}
