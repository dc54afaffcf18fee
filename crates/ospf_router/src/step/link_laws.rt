//! Laws: what a packet does on a link, or a link that goes up or down, is a part
//! appended to the outputs so far.

ghost use Rattle.std.specs.Prelude.{◌≡◌, Bool, List, false, slice_get, true, ℕ};
ghost use Rattle.ospf_base.specs.declared.ids.LsaKey.{LsaKey};
ghost use Rattle.ospf_lsa.specs.declared.header.LsaHeader.{LsaHeader};
ghost use Rattle.ospf_lsdb.specs.Database.{IsDatabase};
ghost use Rattle.ospf_packet.specs.Meaning.{Meaning};
ghost use Rattle.ospf_packet.specs.declared.body.Description.{Description};
ghost use Rattle.ospf_packet.specs.declared.body.Hello.{Hello};
ghost use Rattle.ospf_packet.specs.declared.entry.RequestEntry.{RequestEntry};
ghost use Rattle.ospf_area.specs.Outputs.{AreReadAsSent, OutputsValue};
ghost use Rattle.ospf_area.specs.Sending.{and_sends, context_of};
ghost use Rattle.ospf_area.specs.State.{AreaValue};
ghost use Rattle.ospf_area.specs.declared.flooding.PacketSource.{PacketSource};
ghost use Rattle.ospf_adjacency.specs.LinkSteps.Parts.{description_part, hello_part, link_down, link_up, request_part};
ghost use Rattle.ospf_adjacency.specs.LinkSteps.Works.{WorksOn, link_changed, up_out_on};
ghost use Rattle.ospf_router.specs.AreaStep.Packets.{dd_headers_of};
ghost use Rattle.ospf_router.specs.AreaStep.Puts.{PutsOut};
ghost use Rattle.ospf_router.specs.AreaStep.Step.{IsPart, Part};
ghost use Rattle.ospf_router.specs.AreaStep.Invariants.{NoneWaitsBelow};

/// A Hello that comes in, on a link that may not exist.
pub fn hellos_put_out()
    ensures { (f : PacketSource) (p : Meaning) (h : Hello) (named : Bool) (s t : AreaValue)
        (out out' : OutputsValue) →
        AreReadAsSent out'.sent →
        WorksOn (hello_part (context_of s) f h named s.next_dd) f.link s out out' t →
        PutsOut (λ o. IsPart (Part.HelloComes f p) s o t) out out' }
{}

/// A Database Description that comes in, of a neighbour that may not exist.
pub fn descriptions_put_out()
    ensures { (f : PacketSource) (p : Meaning) (d : Description) (headers : List LsaHeader)
        (s t : AreaValue) (out out' : OutputsValue) →
        IsDatabase s.database → NoneWaitsBelow s f.link f.router → p.router ≡ f.router → headers
        ≡ dd_headers_of p.body → AreReadAsSent out'.sent →
        WorksOn (description_part (context_of s) f d headers s.database s.next_dd) f.link s out out'
        t →
        PutsOut (λ o. IsPart (Part.DdComes f p) s o t) out out' }
{}

/// A Request that comes in, of a neighbour that may not exist. The keys
/// whose copies go out are marked.
pub fn requests_put_out()
    ensures { (f : PacketSource) (p : Meaning) (entries : List RequestEntry) (marks : List LsaKey)
        (s t : AreaValue) (out out' : OutputsValue) →
        IsDatabase s.database → AreReadAsSent out'.sent →
        WorksOn (request_part (context_of s) f s.database entries s.next_dd) f.link
        (record s { sent = marks }) out out' t →
        PutsOut (λ o. IsPart (Part.RequestComes f p) s o t) out out' }
{}

/// A link that goes up, or does not exist.
pub fn links_up_put_out()
    ensures { (l : ℕ) (s t : AreaValue) (out out' : OutputsValue) →
        AreReadAsSent out'.sent → t ≡ link_changed link_up l s → out'
        ≡ and_sends out (up_out_on (slice_get s.links l) (context_of s) l) →
        PutsOut (λ o. IsPart (Part.LinkChanges l true) s o t) out out' }
{}

/// A link that goes down, or does not exist.
pub fn links_down_put_out()
    ensures { (l : ℕ) (s t : AreaValue) (out : OutputsValue) →
        t ≡ link_changed link_down l s → PutsOut (λ o. IsPart (Part.LinkChanges l false) s o t) out
        out }
{}
