//! Laws of a step of a router, for readers for whom the exact rules are too much: nine sentences,
//! each with its section of RFC 2328 (`specs/Laws`), over a dozen words (`specs/Stepped`).
//!
//! Each holds of every step by the exact rules (`steps`), and of every list of steps that follow on
//! one another (`lists`), from a router that has started (`specs/Chains`). The calls that run
//! routers promise all nine (`KeepsLaws`): those of a `World` for each step of a network, and
//! `drive` for each step of the router that it drives.

ghost use Rattle.ospf_router.specs.Chains.{OfEachList, OfEachStep, StartedAreKept};
ghost use Rattle.ospf_router.specs.Laws.{AcknowledgementLaw, AdjacencyLaw, AdmissionLaw, DropLaw};
ghost use Rattle.ospf_router.specs.Laws.{IssueLaw, KeepsLaws, ListingLaw, ProvenanceLaw};
ghost use Rattle.ospf_router.specs.Laws.{RetransmissionLaw, TableLaw};

use crate::step::{steps_are_lawful, steps_stay_kept};
use ospf_originate::starts_sound;

/// What a router holds, and sends in an Update, it held before, heard in an Update or issues. It
/// names only what it could name, takes or issues, and requests only what a neighbor described.
pub fn provenance_law()
    ensures steps { OfEachStep ProvenanceLaw }
    ensures lists { OfEachList ProvenanceLaw }
{
    steps_are_lawful();
    steps_stay_kept();
}

/// A step that drops nothing issues exactly the LSAs of the router's own that are due (RFC 2328,
/// section 12.4).
pub fn issue_law()
    ensures steps { OfEachStep IssueLaw }
    ensures lists { OfEachList IssueLaw }
{
    steps_are_lawful();
    steps_stay_kept();
}

/// A step takes exactly the LSAs of an Update that, each in its turn, are newer than the copy and
/// are installed, or are at MaxAge and are not stored (RFC 2328, section 13).
pub fn admission_law()
    ensures steps { OfEachStep AdmissionLaw }
    ensures lists { OfEachList AdmissionLaw }
{
    steps_are_lawful();
    steps_stay_kept();
}

/// An LSA stays in the LSDB unless another of its key is taken or issued, or it leaves at MaxAge.
/// One that may leave does (RFC 2328, section 14).
pub fn listing_law()
    ensures steps { OfEachStep ListingLaw }
    ensures lists { OfEachList ListingLaw }
{
    steps_are_lawful();
    steps_stay_kept();
}

/// An instance leaves a retransmission list only for one of three causes. What is taken or issued
/// goes on each list on which it is due (RFC 2328, sections 13.3 and 13.6).
pub fn retransmission_law()
    ensures steps { OfEachStep RetransmissionLaw }
    ensures lists { OfEachList RetransmissionLaw }
{
    steps_are_lawful();
    steps_stay_kept();
}

/// An acknowledgement that waits is of an LSA that came in an Update. At a tick all that waited go
/// out (RFC 2328, section 13.5).
pub fn acknowledgement_law()
    ensures steps { OfEachStep AcknowledgementLaw }
    ensures lists { OfEachList AcknowledgementLaw }
{
    steps_are_lawful();
    steps_stay_kept();
}

/// After each step the routing table is that of what the router lists (RFC 2328, section 16.1).
pub fn table_law()
    ensures steps { OfEachStep TableLaw }
    ensures lists { OfEachList TableLaw }
{
    steps_are_lawful();
    steps_stay_kept();
}

/// An event is dropped exactly for the first cause that applies. Then nothing changes, and nothing
/// goes out (RFC 2328, section 8.2).
pub fn drop_law()
    ensures steps { OfEachStep DropLaw }
    ensures lists { OfEachList DropLaw }
{
    steps_are_lawful();
    steps_stay_kept();
}

/// A neighbor comes to Exchange only by a Database Description of its own. The bytes that a router
/// sends are read as the packet that was meant (RFC 2328, sections 10.3 and 10.6).
pub fn adjacency_law()
    ensures steps { OfEachStep AdjacencyLaw }
    ensures lists { OfEachList AdjacencyLaw }
{
    steps_are_lawful();
    steps_stay_kept();
}

/// All nine laws at once, as the calls that run routers promise them.
pub fn steps_keep_laws()
    ensures steps { OfEachStep KeepsLaws }
    ensures lists { OfEachList KeepsLaws }
{
    steps_are_lawful();
    steps_stay_kept();
}

/// A router that has just started, by whatever configuration, is one of whose steps the laws hold:
/// so they hold of all lists of steps from its start on.
pub fn started_routers_are_kept()
    ensures { StartedAreKept }
{
    starts_sound();
}
