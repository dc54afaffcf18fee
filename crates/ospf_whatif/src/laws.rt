//! Laws: each holds of all areas and failures.

ghost use Rattle.ospf_whatif.specs.Laws.{AllNamesTellApart, FailureNamesTellApart, FailuresMakeNoEdge, FailuresTakeAway, LinksFailApart, NoStubIsForgotten, StubsFailAlone, TreesStay};
ghost use Rattle.ospf_whatif.specs.LinksBack.{OnlyLinksBackCount};
ghost use Rattle.ospf_whatif.specs.Renamed.{NetworksAreButNames};

/// After a failure no prefix is reached that was not reached before, and none at a lower cost.
pub fn failures_take_away()
    ensures { FailuresTakeAway }
{}

/// No edge comes from a failure.
pub fn failures_make_no_edge()
    ensures { FailuresMakeNoEdge }
{}

/// A failure that takes only edges which no least path from a root goes over leaves the root's
/// tree of shortest paths as it is.
pub fn trees_stay()
    ensures { TreesStay }
{}

/// Routing tables depend on the Link State IDs and the Advertising Routers of transit networks in
/// nothing but the order of the networks of one prefix.
pub fn networks_are_but_names()
    ensures { NetworksAreButNames }
{}

/// Of network-LSAs nothing counts for routing tables but the masks, and which attached routers link
/// back (RFC 2328, section 16.1, step 2b).
pub fn only_links_back_count()
    ensures { OnlyLinksBackCount }
{}

/// Different failures of an area have different names.
pub fn failure_names_tell_apart()
    ensures { FailureNamesTellApart }
{}

/// A link fails with one subnet alone, also where the subnets of two links between the same routers
/// lie one in the other.
pub fn links_fail_apart()
    ensures { LinksFailApart }
{}

/// Different failures of an area have different names, those of interfaces to stub networks too.
pub fn all_names_tell_apart()
    ensures { AllNamesTellApart }
{}

/// An interface to a stub network takes its prefix from its router, and nothing else.
pub fn stubs_fail_alone()
    ensures { StubsFailAlone }
{}

/// Each prefix of less than 32 bits that a router advertises as a stub network is that of an
/// interface that may fail, or the subnet of one of the router's links to others.
pub fn no_stub_is_forgotten()
    ensures { NoStubIsForgotten }
{}
