//! Laws: each holds of all routers and their interfaces.

ghost use Rattle.ospf_whatif.specs.Wanted.{DesignatedRoutersChange, EndsGoDown, FailuresComeTogether, FarEndsStayUp, InterfacesGoDown, LinksGoDown, RoutersStop};

/// Where the interface of a point-to-point link goes down, the router wants exactly the links that
/// `AreaFailure::Link` leaves (RFC 2328, section 12.4.1).
pub fn links_go_down()
    ensures { LinksGoDown }
{}

/// If the interface at one end of a link through a switch goes down, the router wants exactly the
/// links that `AreaFailure::End` leaves.
pub fn ends_go_down()
    ensures { EndsGoDown }
{}

/// The router at the other end, whose interface stays up, wants exactly those too.
pub fn far_ends_stay_up()
    ensures { FarEndsStayUp }
{}

/// Where failures come together, as on direct cables those of the links of a router without power,
/// and one of them changes an interface of another router while the others take nothing of it, that
/// router wants exactly the links that all of them leave.
pub fn failures_come_together()
    ensures { FailuresComeTogether }
{}

/// Where the interface to a transit network goes down, the router wants exactly the links that
/// `AreaFailure::Attachment` leaves, and `AreaFailure::Network` too.
pub fn interfaces_go_down()
    ensures { InterfacesGoDown }
{}

/// Where a router on a point-to-point link is heard no more, its neighbour wants exactly the links
/// that `AreaFailure::Router` leaves.
pub fn routers_stop()
    ensures { RoutersStop }
{}

/// Where another router becomes the Designated Router of a transit network, a router that stays on
/// it wants exactly the links of before, under the new name of the network.
pub fn designated_routers_change()
    ensures { DesignatedRoutersChange }
{}
