//! Laws: each holds of all routers and their interfaces.

ghost use Rattle.ospf_change.specs.Edit.ReadBack.{ListingsAreReadAgain};
ghost use Rattle.ospf_change.specs.Edit.Wanted.{CostsAreWanted, DrainsAreWanted};

/// Where a router becomes a stub router (RFC 6987), it wants exactly the links that `Change::Drain`
/// makes of those that it wanted before.
pub fn drains_are_wanted()
    ensures { DrainsAreWanted }
{}

/// Where the cost of one of its interfaces changes, a router wants exactly the links that
/// `Change::Cost` makes of those that it wanted before (RFC 2328, section 12.4.1).
pub fn costs_are_wanted()
    ensures { CostsAreWanted }
{}

/// What is printed of a listing is read again as this listing, and as no other: every command that
/// reads it answers for exactly these LSAs.
pub fn listings_are_read_again()
    ensures { ListingsAreReadAgain }
{}
