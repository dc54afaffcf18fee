//! Laws: each holds of all drawings.

ghost use Rattle.ospf_inspect.specs.AreaDrawing.GraphLaws.{NamesTellApart, PrefixesAreDrawn};

/// The text of the addresses under a mask without a hole is the text of their prefix.
pub fn prefixes_are_drawn()
    ensures { PrefixesAreDrawn }
{}

/// Routers and transit networks that are different have different names, so no two share a box.
pub fn names_tell_apart()
    ensures { NamesTellApart }
{}
