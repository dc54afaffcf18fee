//! Laws: each holds of all changes.

ghost use Rattle.ospf_journal.specs.Laws.{ObjectsAreJson};

/// An object is JSON (RFC 8259): the text that `serde_json` defines of an object with these
/// members in this order, the tick first, then the router, and then what changed.
pub fn objects_are_json()
    ensures { ObjectsAreJson }
{}
