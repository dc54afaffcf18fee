//! The laws of a step, of each world.

ghost use Rattle.ospf_router.specs.Laws.{KeepsLaws};
ghost use Rattle.ospf_world.specs.OnTheWay.{OfEachWorld};

/// Each step that a router took on the way to a world keeps all nine laws. That a `World` was
/// reached so is what `World::reached_exactly` says.
pub fn worlds_keep_laws()
    ensures { OfEachWorld KeepsLaws }
{}
