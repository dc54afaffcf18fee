//! Laws of what is wanted: each holds of all links and routers.

ghost use Rattle.ospf_originate.specs.Wants.Laws.{WantedAreOfTheirKeys, WantedAreOwn, WantedCanBeMade};

/// No two wanted LSAs are of one key.
pub fn wanted_are_of_their_keys()
    ensures { WantedAreOfTheirKeys }
{}

/// All wanted LSAs are the router's own.
pub fn wanted_are_own()
    ensures { WantedAreOwn }
{}

/// What is wanted can be made, with any number that is used.
pub fn wanted_can_be_made()
    ensures { WantedCanBeMade }
{}
