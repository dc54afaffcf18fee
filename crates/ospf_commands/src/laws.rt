//! Laws: what follows if routers are expected to agree, or the headline is expected to apply.

ghost use Rattle.ospf_commands.specs.Headlines.{HeadlineOfAll, HeadlineOfOne};
ghost use Rattle.ospf_commands.specs.Agreement.{AgreedListOneThing, AgreedListTheSame, AgreedRun, AgreedWalksMayArrive};

/// If `expect agree` is met, some router runs, and any two running routers list the same LSAs
/// except for their age, and so the same instances; if all routers that one of them lists run, that
/// is what the headline asks of a network in which each walk arrives (`AllListedAgree`).
pub fn agreement_law()
    ensures some_run { AgreedRun }
    ensures one_thing { AgreedListOneThing }
    ensures the_same { AgreedListTheSame }
    ensures arrive { AgreedWalksMayArrive }
{}

/// `expect headline R` is met exactly if the premise of the headline holds for R: every router that
/// R reaches runs, and lists the same instances (`AllReachedAgree`). `expect headline` is met
/// exactly if this is so for every router that runs.
pub fn headline_law()
    ensures of_one { HeadlineOfOne }
    ensures of_all { HeadlineOfAll }
{}
