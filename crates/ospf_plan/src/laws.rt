//! Laws: each holds of all interfaces and findings.

ghost use Rattle.ospf_plan.specs.Drops.{FoundAreaDrops, FoundHelloDrops, FoundMtuDrops, FoundRouterDrops, OthersAgree, OthersDiffer, OthersShareArea, OthersShareMtu, OthersShareNetwork};
ghost use Rattle.ospf_plan.specs.Started.{FoundAreaSteps, FoundHelloSteps, FoundMtuSteps, FoundRouterSteps, OtherStepsAgree, OtherStepsDiffer, OtherStepsShareArea, OtherStepsShareMtu, OtherStepsShareNetwork, SendsFrom, StaysAt, StaysConfigured};
ghost use Rattle.ospf_plan.specs.Further.{EndsTakeNoSecond, FoundMaskDrops, FoundMaskSteps, FoundNobody, SlowIsNotAcknowledged};
ghost use Rattle.ospf_plan.specs.Laws.{OthersTake, TellsEachUnheard, TellsExactly, TellsInOrder, TellsPartsInOrder, TellsUnheardInOrder, TellsWiresInOrder, ToldRefuse};

/// `findings` reports exactly what holds.
pub fn tells_exactly()
    ensures { TellsExactly }
{}

/// `findings` reports interfaces in the order of configurations, interfaces and faults, each once.
pub fn tells_in_order()
    ensures { TellsInOrder }
{}

/// `findings` reports who sends to whom in the order of the interfaces, each once.
pub fn tells_wires_in_order()
    ensures { TellsWiresInOrder }
{}

/// `findings` reports the later of two interfaces of which neither hears the other, each once.
pub fn tells_unheard()
    ensures each { TellsEachUnheard }
    ensures in_order { TellsUnheardInOrder }
{}

/// `findings` reports the parts of the area in the order of the configurations, each once.
pub fn tells_parts_in_order()
    ensures { TellsPartsInOrder }
{}

/// If `A5 Hello` or `A6 Dead` is reported for two interfaces, `Iface::agrees` refuses each Hello of
/// one at the other.
pub fn told_refuse()
    ensures { ToldRefuse }
{}

/// If neither is reported for a network, `Iface::agrees` accepts each Hello of one at each other.
pub fn others_take()
    ensures { OthersTake }
{}

/// Where `A1 SameRouter`, `A3 Area`, `A5 Hello`, `A6 Dead` or `A7 Mtu` is found of two interfaces,
/// the routers drop what they send each other, and for this cause.
pub fn found_are_dropped()
    ensures router { FoundRouterDrops }
    ensures area { FoundAreaDrops }
    ensures hello { FoundHelloDrops }
    ensures mtu { FoundMtuDrops }
{}

/// Where none of them is found of a network, no packet is dropped for this cause between two of its
/// interfaces; and none is dropped as one from another network.
pub fn others_are_taken()
    // The causes R3, R2, R5 and R6 of a drop, and E1 of the exchange.
    ensures router { OthersDiffer }
    ensures area { OthersShareArea }
    ensures network { OthersShareNetwork }
    ensures hello { OthersAgree }
    ensures mtu { OthersShareMtu }
{}

/// A router that was started by a configuration has, as long as it runs, the Router ID, the area
/// and the interfaces of that configuration, whatever it heard since; and so has each packet that
/// it sends.
pub fn routers_stay_configured()
    ensures configured { StaysConfigured }
    ensures at { StaysAt }
    ensures sent { SendsFrom }
{}

/// `found_are_dropped` of each step of routers that were started by the configurations: the step
/// drops what came, changes nothing and puts nothing out.
pub fn steps_drop_found()
    ensures router { FoundRouterSteps }
    ensures area { FoundAreaSteps }
    ensures hello { FoundHelloSteps }
    ensures mtu { FoundMtuSteps }
{}

/// `others_are_taken` of each step of such routers.
pub fn steps_take_others()
    // The causes R3, R2, R5 and R6 of a drop, and E1 of the exchange.
    ensures router { OtherStepsDiffer }
    ensures area { OtherStepsShareArea }
    ensures network { OtherStepsShareNetwork }
    ensures hello { OtherStepsAgree }
    ensures mtu { OtherStepsShareMtu }
{}

/// What follows of `A8 Mask`, `A9 TooManyRouters` and `A10 NoDr`: a broadcast interface drops each
/// Hello of one whose mask is another; a router with a neighbour on a point-to-point link drops
/// each Hello of another router; and where no interface of a network can be elected, no election
/// among these elects anybody.
pub fn further_faults_keep_apart()
    ensures mask { FoundMaskDrops }
    ensures mask_steps { FoundMaskSteps }
    ensures crowd { EndsTakeNoSecond }
    ensures nobody { FoundNobody }
{}

/// What `A14 Delay` is about: the acknowledgement of what a slow interface sent names no instance
/// that its router has, by the age alone.
pub fn slow_ones_are_not_acknowledged()
    ensures { SlowIsNotAcknowledged }
{}
