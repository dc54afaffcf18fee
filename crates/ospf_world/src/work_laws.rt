//! A law: a network that works.

ghost use Rattle.ospf_world.specs.Works.{SomeRouterWorks};

/// There is a network in which a router has started, ticked and brought a link up: it has issued an
/// LSA of its own, which it holds, and it has sent a Hello.
pub fn some_router_works()
    ensures { SomeRouterWorks }
{}
