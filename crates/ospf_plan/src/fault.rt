//! What can be wrong between the configurations of one area.

ghost use Rattle.std.specs.Prelude.{◌≡◌};
ghost use Rattle.ospf_plan.specs.Findings.{every_fault};

use std::fmt::{self, Display, Formatter, Write};

/// What is wrong between two interfaces, or with a network.
#[derive(Clone, Copy, Debug, PartialEq, Eq)]
pub enum AreaFault {
    /// Two routers have one Router ID.
    SameRouter,
    /// Two interfaces have one address.
    SameAddress,
    /// Two interfaces of a network are in different areas.
    Area,
    /// Of two interfaces of a network one is point-to-point and the other broadcast.
    Kind,
    /// HelloInterval differs.
    Hello,
    /// RouterDeadInterval differs.
    Dead,
    /// The MTU differs.
    Mtu,
    /// A network lies within another of fewer bits.
    Mask,
    /// A point-to-point network has a third end.
    TooManyRouters,
    /// A broadcast network of two interfaces or more has nobody who can be Designated Router.
    NoDr,
    /// An interface sends to another, which does not send to it (`port` and `peers`).
    OneSided,
    /// The two ends of a point-to-point network have two costs. This is a note, and no fault.
    Cost,
    /// No other interface is on the network. This is a note, and no fault.
    NoNeighbor,
    /// An InfTransDelay is over MaxAgeDiff: of an interface of a broadcast network with others, or
    /// of two interfaces of a point-to-point network.
    Delay,
    /// Two interfaces have one UDP port (`port`).
    SamePort,
    /// An interface sends to a UDP port of an interface that is not on its network (`peers`).
    WrongSubnetPeer,
    /// An interface sends to this UDP port, which none has (`peers`): a note, and no fault.
    UnknownPeer(u16),
    /// No way of links on which interfaces agree leads to the router from the first.
    Partitioned,
    /// Two interfaces of a network have UDP ports, and neither sends to the other's (`peers`).
    Unheard,
    /// Of three interfaces or more of a broadcast network one alone can be Designated Router. This
    /// is a note, and no fault.
    LoneDr,
}

impl AreaFault {
    ghost use Rattle.std.specs.Prelude.{◌≡◌};
    ghost use Rattle.ospf_plan.specs.Shown.{area_fault_text, is_note, meaning_text};

    /// The number and the name, as they are printed.
    pub fn text(self) -> &'static str
        ensures { result.now ≡ area_fault_text self }
    {
        match self {
            AreaFault::SameRouter => "A1 SameRouter",
            AreaFault::SameAddress => "A2 SameAddress",
            AreaFault::Area => "A3 Area",
            AreaFault::Kind => "A4 Kind",
            AreaFault::Hello => "A5 Hello",
            AreaFault::Dead => "A6 Dead",
            AreaFault::Mtu => "A7 Mtu",
            AreaFault::Mask => "A8 Mask",
            AreaFault::TooManyRouters => "A9 TooManyRouters",
            AreaFault::NoDr => "A10 NoDr",
            AreaFault::OneSided => "A11 OneSided",
            AreaFault::Cost => "A12 Cost",
            AreaFault::NoNeighbor => "A13 NoNeighbor",
            AreaFault::Delay => "A14 Delay",
            AreaFault::SamePort => "A15 SamePort",
            AreaFault::WrongSubnetPeer => "A16 WrongSubnetPeer",
            AreaFault::UnknownPeer(_) => "A17 UnknownPeer",
            AreaFault::Partitioned => "A18 Partitioned",
            AreaFault::Unheard => "A19 Unheard",
            AreaFault::LoneDr => "A20 LoneDr",
        }
    }

    /// Whether it is a note, of which nothing follows but what was meant.
    pub fn is_note(self) -> bool
        ensures { result ≡ is_note self }
    {
        matches!(
            self,
            AreaFault::Cost | AreaFault::NoNeighbor | AreaFault::UnknownPeer(_) | AreaFault::LoneDr
        )
    }

    /// What follows from it.
    pub fn meaning(self) -> &'static str
        ensures { result.now ≡ meaning_text self }
    {
        match self {
            AreaFault::SameRouter =>
                "each drops the other's packets as its own, and each flushes the other's LSAs (RFC 2328, sections 8.2 and 13.4)",
            AreaFault::SameAddress =>
                "a packet to this address may reach either router; as neighbors, each is the other's next hop at its own address (section 16.1.1)",
            AreaFault::Area => "each drops the other's packets (section 8.2)",
            AreaFault::Kind =>
                "one end elects a Designated Router and the other does not: they may reach Full, but no route uses the network (sections 9.4 and 16.1)",
            AreaFault::Hello | AreaFault::Dead => {
                "each drops the other's Hellos: they never become neighbors (section 10.5)"
            }
            AreaFault::Mtu => {
                "the router with the smaller MTU drops the other's Database Descriptions: they never reach Full (section 10.6)"
            }
            AreaFault::Mask =>
                "the prefixes overlap, so these are two networks: on a broadcast network neither hears the other; over a point-to-point link they may reach Full, and each advertises its own (sections 8.2 and 10.5)",
            AreaFault::TooManyRouters => {
                "each end accepts the first router that it hears as its only neighbor (section 8.2)"
            }
            AreaFault::NoDr => {
                "no Designated Router is elected, so no adjacency forms (sections 9.4 and 10.4)"
            }
            AreaFault::OneSided => {
                "in `run`, one hears the other but is not heard: they never get past Init (section 10.5)"
            }
            AreaFault::Cost => "traffic may take different paths in the two directions",
            AreaFault::NoNeighbor => "no other interface is on this network: it is a stub",
            AreaFault::Delay => {
                "an LSA returns older than it is known: they may never reach Full, and send to each other without end (sections 13.1 and 13.3)"
            }
            AreaFault::SamePort => "a port can be opened only once: `run` stops there",
            AreaFault::WrongSubnetPeer =>
                "in `run` broadcast interfaces drop its packets (section 8.2)",
            AreaFault::UnknownPeer(_) => "no router of these files listens on this port",
            AreaFault::Partitioned =>
                "the area is partitioned: over these networks no route leads there",
            AreaFault::Unheard => "in `run`, they never become neighbors (section 10.5)",
            AreaFault::LoneDr =>
                "if this router fails, the others elect no Designated Router: no adjacency forms, and no route uses the network (sections 9.4 and 10.4)",
        }
    }
}

/// The number and the name, as `A5 Hello`.
impl Display for AreaFault {
    ghost use Rattle.std.specs.Prelude.{Some};
    ghost use Rattle.ospf_plan.specs.Shown.{area_fault_text};

    ghost output = { λ fault. Some (area_fault_text fault) };

    fn fmt<W: Write>(&self, f: &mut Formatter<W>) -> fmt::Result {
        f.write_str(self.text())
    }
}

// The faults that are looked for at each interface, in the order in which they are reported.
pub(crate) fn every_fault() -> [AreaFault; 15]
    ensures { result ≡ every_fault }
{
    [
        AreaFault::SameRouter,
        AreaFault::SameAddress,
        AreaFault::Area,
        AreaFault::Kind,
        AreaFault::Hello,
        AreaFault::Dead,
        AreaFault::Mtu,
        AreaFault::Mask,
        AreaFault::TooManyRouters,
        AreaFault::NoDr,
        AreaFault::Cost,
        AreaFault::NoNeighbor,
        AreaFault::Delay,
        AreaFault::SamePort,
        AreaFault::LoneDr,
    ]
}
