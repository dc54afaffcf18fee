//! How routers, networks and prefixes are named in a drawing.

ghost use Rattle.std.specs.Prelude.{Some};

use ospf_base::{Addr, RouterId};
use std::fmt::{self, Display, Formatter, Write};

// A router, as `"1.1.1.1"`.
#[derive(Clone, Copy)]
pub(crate) struct RouterNode(pub(crate) u32);

impl Display for RouterNode {
    ghost use Rattle.ospf_inspect.specs.AreaDrawing.Graph.{router_node};

    ghost output = { λ node. Some (router_node node.0) };

    fn fmt<W: Write>(&self, f: &mut Formatter<W>) -> fmt::Result {
        write!(f, "\"{}\"", RouterId(self.0))
    }
}

// A transit network by its Link State ID, as `"network 10.1.0.2"`.
#[derive(Clone, Copy)]
pub(crate) struct NetworkNode(pub(crate) u32);

impl Display for NetworkNode {
    ghost use Rattle.ospf_inspect.specs.AreaDrawing.Graph.{network_node};

    ghost output = { λ node. Some (network_node node.0) };

    fn fmt<W: Write>(&self, f: &mut Formatter<W>) -> fmt::Result {
        write!(f, "\"network {}\"", Addr(self.0))
    }
}

/// The addresses under a mask.
#[derive(Clone, Copy)]
pub struct Under {
    pub address: u32,
    pub mask: u32,
}

/// As `10.1.0.0/24`.
impl Display for Under {
    ghost use Rattle.ospf_inspect.specs.AreaDrawing.Graph.{prefix_under};

    ghost output = { λ p. Some (prefix_under p.address p.mask) };

    fn fmt<W: Write>(&self, f: &mut Formatter<W>) -> fmt::Result {
        write!(
            f,
            "{}/{}",
            Addr(self.address & self.mask),
            self.mask.count_ones()
        )
    }
}
