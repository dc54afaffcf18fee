//! Names of failures, one word each.

use crate::failure::AreaFailure;
use ospf_base::Addr;
use std::fmt::{self, Display, Formatter, Write};

/// As `1.1.1.1-2.2.2.2@10.0.0.0/30` a link, `1.1.1.1:2.2.2.2@10.0.0.0/30` the end of it at
/// 1.1.1.1, `1.1.1.1-2.2.2.2` all links between two routers of which no subnet is known,
/// `3.3.3.3@10.1.0.3` a router's interface to the network of that Link State ID, `@10.1.0.3` that
/// network, `3.3.3.3` a router, `3.3.3.3@10.9.0.0/24` its interface to that stub network.
impl Display for AreaFailure {
    ghost use Rattle.std.specs.Prelude.{Some};
    ghost use Rattle.ospf_whatif.specs.Name.{area_failure_text};

    ghost output = { λ failure. Some (area_failure_text failure) };

    fn fmt<W: Write>(&self, f: &mut Formatter<W>) -> fmt::Result {
        match self {
            AreaFailure::Link { a, b, subnet } => write!(f, "{a}-{b}@{subnet}"),
            AreaFailure::End {
                router,
                other,
                subnet,
            } => write!(f, "{router}:{other}@{subnet}"),
            AreaFailure::Links { a, b } => write!(f, "{a}-{b}"),
            AreaFailure::Attachment { router, network } => write!(f, "{router}@{}", Addr(*network)),
            AreaFailure::Network(network) => write!(f, "@{}", Addr(*network)),
            AreaFailure::Router(router) => write!(f, "{router}"),
            AreaFailure::Stub { router, prefix } => write!(f, "{router}@{prefix}"),
        }
    }
}
