//! Configurations.

ghost use Rattle.std.specs.Prelude.{◌<◌, ◌≤◌, AllPairs, vec_len};
ghost use Rattle.ospf_config.specs.Conflicts.{Conflict};

use crate::interface::Interface;
use ospf_base::{AreaId, RouterId, StubNetwork};

/// The configuration of a router (RFC 2328, appendix C).
#[derive(Debug, Drop)]
pub struct Config {
    /// The Router ID, not 0.0.0.0.
    pub router_id: RouterId,
    pub area: AreaId,
    /// Whether the router is a stub router (RFC 6987).
    pub stub_router: bool,
    /// Whether LSAs of LS types 3, 4 and 5 are passed over: else their headers are refused.
    pub passes_over: bool,
    /// One to 32 interfaces that are not passive, of which no two have one prefix or one address. A
    /// link's number is its place here.
    pub interfaces: Vec<Interface>,
    /// At most 63 stub networks, which the router advertises behind its interfaces' links: those of
    /// its passive interfaces (RFC 2328, sections 12.4.1.1 and 12.4.1.2), then its hosts
    /// (appendix C.7).
    pub stubs: Vec<StubNetwork>,
    ghost router_id_not_zero: { 0 < router_id.0 },
    ghost some_interface: { 1 ≤ vec_len interfaces },
    ghost few_interfaces: { vec_len interfaces ≤ 32 },
    ghost few_stubs: { vec_len stubs ≤ 63 },
    ghost no_conflict: { AllPairs (λ a b. Conflict a.address b.address → ⊥) interfaces.items },
}
