//! Router IDs, areas, addresses, and the keys and instances of LSAs.

use crate::constants::{NETWORK_LSA, ROUTER_LSA};

/// The ID of a router, unique in its Autonomous System (RFC 2328, section 1.2).
#[derive(Clone, Copy, Debug, PartialEq, Eq, PartialOrd, Ord, Hash)]
pub struct RouterId(pub u32);

/// The ID of an area (RFC 2328, section 3).
#[derive(Clone, Copy, Debug, PartialEq, Eq, PartialOrd, Ord, Hash)]
pub struct AreaId(pub u32);

/// An IPv4 address.
#[derive(Clone, Copy, Debug, PartialEq, Eq, PartialOrd, Ord, Hash)]
pub struct Addr(pub u32);

impl Addr {
    /// 0.0.0.0: no router, and no address that is known.
    pub const NOWHERE: Addr = Addr(0);
}

/// The kinds of LSAs: LS types 1 and 2 (RFC 2328, section 12.1.3).
#[derive(Clone, Copy, Debug, PartialEq, Eq, PartialOrd, Ord, Hash)]
pub enum Kind {
    Router,
    Network,
}

impl Kind {
    ghost use Rattle.std.specs.Prelude.{◌≡◌};
    ghost use Rattle.ospf_base.specs.Keys as spec;

    /// The LS type (RFC 2328, appendix A.4.1).
    pub fn ls_type(self) -> u8
        ensures { result ≡ spec.ls_type self }
    {
        match self {
            Kind::Router => ROUTER_LSA,
            Kind::Network => NETWORK_LSA,
        }
    }
}

/// What names an LSA: its kind, Link State ID and Advertising Router (RFC 2328, section 12.1).
///
/// Keys are in the order of a listing: router-LSAs first, then by Link State ID, then by
/// Advertising Router.
#[derive(Clone, Copy, Debug, PartialEq, Eq, PartialOrd, Ord, Hash)]
pub struct LsaKey {
    /// The LS type.
    pub kind: Kind,
    /// The Link State ID, in host order.
    pub id: u32,
    /// The Advertising Router.
    pub router: RouterId,
}

impl LsaKey {
    ghost use Rattle.ospf_base.specs.declared.ids.Kind.TheVariants.{Router};
    ghost use Rattle.std.specs.Prelude.{◌≡◌, ◌↔◌, IsTrue};
    ghost use Rattle.ospf_base.specs.Keys.{Precedes, key_from, same_key};

    /// The key of a router's router-LSA, whose Link State ID is the router's own.
    pub fn of_router(router: RouterId) -> LsaKey
        ensures { result ≡ record { kind = Router; id = router.0; router = router } }
    {
        LsaKey {
            kind: Kind::Router,
            id: router.0,
            router,
        }
    }

    /// The key of an LS type, a Link State ID and an Advertising Router; `None`
    /// of other LS types than 1 and 2.
    pub fn from_type(ls_type: u32, id: u32, router: RouterId) -> Option<LsaKey>
        ensures { result ≡ key_from ls_type id router }
    {
        let kind = if ls_type == u32::from(ROUTER_LSA) {
            Kind::Router
        } else if ls_type == u32::from(NETWORK_LSA) {
            Kind::Network
        } else {
            return None;
        };
        Some(LsaKey { kind, id, router })
    }

    /// Whether this key comes before another in a listing.
    pub fn precedes(&self, other: &LsaKey) -> bool
        ensures { IsTrue result ↔ Precedes self.now other.now }
    {
        self < other
    }

    /// Whether two keys are the same, which means equal (`same_keys_are_equal`).
    #[tactic(auto, unfolding(crate::specs::Keys::same_key))]
    pub fn is_same(&self, other: &LsaKey) -> bool
        ensures { result ≡ same_key self.now other.now }
    {
        self.kind.ls_type() == other.kind.ls_type()
            && self.id == other.id
            && self.router.0 == other.router.0
    }
}

/// What identifies one instance of an LSA: sequence number and checksum, besides
/// the key (RFC 2328, section 12.1).
#[derive(Clone, Copy, Debug, PartialEq, Eq, Hash)]
pub struct Instance {
    pub key: LsaKey,
    pub number: i32,
    pub sum: u16,
}

impl Instance {
    ghost use Rattle.std.specs.Prelude.{◌≡◌};
    ghost use Rattle.ospf_base.specs.Instances.{same_instance};

    /// Whether two instances are the same, which means equal (`same_instances_are_equal`).
    #[tactic(auto, unfolding(crate::specs::Instances::same_instance))]
    pub fn is_same(&self, other: &Instance) -> bool
        ensures { result ≡ same_instance self.now other.now }
    {
        self.key.is_same(&other.key) && self.number == other.number && self.sum == other.sum
    }
}
