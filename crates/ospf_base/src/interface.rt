//! The kinds of interfaces.

/// The kind of an interface, by the network that it is attached to (RFC 2328, section 1.2).
#[derive(Clone, Copy, Debug, PartialEq, Eq)]
pub enum InterfaceKind {
    PointToPoint,
    Broadcast,
}
