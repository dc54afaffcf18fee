//! What may happen in a network of routers, and why it may be refused.

mod event;

pub use crate::event::event::{WorldEvent, WorldFault};
