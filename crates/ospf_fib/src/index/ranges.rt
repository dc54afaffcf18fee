//! Ranges of addresses.

use std::alloc::Global;

/// Ranges of addresses: where each begins, and the place of the route that answers for it. Where
/// none does, the place is after the last route.
#[derive(Drop)]
pub(crate) struct Ranges {
    pub starts: Vec<u32>,
    pub places: Vec<usize>,
}
