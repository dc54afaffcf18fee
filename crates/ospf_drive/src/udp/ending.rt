//! The signal that ends wires.

use std::alloc::{AllocError, Global};
use std::sync::Arc;
use std::sync::atomic::{AtomicBool, Ordering};

/// Signals wires to end: all that share it, also in other threads. A wire looks at the signal once
/// a tick.
#[derive(Drop)]
pub struct Ending(Arc<AtomicBool, Global>);

impl Ending {
    /// A signal that is not raised.
    ///
    /// `AllocError` if memory runs out.
    pub fn new(alloc: Global) -> Result<Ending, AllocError> {
        match Arc::new(alloc, AtomicBool::new(false)) {
            Ok(told) => Ok(Ending(told)),
            Err(_) => Err(AllocError),
        }
    }

    /// Another one, which shares the signal of this one.
    ///
    /// `AllocError` if there are too many.
    pub fn another(&self) -> Result<Ending, AllocError> {
        Ok(Ending(Arc::try_clone(&self.0)?))
    }

    /// Signals the wires to end.
    pub fn tell(&self) {
        self.0.store(true, Ordering::SeqCst);
    }

    /// Whether the wires were signalled to end.
    pub fn is_told(&self) -> bool {
        self.0.load(Ordering::SeqCst)
    }
}
