//! Progress of the calculation over routers.

/// Receives how many routers are done. The results do not depend on what it does with that.
pub trait Progress {
    /// All failures have been gone through at so many of them.
    fn comes(&mut self, done: usize, count: usize);
}
