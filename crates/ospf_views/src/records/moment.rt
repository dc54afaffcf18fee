//! When a packet was captured.

ghost use Rattle.std.specs.Prelude.{◌<◌};

/// A moment: seconds since the beginning of 1970, in Coordinated Universal Time, or of what is
/// simulated, and microseconds of the second.
#[derive(Clone, Copy, Debug, PartialEq, Eq, PartialOrd, Ord)]
pub struct Moment {
    pub seconds: u32,
    /// Below 1,000,000.
    pub microseconds: u32,
    ghost fraction: { microseconds < 1000000 },
}
