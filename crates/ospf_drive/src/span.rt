//! When the end of a wire comes.

/// When the end of what a wire delivers comes, by its ticks.
#[derive(Clone, Copy, Debug, PartialEq, Eq)]
pub struct Span {
    /// After how many ticks it comes; `None` where no tick is the last.
    pub ticks: Option<u64>,
    /// Whether it comes earlier if the wire is signalled to end.
    pub may_be_told: bool,
}
