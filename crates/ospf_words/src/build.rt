//! How the program was built.

/// The version, and how the program was built.
///
/// The toolchain builds a program only where it is proved. `tools/compile`, which proves nothing,
/// puts its own words in the place of `proved`.
pub(crate) const VERSION: &str = "0.2.0 (proved)";
