//! Tests that run at full speed: threads that run alongside a writer, and publishes and drives in
//! which each allocation is refused in turn.
#![tactic(auto)]

#[cfg(test)]
mod drives;
#[cfg(test)]
mod given;
#[cfg(test)]
mod publishes;
