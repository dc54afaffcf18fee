//! Moments of a router, in ticks.

ghost use Rattle.std.specs.Prelude.{◌≡◌};
ghost use Rattle.ospf_base.specs.Ticks as spec;

/// The ticks from one to another, which count modulo 2^64.
pub fn ticks_since(then_tick: u64, tick: u64) -> u64
    ensures { result ≡ spec.ticks_since then_tick tick }
{
    tick.wrapping_sub(then_tick)
}

/// Whether this many ticks, or more, have passed since then.
pub fn have_passed(ticks: u16, then_tick: u64, tick: u64) -> bool
    ensures { result ≡ spec.have_passed ticks then_tick tick }
{
    u64::from(ticks) <= ticks_since(then_tick, tick)
}
