//! Rounds until nothing changes any more.

ghost use Rattle.std.specs.Prelude.{◌≡◌, ◌+◌, IfErr, IfOk, OnErr, false, fold, string_bytes};
ghost use Rattle.ospf_commands.specs.Printed.{IsPrinted, IsPrintedBegun};
ghost use Rattle.ospf_commands.specs.Settling.{Passes, Settles, left_over, longer, longer_in, network_text, settled_line, storm_line, unsettled_line};
ghost use Rattle.ospf_files.specs.Streams.{IsOutputCut};
ghost use Rattle.ospf_originate.specs.Numbers.{min_ls_interval};
ghost use Rattle.ospf_commands.specs.Deliveries.Progress.{ToldOn};

use crate::delivery::Watch;
use crate::rounds::run_round;
use crate::simulation::Simulation;
use ospf_base::RouterId;
use ospf_config::{Interface, InterfaceAddress};
use ospf_files::{FailedStreams, Failure};
use ospf_originate::MIN_LS_INTERVAL;
use ospf_views::sight_of;
use ospf_world::{MOST_OFFERS, Slot, World, WorldFault, network_of};
use std::alloc::{AllocError, Global};
use std::io::Write;

/// How the rounds of a settling line end.
#[derive(Clone, Copy)]
pub enum Outcome {
    /// After this many rounds nothing had changed in the last of them.
    Settled(u64),
    /// All rounds have passed.
    Unsettled,
    /// The last round leaves datagrams over, and an interface with this address sent the first of
    /// them.
    Storms(Option<InterfaceAddress>),
}

// Runs rounds, at most `most`, until nothing that is seen has changed for as many as a router waits
// at most before it does what is due, and for one more. The number of rounds is printed, or a
// beginning of it.
pub(crate) fn settle<O: Write, V: Watch>(
    simulation: &mut Simulation,
    most: u64,
    out: &mut O,
    alloc: Global,
    watch: &mut V,
    streams: &mut FailedStreams,
) -> Result<Result<(), WorldFault>, Failure>
    ensures settles { IfOk result (λ answer. IsPrinted (λ given text. Settles most
        (record simulation.old { is_settled = false }) given text simulation.new) answer
        (O.contents out.old) (O.contents out.new)) }
    ensures begun { OnErr result (IsPrintedBegun (λ given text. Settles most
        (record simulation.old { is_settled = false }) given text simulation.new)
        (O.contents out.old) (O.contents out.new)) }
    ensures cut { IfErr result (IsOutputCut streams.new) }
    ensures told { ToldOn V.comes_gives V.came_gives V.goes_on_gives
        (simulation.old.world, watch.old) (simulation.new.world, watch.new) }
{
    simulation.is_settled = false;
    let still = rounds_to_stay(simulation.world.slots());
    match pass_rounds(simulation, most, still, alloc, watch) {
        Ok(Outcome::Settled(rounds)) => {
            simulation.is_settled = true;
            let line = settled_line(alloc, rounds - still, still)?;
            streams.write(out, &line)?;
            Ok(Ok(()))
        }
        Ok(Outcome::Unsettled) => {
            let line = unsettled_line(alloc, most, still)?;
            streams.write(out, &line)?;
            Ok(Ok(()))
        }
        Ok(Outcome::Storms(from)) => {
            let line = storm_line(alloc, from)?;
            streams.write(out, &line)?;
            Ok(Ok(()))
        }
        Err(fault) => Ok(Err(fault)),
    }
}

// Runs rounds, at most `most`, until nothing seen has changed for `still` of them; returns how
// many.
fn pass_rounds<V: Watch>(
    simulation: &mut Simulation,
    most: u64,
    still: u64,
    alloc: Global,
    watch: &mut V,
) -> Result<Outcome, WorldFault>
    ensures passes { Passes most still simulation.old result simulation.new }
    ensures told { ToldOn V.comes_gives V.came_gives V.goes_on_gives
        (simulation.old.world, watch.old) (simulation.new.world, watch.new) }
{
    let Ok(mut seen) = sight_of(simulation.world.slots(), alloc) else {
        return Err(WorldFault::Memory { stopped: false });
    };
    let mut unchanged = 0;
    for done in 0..most {
        if unchanged >= still {
            return Ok(Outcome::Settled(done));
        }
        watch.begins_round(done, most);
        match run_round(simulation, MOST_OFFERS, alloc, watch) {
            Ok(()) => {}
            Err(fault) => return Err(fault),
        }
        if let Some(from) = left_over(&simulation.world) {
            return Ok(Outcome::Storms(from));
        }
        let Ok(now) = sight_of(simulation.world.slots(), alloc) else {
            return Err(WorldFault::Memory { stopped: false });
        };
        unchanged = if now == seen { unchanged + 1 } else { 0 };
        seen = now;
    }
    if unchanged >= still {
        return Ok(Outcome::Settled(most));
    }
    Ok(Outcome::Unsettled)
}

// What a round leaves over: the sender of the first datagram that waits for the next one.
fn left_over(world: &World) -> Option<Option<InterfaceAddress>>
    ensures { result ≡ left_over world.now }
{
    match world.datagrams().get(world.offered()) {
        Some(sent) => Some(world.source_of(sent)),
        None => None,
    }
}

// How many rounds in a row must change nothing: as many as a router waits at most, and one more,
// which delivers what waited before the first.
fn rounds_to_stay(slots: &[Slot]) -> u64
    ensures { result ≡ fold longer_in min_ls_interval slots.now + 1 }
{
    u64::from(longest_wait(slots)) + 1
}

// How long a router waits at most until it drops a neighbour, retransmits or issues an LSA.
fn longest_wait(slots: &[Slot]) -> u16
    ensures { result ≡ fold longer_in min_ls_interval slots.now }
{
    let mut longest = MIN_LS_INTERVAL;
    for slot in slots {
        longest = longer_in(longest, &slot.config().interfaces);
    }
    longest
}

// The maximum of this wait and those of these interfaces.
fn longer_in(longest: u16, interfaces: &[Interface]) -> u16
    ensures { result ≡ fold longer longest interfaces.now }
{
    let mut longest = longest;
    for interface in interfaces {
        longest = longest.max(interface.dead);
        longest = longest.max(interface.retransmit);
    }
    longest
}

// The line of a simulation that settled.
fn settled_line(alloc: Global, rounds: u64, still: u64) -> Result<String, AllocError>
    ensures { IfOk result (λ line. string_bytes line ≡ settled_line rounds still) }
{
    let mut line = format!(in alloc; "settled in round {rounds}")?;
    let rest = format!(in alloc; ", unchanged for {still} more\n")?;
    line.push_str(&rest)?;
    Ok(line)
}

// The line of one that did not, and how many rounds in a row must change nothing.
fn unsettled_line(alloc: Global, rounds: u64, still: u64) -> Result<String, AllocError>
    ensures { IfOk result (λ line. string_bytes line ≡ unsettled_line rounds still) }
{
    let mut line = format!(in alloc; "not settled by round {rounds}")?;
    let rest = format!(in alloc; ": {still} rounds in a row must change nothing\n")?;
    line.push_str(&rest)?;
    Ok(line)
}

// The line of a round that leaves datagrams over, the first of which this interface sent.
fn storm_line(alloc: Global, from: Option<InterfaceAddress>) -> Result<String, AllocError>
    ensures { IfOk result (λ line. string_bytes line ≡ storm_line from) }
{
    let mut line = String::from_str(alloc, "not settled: 10,000 datagrams in one round")?;
    let network = network_text(alloc, from)?;
    line.push_str(&network)?;
    line.push_str("\n")?;
    Ok(line)
}

// The network of an interface, if it is known.
fn network_text(alloc: Global, from: Option<InterfaceAddress>) -> Result<String, AllocError>
    ensures { IfOk result (λ text. string_bytes text ≡ network_text from) }
{
    let Some(from) = from else {
        return Ok(String::new(alloc));
    };
    let (network, length) = (RouterId(network_of(&from)), from.length);
    format!(in alloc; ", at {network}/{length}")
}
