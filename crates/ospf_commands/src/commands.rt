//! Running commands.

ghost use Rattle.std.specs.Prelude.{◌≡◌, IfErr, IfOk, Ok, OnErr};
ghost use Rattle.ospf_files.specs.Streams.{IsOutputCut};
ghost use Rattle.ospf_commands.specs.Commands.{EventComesAbout, IsDone, IsDoneBegun, Loses, ManyHappen};
ghost use Rattle.ospf_commands.specs.Deliveries.Progress.{ToldOn};
ghost use Rattle.ospf_world.specs.Watching.{Told};

use crate::asked::{
    say, show, show_datagrams, show_drops, show_lsas, show_premise, show_walk, show_why,
};
use crate::delivery::{Losses, Watch, lose_somewhere, run_many};
use crate::judge::judge;
use crate::rounds::{run_batches, run_events, run_rounds};
use crate::settle::settle;
use crate::simulation::Simulation;
use ospf_files::{FailedStreams, Failure};
use ospf_script::{Command, Many};
use ospf_world::{WorldEvent, WorldFault};
use std::alloc::Global;
use std::io::Write;

/// Runs a command and prints its output. The answer says why it is refused, if it is. Each event,
/// and how far rounds have come, is reported to a watch.
///
/// `Failure` if memory runs out or the stream fails: a beginning of the output was written.
pub fn run_command<O: Write, V: Watch>(
    simulation: &mut Simulation,
    command: &Command,
    out: &mut O,
    alloc: Global,
    watch: &mut V,
    streams: &mut FailedStreams,
) -> Result<Result<(), WorldFault>, Failure>
    ensures done { IfOk result (λ answer. IsDone command.now simulation.old answer simulation.new
        (O.contents out.old) (O.contents out.new)) }
    ensures begun { OnErr result
        (IsDoneBegun command.now simulation.old simulation.new (O.contents out.old)
        (O.contents out.new)) }
    ensures cut { IfErr result (IsOutputCut streams.new) }
    ensures told { ToldOn V.comes_gives V.came_gives V.goes_on_gives
        (simulation.old.world, watch.old) (simulation.new.world, watch.new) }
{
    match command {
        Command::Event { event } => Ok(run_event(simulation, *event, watch, alloc)),
        Command::Many { many } => Ok(run_at_many(simulation, *many, watch, alloc)),
        Command::Round { count, most } => {
            Ok(run_rounds(simulation, *count, *most, alloc, watch))
        }
        Command::Batch { count } => Ok(run_batches(simulation, *count, alloc, watch)),
        Command::Random { number, count } => {
            Ok(run_events(simulation, *number, *count, alloc, watch))
        }
        Command::Settle { most } => settle(simulation, *most, out, alloc, watch, streams),
        Command::Show { view, router } => show(simulation, *view, *router, out, alloc, streams),
        Command::Walk {
            from,
            address,
            choices,
        } => show_walk(simulation, (*from, *address), choices, out, alloc, streams),
        Command::Say { text } => say(text, out, alloc, streams),
        Command::Why {
            router,
            link,
            neighbour,
        } => {
            let place = (*router, *link);
            show_why(simulation, place, *neighbour, out, alloc, streams)
        }
        Command::WhyHeadline { router } => show_premise(simulation, *router, out, alloc, streams),
        Command::Datagrams { router, most } => {
            show_datagrams(simulation, *router, *most, out, alloc, streams)
        }
        Command::Drops { router } => show_drops(simulation, *router, out, alloc, streams),
        Command::Lsas { router } => show_lsas(simulation, *router, out, alloc, streams),
        Command::Loss {
            percent,
            number,
            network,
        } => Ok(lose(simulation, Losses::new(*percent, *number, *network))),
        Command::Expect { expected } => judge(simulation, expected, out, alloc, streams),
        Command::Label { is_on } => Ok(label(simulation, *is_on)),
    }
}

// Makes an event happen.
fn run_event<V: Watch>(
    simulation: &mut Simulation,
    event: WorldEvent,
    watch: &mut V,
    alloc: Global,
) -> Result<(), WorldFault>
    ensures comes { EventComesAbout event simulation.old result simulation.new }
    ensures told { Told V.comes_gives V.came_gives (simulation.old.world, watch.old)
        (simulation.new.world, watch.new) }
{
    simulation.is_settled = false;
    simulation.world.step_watched(event, watch, alloc)
}

// Makes events happen at many routers.
fn run_at_many<V: Watch>(
    simulation: &mut Simulation,
    many: Many,
    watch: &mut V,
    alloc: Global,
) -> Result<(), WorldFault>
    ensures happen { ManyHappen many simulation.old result simulation.new }
    ensures told { Told V.comes_gives V.came_gives (simulation.old.world, watch.old)
        (simulation.new.world, watch.new) }
{
    simulation.is_settled = false;
    run_many(&mut simulation.world, many, watch, alloc)
}

// Applies these losses from now on, if an interface is on their network.
fn lose(simulation: &mut Simulation, losses: Losses) -> Result<(), WorldFault>
    ensures loses { Loses losses simulation.old result simulation.new }
    ensures world { simulation.new.world ≡ simulation.old.world }
{
    if !lose_somewhere(losses.network, simulation.world.slots()) {
        return Err(WorldFault::NoLink);
    }
    simulation.losses = Some(losses);
    Ok(())
}

// Turns labels on or off.
fn label(simulation: &mut Simulation, is_on: bool) -> Result<(), WorldFault>
    ensures answer { result ≡ Ok tt }
    ensures labelled { simulation.new ≡ record simulation.old { is_labelled = is_on } }
{
    simulation.is_labelled = is_on;
    Ok(())
}
