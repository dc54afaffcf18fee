//! Whether expectations are met.

ghost use Rattle.std.specs.Prelude.{◌≡◌, ◌++◌, IfErr, IfOk, OnErr, Some, false, string_bytes};
ghost use Rattle.ospf_commands.specs.Judged.{JudgedSo, apart_line, arrives, is_arrived, is_at_cost, nobody_line, some_run};
ghost use Rattle.ospf_commands.specs.Printed.{IsPrinted, IsPrintedBegun};
ghost use Rattle.ospf_commands.specs.Shown.{walk_line};
ghost use Rattle.ospf_files.specs.Streams.{IsOutputCut};
ghost use Rattle.ospf_script.specs.declared.expected.Expected.TheVariants as expected;
ghost use Rattle.ospf_commands.specs.Expectations.{unmet_line};
ghost use Rattle.ospf_commands.specs.Premise.{IsPremise};
ghost use Rattle.ospf_views.specs.Disagreements.{from_line};

use crate::agreement::{apart, some_run};
use crate::expectations::{is_met, unmet_line, write_unmet};
use crate::premise::{any_disagreement, disagreement};
use crate::show::walk_line;
use crate::simulation::Simulation;
use ospf_base::{Addr, RouterId};
use ospf_files::{FailedStreams, Failure};
use ospf_script::{Expected, Wanted};
use ospf_views::{Disagreement, from_line};
use ospf_world::{Walk, WalkEnd, World, WorldFault};
use std::alloc::{AllocError, Global};
use std::fmt::{self, Display, Formatter};
use std::io::Write;

// Two routers.
#[derive(Clone, Copy)]
struct TwoShown((RouterId, RouterId));

impl Display for TwoShown {
    ghost use Rattle.std.specs.Prelude.{Some};
    ghost use Rattle.ospf_commands.specs.Judged.{two_text};

    ghost output = { λ shown. Some (two_text shown.0) };

    fn fmt<W: fmt::Write>(&self, f: &mut Formatter<W>) -> fmt::Result {
        write!(f, "{} and {}", self.0.0, self.0.1)
    }
}

// Judges an expectation. If it is not met, that is printed, or a beginning of it, and remembered.
pub(crate) fn judge<O: Write>(
    simulation: &mut Simulation,
    expected: &Expected,
    out: &mut O,
    alloc: Global,
    streams: &mut FailedStreams,
) -> Result<Result<(), WorldFault>, Failure>
    ensures judged { IfOk result (λ answer. IsPrinted (JudgedSo expected.now simulation.old
        simulation.new) answer (O.contents out.old) (O.contents out.new)) }
    ensures begun { OnErr result (IsPrintedBegun
        (JudgedSo expected.now simulation.old simulation.new)
        (O.contents out.old) (O.contents out.new)) }
    ensures cut { IfErr result (IsOutputCut streams.new) }
    ensures world { simulation.new.world ≡ simulation.old.world }
{
    match expected {
        Expected::Router { router, wanted } => {
            judge_router(simulation, *router, wanted, out, alloc, streams)
        }
        Expected::Walk {
            from,
            address,
            cost,
        } => judge_walk(simulation, (*from, *address), *cost, out, alloc, streams),
        Expected::Agree => judge_agreement(simulation, out, alloc, streams),
        Expected::Headline { router } => {
            judge_headline(simulation, *router, out, alloc, streams)
        }
        Expected::Settled => judge_settling(simulation, out, alloc, streams),
    }
}

// An expectation of a router.
fn judge_router<O: Write>(
    simulation: &mut Simulation,
    router: RouterId,
    wanted: &Wanted,
    out: &mut O,
    alloc: Global,
    streams: &mut FailedStreams,
) -> Result<Result<(), WorldFault>, Failure>
    ensures judged { IfOk result (λ answer. IsPrinted (JudgedSo (expected.Router router wanted.now)
        simulation.old simulation.new) answer (O.contents out.old) (O.contents out.new)) }
    ensures begun { OnErr result (IsPrintedBegun (JudgedSo (expected.Router router wanted.now)
        simulation.old simulation.new) (O.contents out.old) (O.contents out.new)) }
    ensures cut { IfErr result (IsOutputCut streams.new) }
    ensures world { simulation.new.world ≡ simulation.old.world }
{
    let lent = match simulation.world.router(router) {
        Ok(lent) => lent,
        Err(fault) => {
            simulation.is_unmet = true;
            return Ok(Err(fault));
        }
    };
    if is_met(wanted, lent) {
        return Ok(Ok(()));
    }
    simulation.is_unmet = true;
    write_unmet(alloc, router, wanted, lent, out, streams)?;
    Ok(Ok(()))
}

// An expectation of a walk.
fn judge_walk<O: Write>(
    simulation: &mut Simulation,
    ends: (RouterId, Addr),
    cost: Option<u64>,
    out: &mut O,
    alloc: Global,
    streams: &mut FailedStreams,
) -> Result<Result<(), WorldFault>, Failure>
    ensures judged { IfOk result (λ answer. IsPrinted (JudgedSo (expected.Walk ends.0 ends.1 cost)
        simulation.old simulation.new) answer (O.contents out.old) (O.contents out.new)) }
    ensures begun { OnErr result (IsPrintedBegun (JudgedSo (expected.Walk ends.0 ends.1 cost)
        simulation.old simulation.new) (O.contents out.old) (O.contents out.new)) }
    ensures cut { IfErr result (IsOutputCut streams.new) }
    ensures world { simulation.new.world ≡ simulation.old.world }
{
    let (from, address) = ends;
    let walk = match simulation.world.walk(from, address, &[], alloc) {
        Ok(walk) => walk,
        Err(fault) => {
            simulation.is_unmet = true;
            return Ok(Err(fault));
        }
    };
    if arrives(cost, &walk) {
        return Ok(Ok(()));
    }
    simulation.is_unmet = true;
    let expected = Expected::Walk {
        from,
        address,
        cost,
    };
    let lines = unarrived_lines(alloc, &expected, &walk)?;
    streams.write(out, &lines)?;
    Ok(Ok(()))
}

// An expectation that all routers agree.
fn judge_agreement<O: Write>(
    simulation: &mut Simulation,
    out: &mut O,
    alloc: Global,
    streams: &mut FailedStreams,
) -> Result<Result<(), WorldFault>, Failure>
    ensures judged { IfOk result (λ answer. IsPrinted (JudgedSo expected.Agree simulation.old
        simulation.new) answer (O.contents out.old) (O.contents out.new)) }
    ensures begun { OnErr result (IsPrintedBegun (JudgedSo expected.Agree simulation.old
        simulation.new) (O.contents out.old) (O.contents out.new)) }
    ensures cut { IfErr result (IsOutputCut streams.new) }
    ensures world { simulation.new.world ≡ simulation.old.world }
{
    if !some_run(simulation.world.slots()) {
        return tell_nobody(simulation, out, alloc, streams);
    }
    match apart(simulation.world.slots(), alloc) {
        Ok(None) => Ok(Ok(())),
        Ok(Some(two)) => {
            simulation.is_unmet = true;
            let lines = apart_lines(alloc, two)?;
            streams.write(out, &lines)?;
            Ok(Ok(()))
        }
        Err(AllocError) => {
            simulation.is_unmet = true;
            Ok(Err(WorldFault::Memory { stopped: false }))
        }
    }
}

// No router runs, so none agrees with another.
fn tell_nobody<O: Write>(
    simulation: &mut Simulation,
    out: &mut O,
    alloc: Global,
    streams: &mut FailedStreams,
) -> Result<Result<(), WorldFault>, Failure>
    requires { some_run simulation.old.world.slots ≡ false }
    // what is printed
    ensures judged { IfOk result (λ answer. IsPrinted (JudgedSo expected.Agree simulation.old
        simulation.new) answer (O.contents out.old) (O.contents out.new)) }
    ensures begun { OnErr result (IsPrintedBegun (JudgedSo expected.Agree simulation.old
        simulation.new) (O.contents out.old) (O.contents out.new)) }
    ensures cut { IfErr result (IsOutputCut streams.new) }
    ensures world { simulation.new.world ≡ simulation.old.world }
{
    simulation.is_unmet = true;
    let lines = nobody_lines(alloc)?;
    streams.write(out, &lines)?;
    Ok(Ok(()))
}

// An expectation that the premise of the headline holds.
fn judge_headline<O: Write>(
    simulation: &mut Simulation,
    router: Option<RouterId>,
    out: &mut O,
    alloc: Global,
    streams: &mut FailedStreams,
) -> Result<Result<(), WorldFault>, Failure>
    ensures judged { IfOk result (λ answer. IsPrinted (JudgedSo (expected.Headline router)
        simulation.old simulation.new) answer (O.contents out.old) (O.contents out.new)) }
    ensures begun { OnErr result (IsPrintedBegun (JudgedSo (expected.Headline router)
        simulation.old simulation.new) (O.contents out.old) (O.contents out.new)) }
    ensures cut { IfErr result (IsOutputCut streams.new) }
    ensures world { simulation.new.world ≡ simulation.old.world }
{
    match premise_of(&simulation.world, router, alloc) {
        Ok(None) => Ok(Ok(())),
        Ok(Some(found)) => {
            simulation.is_unmet = true;
            let lines = unmet_headline_lines(alloc, router, &found)?;
            streams.write(out, &lines)?;
            Ok(Ok(()))
        }
        Err(fault) => {
            simulation.is_unmet = true;
            Ok(Err(fault))
        }
    }
}

// Whether it holds for a router, or for all that run if none is given.
fn premise_of(
    world: &World,
    router: Option<RouterId>,
    alloc: Global,
) -> Result<Option<Disagreement>, WorldFault>
    ensures { IsPremise router world.now result }
{
    match router {
        Some(router) => disagreement(world, router, alloc),
        None => any_disagreement(world, alloc),
    }
}

// An expectation that the last settling holds.
fn judge_settling<O: Write>(
    simulation: &mut Simulation,
    out: &mut O,
    alloc: Global,
    streams: &mut FailedStreams,
) -> Result<Result<(), WorldFault>, Failure>
    ensures judged { IfOk result (λ answer. IsPrinted (JudgedSo expected.Settled simulation.old
        simulation.new) answer (O.contents out.old) (O.contents out.new)) }
    ensures begun { OnErr result (IsPrintedBegun (JudgedSo expected.Settled simulation.old
        simulation.new) (O.contents out.old) (O.contents out.new)) }
    ensures cut { IfErr result (IsOutputCut streams.new) }
    ensures world { simulation.new.world ≡ simulation.old.world }
{
    if simulation.is_settled {
        return Ok(Ok(()));
    }
    simulation.is_unmet = true;
    let line = unmet_line(alloc, &Expected::Settled)?;
    streams.write(out, &line)?;
    Ok(Ok(()))
}

// Whether a walk arrives, at this cost if one is given.
fn arrives(cost: Option<u64>, walk: &Walk) -> bool
    ensures { result ≡ arrives cost walk.now }
{
    is_arrived(walk.end) && is_at(cost, walk.cost)
}

fn is_arrived(end: WalkEnd) -> bool
    ensures { result ≡ is_arrived end }
{
    match end {
        WalkEnd::Arrived => true,
        _ => false,
    }
}

fn is_at(wanted: Option<u64>, cost: u128) -> bool
    ensures { result ≡ is_at_cost wanted cost }
{
    match wanted {
        Some(wanted) => cost == u128::from(wanted),
        None => true,
    }
}

// The lines of a walk that does not arrive as expected.
fn unarrived_lines(alloc: Global, expected: &Expected, walk: &Walk) -> Result<String, AllocError>
    ensures { IfOk result (λ lines. string_bytes lines
        ≡ unmet_line expected.now ++ walk_line walk.now) }
{
    let mut lines = unmet_line(alloc, expected)?;
    let line = walk_line(alloc, walk)?;
    lines.push_str(&line)?;
    Ok(lines)
}

// The lines if no router runs.
fn nobody_lines(alloc: Global) -> Result<String, AllocError>
    ensures { IfOk result (λ lines. string_bytes lines
        ≡ unmet_line expected.Agree ++ nobody_line) }
{
    let mut lines = unmet_line(alloc, &Expected::Agree)?;
    lines.push_str("no router is running\n")?;
    Ok(lines)
}

// The lines if the premise of the headline does not hold.
fn unmet_headline_lines(
    alloc: Global,
    router: Option<RouterId>,
    found: &Disagreement,
) -> Result<String, AllocError>
    ensures { IfOk result (λ lines. string_bytes lines
        ≡ unmet_line (expected.Headline router) ++ from_line found.now) }
{
    let mut lines = unmet_line(alloc, &Expected::Headline { router })?;
    let line = from_line(alloc, found)?;
    lines.push_str(&line)?;
    Ok(lines)
}

// The lines of two routers with different LSDBs.
fn apart_lines(alloc: Global, two: (RouterId, RouterId)) -> Result<String, AllocError>
    ensures { IfOk result (λ lines. string_bytes lines
        ≡ unmet_line expected.Agree ++ apart_line two) }
{
    let mut lines = unmet_line(alloc, &Expected::Agree)?;
    let line = apart_line(alloc, two)?;
    lines.push_str(&line)?;
    Ok(lines)
}

fn apart_line(alloc: Global, two: (RouterId, RouterId)) -> Result<String, AllocError>
    ensures { IfOk result (λ line. string_bytes line ≡ apart_line two) }
{
    let two = TwoShown(two);
    format!(in alloc; "{two} have different LSDBs\n")
}
