//! Routers whose drivers have ended.

ghost use Rattle.std.specs.Prelude.{◌≡◌, IfErr, IfOk, IfSome, IsSome, OnErr, length};
ghost use mathlib.Core.List.{IsPrefix};
ghost use Rattle.ospf_drive.specs.Moments.{Moment};
ghost use Rattle.ospf_fib.specs.Answers.{IsAnswerOfLast};
ghost use Rattle.ospf_fib.specs.PrefixIndex.Known.{opening};
ghost use Rattle.ospf_run.specs.Cut.{FailsPlan};
ghost use Rattle.ospf_run.specs.Runs.{AreOutcomes, Came, IsLookedUp, IsPublishTold, Ran, RoutersRan, Terms};

use crate::look::RouterSeat;
use crate::outcome::{Looked, Outcome, RouterShown};
use ospf_base::Addr;
use ospf_config::Config;
use ospf_drive::udp::put;
use ospf_drive::{DriveFault, Driven, Machine, all_ticks_are_taken};
use ospf_fib::{Answer, Closed, Seat, Told, Writer};
use ospf_files::{Failure, NamedFile};
use std::alloc::Global;
use std::sync::Wait;
use std::thread::Threads;

/// Returns the outcomes of the routers of files, in their order.
pub(crate) fn finish_all<'a, M: Machine, R: Wait + Drop, S: Threads>(
    rt: &S,
    alloc: Global,
    files: &'a [NamedFile],
    configs: &[Config],
    driven: Vec<Driven<R>>,
    seats: Vec<RouterSeat>,
    lookup: Option<Addr>,
) -> Result<Vec<Outcome<'a>>, Failure>
    requires files { length files.now ≡ length configs.now }
    requires ended { (terms : Terms)
        × RoutersRan M.rules terms configs.now driven.items seats.items }
    ensures outcomes { (terms : Terms) →
        RoutersRan M.rules terms configs.now driven.items seats.items →
        IfOk result (λ all. AreOutcomes M.rules lookup terms files.now configs.now all.items) }
    ensures early { IfErr result (FailsPlan lookup files.now) }
{
    let mut outcomes = Vec::with_capacity(alloc, configs.len())?;
    let mut driven = driven.into_iter();
    let mut seats = seats.into_iter();
    for (place, config) in configs.iter().enumerate() {
        let Some(ended) = driven.next() else {
            unreachable!()
        };
        let Some(router_seat) = seats.next() else {
            unreachable!()
        };
        let Ok(came) = finish::<M, R, S>(rt, ended, router_seat, lookup) else {
            return Err(Failure::Closed);
        };
        let outcome = outcome_of(&files[place], config, came);
        put(&mut outcomes, outcome)?;
    }
    Ok(outcomes)
}

// Returns the result of a router: its driver has ended, and its seat is at rest.
fn finish<M: Machine, R: Wait + Drop, S: Threads>(
    rt: &S,
    driven: Driven<R>,
    router_seat: RouterSeat,
    lookup: Option<Addr>,
) -> Result<Result<RouterShown, DriveFault>, Closed>
    requires { (a : Moment) × Ran M.rules a driven router_seat }
    ensures came { (a : Moment) → Ran M.rules a driven router_seat →
        IfOk result (Came M.rules lookup a) }
    ensures asked { OnErr result (IsSome lookup) }
{
    // For the proof.
    all_ticks_are_taken::<M>();
    let (router, writer, told) = match driven {
        Ok(driven) => driven,
        Err(fault) => return Ok(Err(fault)),
    };
    let Some(seat) = router_seat.into_seat(rt) else {
        return Ok(Err(DriveFault::Thread));
    };
    match look_if_asked(writer, seat, told, lookup) {
        Ok(looked) => Ok(Ok(RouterShown { router, looked })),
        Err(Closed) => Err(Closed),
    }
}

// Looks up the address, if there is one, in the table that was published last.
fn look_if_asked<R: Wait + Drop>(
    mut writer: Writer<R>,
    seat: Seat,
    told: Option<Told>,
    lookup: Option<Addr>,
) -> Result<Option<Looked>, Closed>
    requires fib { seat.fib ≡ writer.fib }
    requires began { IsPrefix opening seat.tables }
    requires told { IsPublishTold writer told }
    // The answer, if an address is given; the table is not closed if there is none.
    ensures looked { IfOk result (IsLookedUp lookup writer.tables) }
    ensures asked { OnErr result (IsSome lookup) }
{
    let Some(address) = lookup else {
        return Ok(None);
    };
    let answer = look_last(&mut writer, seat, told, address)?;
    Ok(Some(Looked { address, answer }))
}

// Looks up an address in the table that was published last. Nothing is published meanwhile: the
// writer is here.
fn look_last<R: Wait + Drop>(
    writer: &mut Writer<R>,
    seat: Seat,
    told: Option<Told>,
    address: Addr,
) -> Result<Option<Answer>, Closed>
    requires fib { seat.fib ≡ writer.old.fib }
    requires began { IsPrefix opening seat.tables }
    requires told { IsPublishTold writer.old told }
    ensures { IfOk result (IsAnswerOfLast writer.old.tables address 0) }
{
    let mut seat = learned(seat, told);
    let answer = seat.lookup(address, 0)?;
    writer.covers(&seat);
    Ok(answer)
}

// Lets the seat learn the last publish.
fn learned(mut seat: Seat, told: Option<Told>) -> Seat
    requires { IfSome told (λ t. t.fib ≡ seat.fib) }
    ensures fib { result.fib ≡ seat.fib }
    ensures own { IsPrefix seat.tables result.tables }
    ensures told { IfSome told (λ t. IsPrefix t.tables result.tables) }
{
    match told {
        Some(told) => {
            seat.learn(told);
            seat
        }
        None => seat,
    }
}

// Makes the outcome of the router of a file.
fn outcome_of<'a>(
    file: &'a NamedFile,
    config: &Config,
    came: Result<RouterShown, DriveFault>,
) -> Outcome<'a>
    ensures file { result.file.now ≡ file.now }
    ensures router { result.router ≡ config.now.router_id }
    ensures came { result.came ≡ came }
{
    Outcome {
        file,
        router: config.router_id,
        came,
    }
}
