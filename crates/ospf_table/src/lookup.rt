//! Addresses that are looked up in a published table.

ghost use Rattle.std.specs.Prelude.{◌≡◌, ◌++◌, ◌∷◌, ℕ, List, [], IfOk, IfErr, OnErr, OnOk};
ghost use Rattle.std.specs.Io.KnownBytes.{Appends};
ghost use Rattle.ospf_graph.specs.declared.route.Route.{Route};
ghost use Rattle.ospf_fib.specs.PrefixIndex.Known.{opening};
ghost use Rattle.ospf_fib.specs.Answers.{IsAnswerOfLast};
ghost use Rattle.ospf_table.specs.Cut.{AreLookupsBefore, AreLookupsBegun, IsLookupCut};
ghost use Rattle.ospf_table.specs.Output.{AreLookups};

use ospf_base::Addr;
use ospf_fib::{Answer, Closed, Fib, OpenRefused, Seat, Writer};
use ospf_files::{FailedStreams, Failure, print_lookup};
use ospf_spf::RouteTable;
use std::alloc::Global;
use std::io::Write;
use std::sync::Wait;

// Publishes a table, and lets a seat learn it. The writer's end closes the seat; it waits by `rt`.
pub(crate) fn publish_once<W: Wait + Drop>(
    alloc: Global,
    rt: W,
    table: &RouteTable,
) -> Result<(Writer<W>, Seat), OpenRefused>
    ensures seat { IfOk result (λ opened. opened.1 ≡ opened.0) }
    ensures published { IfOk result (λ opened. opened.0.tables ≡ opening ++ table.now ∷ []) }
{
    let (mut writer, mut seats) = Fib::open(alloc, rt, 1)?;
    let mut seat = seats.pop().ok_or(OpenRefused)?;
    seat.learn(writer.publish(table)?);
    Ok((writer, seat))
}

// Prints where the published table sends what is on its way to each address.
pub(crate) fn print_lookups<W: Wait + Drop, O: Write>(
    alloc: Global,
    writer: &mut Writer<W>,
    seat: &mut Seat,
    addresses: &[Addr],
    out: &mut O,
    streams: &mut FailedStreams,
) -> Result<(), Failure>
    requires { seat.old ≡ writer.old }
    ensures lookups { (table : List Route) → writer.old.tables ≡ opening ++ table ∷ [] →
        OnOk result ((lines : List ℕ) × AreLookups table addresses.now lines
        × Appends (O.contents out.old) (O.contents out.new) lines) }
    ensures begun { (table : List Route) → writer.old.tables ≡ opening ++ table ∷ [] →
        OnErr result (AreLookupsBegun table addresses.now (O.contents out.old) (O.contents
        out.new)) }
    ensures cut { (table : List Route) → writer.old.tables ≡ opening ++ table ∷ [] →
        IfErr result (IsLookupCut streams.new
        (AreLookupsBefore table addresses.now (O.contents out.old) (O.contents out.new))) }
{
    for address in addresses {
        let Ok(answer) = look_up(writer, seat, *address) else {
            return Err(Failure::Closed);
        };
        print_lookup(alloc, *address, answer, out, streams)?;
    }
    Ok(())
}

// What the seat finds, which knows all that was published: the writer is here meanwhile.
fn look_up<W: Wait + Drop>(
    writer: &mut Writer<W>,
    seat: &mut Seat,
    address: Addr,
) -> Result<Option<Answer>, Closed>
    requires { seat.old ≡ writer.old }
    ensures writer { writer.new ≡ writer.old }
    ensures seat { IfOk result (λ _. seat.new ≡ writer.old) }
    ensures answer { IfOk result (λ answer. IsAnswerOfLast writer.old.tables address 0 answer) }
{
    let answer = seat.lookup(address, 0)?;
    writer.covers(seat);
    Ok(answer)
}
