//! The seats, from which addresses are looked up.

ghost use Rattle.std.specs.Prelude.{◌≡◌, ◌⊎◌, IfOk, OnErr};
ghost use mathlib.Core.List.{IsPrefix};
ghost use Rattle.left_right.specs.Sides.{view};
ghost use Rattle.ospf_fib.specs.Answers.{IsAnswerOfLast};
ghost use Rattle.ospf_fib.specs.Rule.{IsKnownBook};

use crate::answer::{Answer, answer_of_shown};
use crate::index::Published;
use crate::rule::{Enters, Knows, OneList};
use crate::shown::ShownTable;
use core::mem::replace_with;
use left_right::reader::Reader;
use ospf_base::Addr;
use std::fmt::{self, Display, Formatter, Write};
use std::marker::Model;

/// The writer is gone.
#[derive(Clone, Copy, Debug, PartialEq, Eq, thiserror::Error)]
pub struct Closed;

/// Its name: `Closed`.
impl Display for Closed {
    ghost use Rattle.std.specs.Prelude.{Some};
    ghost use Rattle.ospf_fib.specs.Text.{closed_text};

    ghost output = { λ _. Some closed_text };

    fn fmt<W: Write>(&self, f: &mut Formatter<W>) -> fmt::Result {
        f.write_str("Closed")
    }
}

/// What a publish returns: the tables that were published by then.
#[derive(Drop)]
pub struct Told {
    pub(crate) known: Published,
}

impl Model for Told {
    ghost use Rattle.ospf_fib.specs.PrefixIndex.Known.{Known};

    ghost Value = { Known };

    ghost view = { λ t. t.known };
}

impl Told {
    ghost use Rattle.std.specs.Prelude.{◌↔◌, IsTrue};

    /// The same, for another seat. No memory is allocated.
    pub fn copy(&self) -> Told
        ensures { result ≡ self.now }
    {
        Told {
            known: self.known.copy(),
        }
    }

    /// Whether all that a seat knows was published by then. The seat is of the same `Fib::open`.
    pub fn covers(&self, seat: &Seat) -> bool
        requires { seat.now.fib ≡ self.now.fib }
        ensures { IsTrue result ↔ IsPrefix seat.now.tables self.now.tables }
    {
        seat.known.begins(&self.known)
    }
}

/// A thread's place at a forwarding table. Proofs see the tables that it knows to be published;
/// it stores no table and no answer.
pub struct Seat {
    reader: Reader<ShownTable, Knows, OneList>,
    pub(crate) known: Published,
}

impl Model for Seat {
    ghost use Rattle.left_right.specs.Sides.{view as view_of};
    ghost use Rattle.ospf_fib.specs.PrefixIndex.Known.{Known};
    ghost use Rattle.ospf_fib.specs.Rule.{IsKnownBook};

    ghost Value = { Known };

    ghost view = { λ s. s.known };

    ghost invariant = { λ s. IsKnownBook (view_of s.reader.place) s.known.fib };
}

impl Drop for Seat {
    fn drop(self) {
        let Self { reader, known: _ } = self;
        drop(reader);
    }
}

impl Seat {
    /// The answer of the last published table that the seat then knows: its route of longest prefix
    /// that holds the address (RFC 2328, section 11.1), with the hop at `choice` modulo the number
    /// of hops; `None` where no route's prefix holds it. It does not wait and allocates no memory.
    ///
    /// `Closed` where the writer is gone; that there is no other reason for it is not proved.
    pub fn lookup(&mut self, address: Addr, choice: u32) -> Result<Option<Answer>, Closed>
        ensures fib { self.new.fib ≡ self.old.fib }
        ensures known { IfOk result (λ _. IsPrefix self.old.tables self.new.tables) }
        ensures answer { IfOk result (IsAnswerOfLast self.new.tables address choice) }
        ensures closed { OnErr result (self.new.tables ≡ self.old.tables) }
    {
        let known = self.known.copy();
        let (known, answer) = replace_with(
            &mut self.reader,
            (known, address, choice),
            |reader, asked| look_up(reader, asked.0, asked.1, asked.2),
        );
        self.known = known;
        answer
    }

    /// Takes in the result of a publish: lookups from here on answer from its table or a later one.
    /// It does not wait and allocates no memory. The seat and the result are of one `Fib::open`.
    pub fn learn(&mut self, told: Told)
        requires { told.fib ≡ self.old.fib }
        // It remains a seat of the same table, and forgets nothing.
        ensures fib { self.new.fib ≡ self.old.fib }
        ensures own { IsPrefix self.old.tables self.new.tables }
        // It knows the tables of the result too, and its list is the old one or that of the result.
        ensures told { IsPrefix told.tables self.new.tables }
        ensures one { (self.new.tables ≡ self.old.tables) ⊎ (self.new.tables ≡ told.tables) }
    {
        self.known.take_later(&told.known);
    }

    pub(crate) fn new(reader: Reader<ShownTable, Knows, OneList>, known: Published) -> Seat
        requires { IsKnownBook (view reader.place) known.fib }
        ensures { result ≡ known }
    {
        Seat { reader, known }
    }
}

// Enters, and looks the address up in what is shown. That is live and no earlier than what was
// known, which is not proved: else the answer is `Closed`.
fn look_up(
    reader: Reader<ShownTable, Knows, OneList>,
    known: Published,
    address: Addr,
    choice: u32,
) -> (
    Reader<ShownTable, Knows, OneList>,
    (Published, Result<Option<Answer>, Closed>),
)
    requires { IsKnownBook (view reader.place) known.fib }
    // The reader remains one of the same table.
    ensures named { IsKnownBook (view result.0.place) known.fib }
    ensures fib { result.1.0.fib ≡ known.fib }
    // An answer is that of the last table of a list that continues where the known one ended.
    ensures known { IfOk result.1.1 (λ _. IsPrefix known.tables result.1.0.tables) }
    ensures answer { IfOk result.1.1 (IsAnswerOfLast result.1.0.tables address choice) }
    // Without one the known list is unchanged.
    ensures closed { OnErr result.1.1 (result.1.0.tables ≡ known.tables) }
{
    match reader.enter_as::<Enters>() {
        Ok(reading) => {
            let shown = reading.get();
            let found = shown.known.known();
            if shown.live && known.begins(&found) {
                let answer = answer_of_shown(shown, address, choice);
                (reading.leave(), (found, Ok(answer)))
            } else {
                (reading.leave(), (known, Err(Closed)))
            }
        }
        Err(reader) => (reader, (known, Err(Closed))),
    }
}
