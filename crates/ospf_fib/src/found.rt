//! What a lookup found, as it is shown.

use crate::answer::Answer;
use ospf_base::Addr;
use std::fmt::{self, Display, Formatter};

/// An address with what a lookup found for it. `Display` writes the word `lookup`, the address,
/// the prefix, the cost and the hop.
#[derive(Clone, Copy)]
pub struct Found {
    pub address: Addr,
    pub answer: Answer,
}

impl Display for Found {
    ghost use Rattle.std.specs.Prelude.{Some};
    ghost use Rattle.ospf_fib.specs.Found.{found_text};

    ghost output = { λ f. Some
        (found_text f.address.0 f.answer.prefix f.answer.cost f.answer.hop) };

    fn fmt<W: fmt::Write>(&self, f: &mut Formatter<W>) -> fmt::Result {
        let Answer {
            prefix,
            cost,
            hop,
            ..
        } = self.answer;
        write!(f, "lookup {} {prefix} {cost} {hop}", self.address)
    }
}
