//! How many prefixes a failure changes in the tables of all routers.

ghost use Rattle.std.specs.Prelude.{◌≡◌, IfOk, string_bytes};
ghost use Rattle.ospf_table.specs.Sums.{sums_line};

use crate::totals::Totals;
use ospf_whatif::{AreaFailure, RouteChange};
use std::alloc::{AllocError, Global};
use std::fmt::{self, Display, Formatter, Write};

/// How many pairs of a router and a prefix a failure changes, and how; and of how many routers.
#[derive(Clone, Copy, Debug, PartialEq, Eq)]
pub struct Sums {
    /// No longer reached, but still advertised.
    pub cut: u128,
    /// No longer reached, and no longer advertised.
    pub gone: u128,
    /// Reached at a higher cost.
    pub cost: u128,
    /// Reached at the same cost over other hops.
    pub hops: u128,
    /// The routers in whose tables anything changes.
    pub routers: usize,
}

impl Sums {
    ghost use Rattle.std.specs.Prelude.{◌≡◌};
    ghost use Rattle.ospf_table.specs.Sums.{HasSumRoom, sums_plus};

    /// With what changes at one router more.
    pub fn plus(self, changes: &[RouteChange]) -> Sums
        requires { HasSumRoom 1 self }
        ensures { result ≡ sums_plus self changes.now }
    {
        let totals = Totals::of(changes);
        let routers = if changes.is_empty() { 0 } else { 1 };
        Sums {
            cut: self.cut + totals.cut as u128,
            gone: self.gone + totals.gone as u128,
            cost: self.cost + totals.cost as u128,
            hops: self.hops + totals.hops as u128,
            routers: self.routers + routers,
        }
    }
}

/// As `cut 22 gone 5 cost 0 hops 0 routers 5`.
impl Display for Sums {
    ghost use Rattle.std.specs.Prelude.{Some};
    ghost use Rattle.ospf_table.specs.Sums.{sums_text};

    ghost output = { λ sums. Some (sums_text sums) };

    fn fmt<W: Write>(&self, f: &mut Formatter<W>) -> fmt::Result {
        write!(f, "cut {} gone {} ", self.cut, self.gone)?;
        write!(f, "cost {} hops {} ", self.cost, self.hops)?;
        write!(f, "routers {}", self.routers)
    }
}

/// The line of a failure's sums.
///
/// `AllocError` where memory runs out.
pub fn sums_line(alloc: Global, failure: &AreaFailure, sums: Sums) -> Result<String, AllocError>
    ensures { IfOk result (λ line. string_bytes line ≡ sums_line failure.now sums) }
{
    let line = format!(in alloc; "{failure} {sums}\n")?;
    Ok(line)
}
