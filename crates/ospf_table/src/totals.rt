//! How many prefixes of a table a failure changes.

ghost use Rattle.std.specs.Prelude.{◌≡◌, IfOk, string_bytes};
ghost use Rattle.ospf_table.specs.Changes.{count_of, is_cut, is_dearer, is_gone, is_moved, totals_line};

use ospf_whatif::{AreaFailure, Loss, RouteChange};
use std::alloc::{AllocError, Global};
use std::fmt::{self, Display, Formatter, Write};

/// How many prefixes of a table a failure changes, and how.
#[derive(Clone, Copy, Debug, PartialEq, Eq)]
pub struct Totals {
    /// No longer reached, but still advertised.
    pub cut: usize,
    /// No longer reached, and no longer advertised.
    pub gone: usize,
    /// Reached at a higher cost.
    pub cost: usize,
    /// Reached at the same cost over other hops.
    pub hops: usize,
}

impl Totals {
    ghost use Rattle.std.specs.Prelude.{◌≡◌};
    ghost use Rattle.ospf_table.specs.Changes.{totals_of};

    /// The totals of changes.
    pub fn of(changes: &[RouteChange]) -> Totals
        ensures { result ≡ totals_of changes.now }
    {
        Totals {
            cut: count_cut(changes),
            gone: count_gone(changes),
            cost: count_dearer(changes),
            hops: count_moved(changes),
        }
    }
}

/// As `cut 1 gone 0 cost 2 hops 0`.
impl Display for Totals {
    ghost use Rattle.std.specs.Prelude.{Some};
    ghost use Rattle.ospf_table.specs.Changes.{totals_text};

    ghost output = { λ totals. Some (totals_text totals) };

    fn fmt<W: Write>(&self, f: &mut Formatter<W>) -> fmt::Result {
        write!(
            f,
            "cut {} gone {} cost {} hops {}",
            self.cut, self.gone, self.cost, self.hops
        )
    }
}

// The line of a failure's totals.
pub(crate) fn totals_line(
    alloc: Global,
    failure: &AreaFailure,
    totals: Totals,
) -> Result<String, AllocError>
    ensures { IfOk result (λ line. string_bytes line ≡ totals_line failure.now totals) }
{
    let line = format!(in alloc; "{failure} {totals}\n")?;
    Ok(line)
}

// How many prefixes are cut off.
fn count_cut(changes: &[RouteChange]) -> usize
    ensures { result ≡ count_of is_cut changes.now }
{
    changes.iter().filter(|change| is_cut(change)).count()
}

fn is_cut(change: &RouteChange) -> bool
    ensures { result ≡ is_cut change.now.loss }
{
    matches!(change.loss, Loss::Cut)
}

// How many prefixes are gone.
fn count_gone(changes: &[RouteChange]) -> usize
    ensures { result ≡ count_of is_gone changes.now }
{
    changes.iter().filter(|change| is_gone(change)).count()
}

fn is_gone(change: &RouteChange) -> bool
    ensures { result ≡ is_gone change.now.loss }
{
    matches!(change.loss, Loss::Gone)
}

// How many prefixes cost more.
fn count_dearer(changes: &[RouteChange]) -> usize
    ensures { result ≡ count_of is_dearer changes.now }
{
    changes.iter().filter(|change| is_dearer(change)).count()
}

fn is_dearer(change: &RouteChange) -> bool
    ensures { result ≡ is_dearer change.now.loss }
{
    matches!(change.loss, Loss::Dearer(_))
}

// How many prefixes have other hops.
fn count_moved(changes: &[RouteChange]) -> usize
    ensures { result ≡ count_of is_moved changes.now }
{
    changes.iter().filter(|change| is_moved(change)).count()
}

fn is_moved(change: &RouteChange) -> bool
    ensures { result ≡ is_moved change.now.loss }
{
    matches!(change.loss, Loss::Moved(_))
}
