//! How many hops the routes of a table may have after changes.

ghost use Rattle.std.specs.Prelude.{◌≡◌, ◌+◌, IfOk, IfSome, sum_by};
ghost use Rattle.ospf_fib.specs.PrefixIndex.Room.{hops_in, hops_put};

use ospf_graph::Route;
use ospf_spf::Change;
use std::alloc::AllocError;

/// How many hops the routes may have in all after the changes.
///
/// `AllocError` where no memory has room for that many.
pub(crate) fn most_hops(routes: &[Route], changes: &[Change]) -> Result<usize, AllocError>
    ensures { IfOk result (λ hops. hops ≡ hops_in routes.now + sum_by hops_put changes.now) }
{
    let old = count_hops(routes).ok_or(AllocError)?;
    let put = count_hops_put(changes).ok_or(AllocError)?;
    old.checked_add(put).ok_or(AllocError)
}

/// How many hops the changes put in all; `None` where the number overflows.
pub(crate) fn count_hops_put(changes: &[Change]) -> Option<usize>
    ensures { IfSome result (λ hops. hops ≡ sum_by hops_put changes.now) }
{
    let mut hops: usize = 0;
    for change in changes {
        hops = hops.checked_add(hops_of_change(change))?;
    }
    Some(hops)
}

// How many hops the routes have in all; `None` where the number overflows.
fn count_hops(routes: &[Route]) -> Option<usize>
    ensures { IfSome result (λ hops. hops ≡ hops_in routes.now) }
{
    let mut hops: usize = 0;
    for route in routes {
        hops = hops.checked_add(route.hops.as_slice().len())?;
    }
    Some(hops)
}

// How many hops a change puts.
fn hops_of_change(change: &Change) -> usize
    ensures { result ≡ hops_put change.now }
{
    match change {
        Change::Put(route) => route.hops.as_slice().len(),
        Change::Gone(_) => 0,
    }
}
