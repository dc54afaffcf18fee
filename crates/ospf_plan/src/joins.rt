//! Joins, and who is joined with whom.

ghost use Rattle.std.specs.Prelude.{◌≡◌, ◌==◌, ◌||◌, ◌↔◌, ◌++◌, ◌∷◌, [], if◌then◌else◌, ℕ, true, IfOk, OnOk};
ghost use Rattle.ospf_plan.specs.Joins.{IsJoined, reached_after, set_has, left, marked_by, touches};

use std::alloc::{AllocError, Global};
use std::collections::BTreeSet;

// Two that are joined.
#[derive(Clone, Copy)]
pub(crate) struct Join {
    pub(crate) one: usize,
    pub(crate) other: usize,
}

/// The places that are joined with one, by one join or several, itself among them.
pub(crate) fn joined_with(
    alloc: Global,
    one: usize,
    joins: &[Join],
) -> Result<BTreeSet<usize>, AllocError>
    ensures { IfOk result (λ reached. (q : ℕ) → (set_has reached q ≡ true)
        ↔ IsJoined joins.now one q) }
{
    let mut reached = BTreeSet::new(alloc);
    add(&mut reached, one)?;
    let mut rest = Vec::from_slice(alloc, joins)?;
    let mut before = rest.len() + 1;
    while rest.len() < before {
        before = rest.len();
        rest = pass(alloc, &mut reached, &rest)?;
    }
    Ok(reached)
}

// Adds one to those that are reached.
fn add(reached: &mut BTreeSet<usize>, one: usize) -> Result<(), AllocError>
    ensures { OnOk result ((q : ℕ) → set_has reached.new q
        ≡ (set_has reached.old q || (one == q))) }
{
    match reached.insert(one) {
        Ok(_) => Ok(()),
        Err(_) => Err(AllocError),
    }
}

// Goes over joins once. The answer is those that were not reached.
fn pass(
    alloc: Global,
    reached: &mut BTreeSet<usize>,
    joins: &[Join],
) -> Result<Vec<Join>, AllocError>
    ensures after { OnOk result ((q : ℕ) →
        set_has reached.new q ≡ reached_after (set_has reached.old) joins.now q) }
    ensures rest { IfOk result (λ rest. rest.items ≡ left (set_has reached.old) joins.now) }
{
    let mut rest = Vec::new(alloc);
    for join in joins {
        let touched = visit(reached, join)?;
        push_unless(&mut rest, touched, *join)?;
    }
    Ok(rest)
}

// Reaches both ends of a join where one is reached. The answer is whether one is.
fn visit(reached: &mut BTreeSet<usize>, join: &Join) -> Result<bool, AllocError>
    ensures touched { IfOk result (λ t. t ≡ touches (set_has reached.old) join.now) }
    ensures after { OnOk result ((q : ℕ) →
        set_has reached.new q ≡ marked_by (set_has reached.old) join.now q) }
{
    if !touches(reached, join) {
        return Ok(false);
    }
    add(reached, join.one)?;
    add(reached, join.other)?;
    Ok(true)
}

// Whether an end of a join is reached.
fn touches(reached: &BTreeSet<usize>, join: &Join) -> bool
    ensures { result ≡ touches (set_has reached.now) join.now }
{
    reached.contains(&join.one) || reached.contains(&join.other)
}

// Adds a join, unless it was reached.
fn push_unless(rest: &mut Vec<Join>, touched: bool, join: Join) -> Result<(), AllocError>
    ensures { OnOk result (rest.new.items ≡ rest.old.items ++ (if touched then [] else join ∷ [])) }
{
    if !touched {
        rest.push(join)?;
    }
    Ok(())
}
