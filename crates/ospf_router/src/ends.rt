//! Ends in the order of their prefixes, of which some are replaced.

ghost use Rattle.std.specs.Prelude.{◌≡◌, ◌↔◌, ◌⊎◌, OnOk, Contains, IsTrue, filter, not};
ghost use Rattle.ospf_graph.specs.declared.edges.end.End.{End};
ghost use Rattle.ospf_graph.specs.Search.{vertex_eq};
ghost use Rattle.ospf_router.specs.Ends.{HoldsEndsAt, LeavesEnds, ReplacesEnds};
ghost use Rattle.ospf_spf.specs.Spared.{AreEndsInOrder};

use ospf_graph::edges::End;
use ospf_graph::{Vertex, is_same};
use ospf_spf::{ends_to, prefix_order};
use std::alloc::{AllocError, Global};

/// Ends in order, once those at a vertex, which were among some, are replaced. An end that stays is
/// not moved, as long as none is removed.
///
/// `AllocError` where memory runs out.
pub(crate) fn replace_ends(
    ends: &mut Vec<End>,
    vertex: Vertex,
    were: &[End],
    at: &[End],
) -> Result<(), AllocError>
    requires in_order { AreEndsInOrder ends.old.items }
    requires were { HoldsEndsAt vertex were.now ends.old.items }
    ensures members { OnOk result (ReplacesEnds vertex at.now ends.old.items ends.new.items) }
    ensures in_order { OnOk result (AreEndsInOrder ends.new.items) }
{
    leave_those(ends, vertex, were, at);
    for end in at {
        insert_end(ends, *end)?;
    }
    Ok(())
}

// Leaves out the ends at a vertex, which were among some, if one of these is not among others.
fn leave_those(ends: &mut Vec<End>, vertex: Vertex, were: &[End], at: &[End])
    requires in_order { AreEndsInOrder ends.old.items }
    requires were { HoldsEndsAt vertex were.now ends.old.items }
    ensures left { LeavesEnds vertex at.now ends.old.items ends.new.items }
    ensures in_order { AreEndsInOrder ends.new.items }
{
    if !are_among(were, at) {
        leave_out(ends, vertex);
    }
}

// Leaves out the ends at a vertex.
fn leave_out(ends: &mut Vec<End>, vertex: Vertex)
    ensures { ends.new.items ≡ filter (λ e. not (vertex_eq e.vertex vertex)) ends.old.items }
{
    ends.retain(|e| !is_same(e.vertex, vertex));
}

// Puts an end where it belongs, unless it is there.
fn insert_end(ends: &mut Vec<End>, end: End) -> Result<(), AllocError>
    requires { AreEndsInOrder ends.old.items }
    ensures members { OnOk result ((e : End) →
        Contains ends.new.items e ↔ (Contains ends.old.items e ⊎ (end ≡ e))) }
    ensures in_order { OnOk result (AreEndsInOrder ends.new.items) }
{
    if ends_to(ends, end.prefix).contains(&end) {
        return Ok(());
    }
    let order = prefix_order(end.prefix);
    let place = ends.partition_point(|e| prefix_order(e.prefix) <= order);
    ends.insert(place, end)?;
    Ok(())
}

// Whether all of some ends are among others.
fn are_among(some: &[End], others: &[End]) -> bool
    ensures { IsTrue result → (e : End) → Contains some.now e → Contains others.now e }
{
    some.iter().all(|end| others.contains(end))
}
