//! A table that is made that of a tree, prefix by prefix.

ghost use Rattle.std.specs.Prelude.{◌≢◌, ◌↔◌, List, IfOk, IsTrue, OnOk};
ghost use Rattle.ospf_graph.specs.EdgeLists.Listed.{advertisements_of};
ghost use Rattle.ospf_graph.specs.Advertisements.{Advertisement};
ghost use Rattle.ospf_graph.specs.Routes.{IsTable};
ghost use Rattle.ospf_spf.specs.Spared.{SparesBut};

use crate::growing::GrowingTree;
use ospf_base::Prefix;
use ospf_spf::RouteTable;
use std::alloc::{AllocError, Global};

/// Makes a table that of a tree by its routes to the prefixes at which the two may differ.
/// Returns whether the table changed.
///
/// `AllocError` where memory runs out; then some prefixes may be those of the tree.
pub(crate) fn turn_table(
    table: &mut RouteTable,
    tree: &GrowingTree,
    touched: &[Prefix],
    alloc: Global,
) -> Result<bool, AllocError>
    requires { (A : List Advertisement) × IsTable A tree.now.root table.old
        × SparesBut touched.now A (advertisements_of tree.now.listing) tree.now.root }
    ensures table { OnOk result (IsTable (advertisements_of tree.now.listing) tree.now.root
        table.new) }
    ensures changed { IfOk result (λ b. IsTrue b ↔ (table.new ≢ table.old)) }
{
    // For the proof.
    let _in_order = table.routes();
    let mut is_other = false;
    for prefix in touched {
        let change = tree.change_to(alloc, *prefix)?;
        if table.change(change)? {
            is_other = true;
        }
    }
    Ok(is_other)
}
