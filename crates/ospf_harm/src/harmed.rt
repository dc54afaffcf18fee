//! How much a failure harms, among the members of its object.

ghost use Rattle.std.specs.Prelude.{◌≡◌, OnOk};
ghost use Rattle.serde_json.specs.View.{members_view};
ghost use Rattle.ospf_harm.specs.HarmLines.{harmed_members, with_unknown};
ghost use Rattle.ospf_harm.specs.Warnings.{hidden_names};

use crate::element::{put_element, put_harm};
use crate::harm::Harm;
use crate::hidden::HiddenCost;
use crate::warnings::hidden_values;
use ospf_whatif::AreaFailure;
use serde_json::{Map, Value, put};
use std::alloc::{AllocError, Global};

/// Adds what a failure takes and how much it harms, with the interfaces whose costs after it no LSA
/// contains.
///
/// `AllocError` where memory runs out.
pub fn put_harmed(
    alloc: Global,
    members: &mut Map<String, Value>,
    failure: &AreaFailure,
    harm: Harm,
    hidden: &[HiddenCost],
) -> Result<(), AllocError>
    ensures { OnOk result (members_view members.new.entries
        ≡ harmed_members failure.now harm hidden.now (members_view members.old.entries)) }
{
    put_element(alloc, members, failure)?;
    put_harm(alloc, members, harm)?;
    put_unknown(alloc, members, failure, hidden)?;
    Ok(())
}

// Adds the interfaces whose costs after a failure no LSA contains.
fn put_unknown(
    alloc: Global,
    members: &mut Map<String, Value>,
    failure: &AreaFailure,
    hidden: &[HiddenCost],
) -> Result<(), AllocError>
    ensures { OnOk result (members_view members.new.entries
        ≡ with_unknown (hidden_names hidden.now failure.now) (members_view members.old.entries)) }
{
    let names = hidden_values(alloc, hidden, failure)?;
    put(members, alloc, "unknown_costs", Value::Array(names))?;
    Ok(())
}
