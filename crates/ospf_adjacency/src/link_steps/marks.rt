//! The marks of copies that were sent.

ghost use Rattle.std.specs.Prelude.{◌≡◌, OnOk};
ghost use Rattle.ospf_adjacency.specs.LinkSteps.Repeats.{marked_all};

use ospf_area::mark;
use ospf_base::LsaKey;
use std::alloc::AllocError;
use std::collections::BTreeSet;

// Marks that copies of these keys were sent in Updates in this tick.
pub(crate) fn mark_all(
    sent: &mut BTreeSet<LsaKey>,
    keys: &BTreeSet<LsaKey>,
) -> Result<(), AllocError>
    ensures { OnOk result (sent.new.keys ≡ marked_all keys.now.keys sent.old.keys) }
{
    for key in keys {
        mark(sent, *key, true)?;
    }
    Ok(())
}
