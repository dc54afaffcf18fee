//! Counts by key.

ghost use Rattle.std.specs.Prelude.{◌≡◌, OnOk};
ghost use Rattle.ospf_views.specs.RecordFiles.Counts.{IsOneMoreOf, count_in};

use std::alloc::AllocError;
use std::collections::BTreeMap;

/// How often a key was counted, as far as 32 bits go.
pub(crate) fn count(counts: &BTreeMap<u32, u32>, key: u32) -> u32
    ensures { result ≡ count_in counts.now key }
{
    counts.get(&key).copied().unwrap_or(0)
}

/// Counts a key once more.
#[tactic(auto, unfolding(crate::specs::RecordFiles::Counts::counted_more))]
pub(crate) fn count_one(counts: &mut BTreeMap<u32, u32>, key: u32) -> Result<(), AllocError>
    ensures { OnOk result (IsOneMoreOf key counts.old counts.new) }
{
    let before = count(counts, key);
    let now = if before < u32::MAX {
        before + 1
    } else {
        before
    };
    match counts.insert(key, now) {
        Ok(_) => Ok(()),
        Err(_) => Err(AllocError),
    }
}
