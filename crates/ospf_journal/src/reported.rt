//! What a step of a router reports.

ghost use Rattle.std.specs.Prelude.{◌≡◌, IfOk, map};
ghost use Rattle.ospf_lsa.specs.Lsa.{instance_of};

use crate::change::DroppedAt;
use ospf_base::Instance;
use ospf_lsa::Lsa;
use std::alloc::{AllocError, Global};
use std::marker::Model;

/// What a step of a router reports to a journal.
#[derive(Drop)]
pub struct Reported {
    /// The datagram that it dropped, if it did.
    pub dropped: Option<DroppedAt>,
    /// The instances of the router's own LSAs that it issued, in the order in which it did.
    pub issued: Vec<Instance>,
}

impl Model for Reported {
    ghost use Rattle.ospf_journal.specs.Reports.{ReportedValue};

    ghost Value = { ReportedValue };

    ghost view = { λ r. record { dropped = r.dropped; issued = r.issued.items } };
}

impl Reported {
    ghost use Rattle.std.specs.Prelude.{◌≡◌, IfOk, map};
    ghost use Rattle.ospf_journal.specs.Reports.{nothing_reported};
    ghost use Rattle.ospf_lsa.specs.Lsa.{instance_of};

    /// A step that drops nothing and issues nothing. No memory is taken.
    pub fn nothing(alloc: Global) -> Reported
        ensures { result ≡ nothing_reported }
    {
        Reported {
            dropped: None,
            issued: Vec::new(alloc),
        }
    }

    /// A step that drops this, if anything, and issues these LSAs, as `Outputs::issued` has them.
    ///
    /// `AllocError` where memory runs out.
    pub fn of(
        dropped: Option<DroppedAt>,
        issued: &[Lsa],
        alloc: Global,
    ) -> Result<Reported, AllocError>
        ensures { IfOk result (λ reported. reported
            ≡ record { dropped = dropped; issued = map instance_of issued.now }) }
    {
        let issued = instances_of(issued, alloc)?;
        Ok(Reported { dropped, issued })
    }
}

// The instances of LSAs.
fn instances_of(lsas: &[Lsa], alloc: Global) -> Result<Vec<Instance>, AllocError>
    ensures { IfOk result (λ instances. instances.items ≡ map instance_of lsas.now) }
{
    let mut instances = Vec::with_capacity(alloc, lsas.len())?;
    for lsa in lsas {
        instances.push(lsa.view().instance())?;
    }
    Ok(instances)
}
