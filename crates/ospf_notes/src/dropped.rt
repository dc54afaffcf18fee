//! What a router drops.

ghost use Rattle.std.specs.Prelude.{◌≡◌};
ghost use Rattle.ospf_notes.specs.Drops.{dropped_in};

use ospf_base::Addr;
use ospf_journal::DroppedAt;
use ospf_run::Step;

/// A packet that arrived: on which link, and from where.
#[derive(Clone, Copy)]
pub(crate) struct Heard {
    pub(crate) link: usize,
    pub(crate) source: Addr,
}

/// What a step dropped: the packet, if one had arrived.
pub(crate) fn dropped_in(step: &Step, heard: Option<Heard>) -> Option<DroppedAt>
    ensures { result ≡ dropped_in heard step.now.dropped }
{
    let (Some(Heard { link, source }), Some(cause)) = (heard, step.dropped) else {
        return None;
    };
    Some(DroppedAt {
        link,
        source,
        cause,
    })
}
