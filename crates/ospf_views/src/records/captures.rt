//! Captures of what was sent.

ghost use Rattle.std.specs.Prelude.{◌≡◌, IfOk};
ghost use Rattle.ospf_views.specs.RecordFiles.Captures.{capture_of};

use crate::records::recorder::Recorder;
use crate::records::write::write_header;
use ospf_world::World;
use std::alloc::{AllocError, Global};

/// All datagrams that the routers of a world sent, in order, as a capture file: the second of each
/// is the number of ticks that its router had taken when it was sent, as far as 32 bits go, and its
/// microsecond how many datagrams of that second were sent before it, as far as a second goes. One
/// that fits into no IP packet is left out.
///
/// `AllocError` where memory runs out.
pub fn capture(world: &World, alloc: Global) -> Result<Vec<u8>, AllocError>
    ensures { IfOk result (λ out. out.items ≡ capture_of world.now.ticks world.now.logs.datagrams) }
{
    let mut out = Vec::new(alloc);
    write_header(&mut out)?;
    Recorder::new(alloc).add_sent(&mut out, world)?;
    Ok(out)
}
