//! What a datagram on loopback holds: the source, the destination, and the packet.

ghost use Rattle.std.specs.Prelude.{◌≡◌, ◌≤◌, IfSome, IfNone, OnOk, length, take};
ghost use Rattle.ospf_drive.specs.UdpWire.Frames.{IsFrameOf, IsPassedOver, frame_bytes};

use crate::{LONGEST, Sent};
use ospf_base::{Addr, u32_at};
use std::alloc::AllocError;

/// The bytes before the packet.
const HEADER: usize = 8;

/// The longest datagram that is taken: a longer one holds more than the
/// longest packet, of 16,384 bytes.
const LONGEST_TAKEN: usize = 16392;

/// What a datagram holds; the packet is the first `length` bytes of the buffer that it came in.
#[derive(Drop)]
pub(crate) struct Frame {
    pub source: Addr,
    pub destination: Addr,
    pub length: usize,
}

/// Reads the datagram of `count` bytes at the front of the buffer, and moves its packet to the
/// front. `None` if the datagram is ignored.
pub(crate) fn read_frame(buffer: &mut [u8; LONGEST], count: usize) -> Option<Frame>
    requires { count ≤ 16393 }
    ensures frame { IfSome result (λ f. IsFrameOf (take count buffer.old) f.source f.destination
        (take f.length buffer.new)) }
    ensures passed_over { IfNone result (IsPassedOver count) }
    ensures taken { IfSome result (λ f. IsPassedOver count → ⊥) }
{
    if count < HEADER || count > LONGEST_TAKEN {
        return None;
    }
    let source = Addr(u32_at(&buffer[..count], 0));
    let destination = Addr(u32_at(&buffer[..count], 4));
    buffer.copy_within(HEADER..count, 0);
    Some(Frame {
        source,
        destination,
        length: count - HEADER,
    })
}

/// Makes the datagram that holds what is sent.
pub(crate) fn write_frame(datagram: &mut Vec<u8>, sent: &Sent) -> Result<(), AllocError>
    ensures { OnOk result (datagram.new.items
        ≡ frame_bytes sent.now.source sent.now.destination sent.now.bytes) }
{
    datagram.clear();
    datagram.extend_from_slice(&sent.source.0.to_be_bytes())?;
    datagram.extend_from_slice(&sent.destination.0.to_be_bytes())?;
    datagram.extend_from_slice(&sent.bytes)
}
