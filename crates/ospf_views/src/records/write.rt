//! Capture files that are written.

ghost use Rattle.std.specs.Prelude.{◌≡◌, ◌+◌, ◌<◌, ◌≤◌, ◌++◌, ◌↔◌, List, [], ◌∷◌, OnOk, OnErr, Err, length, sum, vec_len, vec_capacity};
ghost use Rattle.ospf_base.specs.Bytes.{number_bytes};
ghost use Rattle.ospf_base.specs.Constants.{ip_header};
ghost use Rattle.ospf_base.specs.Sums.{words};
ghost use Rattle.ospf_views.specs.RecordFiles.Datagram.{captured, datagram_bytes};
ghost use Rattle.ospf_views.specs.RecordFiles.Ip.{ip_header_bytes, header_checksum, header_with_sum, largest_ip_packet};
ghost use Rattle.ospf_views.specs.RecordFiles.Pcap.{Captured, capture_bytes, file_header, record_header};
ghost use Rattle.ospf_views.specs.declared.records.fault.CaptureFault.TheVariants as fault;

use crate::records::fault::CaptureFault;
use crate::records::moment::Moment;
use ospf_base::{Addr, IP_HEADER};
use std::alloc::AllocError;

// The header of a file, in bytes.
const FILE_HEADER: usize = 24;

// What stands before a captured packet, in bytes.
const RECORD_HEADER: usize = 16;

// The longest IP packet.
const LARGEST_IP_PACKET: usize = 65535;

// The words of an IP header that are the same for all packets, added: version,
// header length and Type of Service, the identification, the flags and the fragment
// offset, Time to Live and protocol.
const FIXED_WORDS: u32 = 0x45c0 + 0x0159;

/// Writes what a capture file begins with at the end of the output: libpcap's classic format,
/// version 2.4, with microseconds, for IP packets with nothing before them (LINKTYPE_RAW).
///
/// An `Err` where the output had no room for it and could not grow; the
/// output's bytes are unchanged then.
pub fn write_header(out: &mut Vec<u8>) -> Result<(), AllocError>
    ensures ok { OnOk result (out.new.items ≡ out.old.items ++ file_header) }
    ensures err { OnErr result (out.new.items ≡ out.old.items) }
    ensures memory { OnErr result (vec_capacity out.old < vec_len out.old + length file_header) }
    // What was empty is a capture of no packets then.
    ensures capture { out.old.items ≡ [] → OnOk result (out.new.items ≡ capture_bytes []) }
{
    out.reserve(FILE_HEADER)?;
    push_bytes(
        out,
        &[
            0xa1, 0xb2, 0xc3, 0xd4, 0, 2, 0, 4, 0, 0, 0, 0, 0, 0, 0, 0, 0, 0, 0xff, 0xff, 0, 0, 0,
            101,
        ],
    );
    Ok(())
}

/// Writes a packet that was sent at a moment to the end of a capture, as an IP packet of protocol
/// 89 (RFC 2328, appendix A.1, and RFC 791, section 3.1).
///
/// `TooLong` where the IP packet would be longer than 65,535 bytes, else `Memory` where the output
/// had no room for it and could not grow. The output's bytes are unchanged by each.
pub fn write_datagram(
    out: &mut Vec<u8>,
    at: Moment,
    source: Addr,
    destination: Addr,
    ospf: &[u8],
) -> Result<(), CaptureFault>
    ensures ok { OnOk result (out.new.items ≡ out.old.items
        ++ datagram_bytes at source destination ospf.now) }
    ensures err { OnErr result (out.new.items ≡ out.old.items) }
    ensures too_long { (result ≡ Err fault.TooLong)
        ↔ (largest_ip_packet < ip_header + length ospf.now) }
    ensures memory { (result ≡ Err fault.Memory)
        → vec_capacity out.old < vec_len out.old
        + length (datagram_bytes at source destination ospf.now) }
    // A capture stays one, with this packet after the others.
    ensures capture { (packets : List Captured) → out.old.items ≡ capture_bytes packets
        → OnOk result (out.new.items ≡ capture_bytes (packets
        ++ captured at source destination ospf.now ∷ [])) }
{
    if ospf.len() > LARGEST_IP_PACKET - IP_HEADER {
        return Err(CaptureFault::TooLong);
    }
    let size = IP_HEADER + ospf.len();
    if out.reserve(RECORD_HEADER + size).is_err() {
        return Err(CaptureFault::Memory);
    }
    push_datagram(out, at, source, destination, ospf, size as u16);
    Ok(())
}

// Puts bytes at the end, where there is room for them.
fn push_bytes(out: &mut Vec<u8>, bytes: &[u8])
    requires room { vec_len out.old + length bytes.now ≤ vec_capacity out.old }
    ensures bytes { out.new.items ≡ out.old.items ++ bytes.now }
    ensures capacity { vec_capacity out.old ≤ vec_capacity out.new }
{
    // Refused only where there is no room.
    let _ = out.extend_from_slice(bytes);
}

// Puts the record of a packet at the end, where there is room for it.
// The IP packet has so many bytes.
fn push_datagram(
    out: &mut Vec<u8>,
    at: Moment,
    source: Addr,
    destination: Addr,
    ospf: &[u8],
    size: u16,
)
    requires size { size ≡ ip_header + length ospf.now }
    requires room { vec_len out.old + (RECORD_HEADER + size) ≤ vec_capacity out.old }
    ensures { out.new.items ≡ out.old.items ++ datagram_bytes at source destination ospf.now }
{
    push_bytes(out, &record_header_of(at, size));
    push_bytes(out, &ip_header_of(size, source, destination));
    push_bytes(out, ospf);
}

// What stands before a captured packet of so many bytes.
fn record_header_of(at: Moment, size: u16) -> [u8; 16]
    ensures { result ≡ record_header at.seconds at.microseconds size }
{
    let [a, b, c, d] = at.seconds.to_be_bytes();
    let [e, f, g, h] = at.microseconds.to_be_bytes();
    let [i, j] = size.to_be_bytes();
    [a, b, c, d, e, f, g, h, 0, 0, i, j, 0, 0, i, j]
}

// The header of an IP packet of so many bytes.
fn ip_header_of(size: u16, source: Addr, destination: Addr) -> [u8; 20]
    ensures { result ≡ ip_header_bytes size source.0 destination.0 }
{
    let [a, b] = size.to_be_bytes();
    let [c, d] = header_sum(size, source, destination).to_be_bytes();
    let [e, f, g, h] = source.0.to_be_bytes();
    let [i, j, k, l] = destination.0.to_be_bytes();
    [
        0x45, 0xc0, a, b, 0, 0, 0, 0, 1, 89, c, d, e, f, g, h, i, j, k, l,
    ]
}

// The checksum of a header.
fn header_sum(size: u16, source: Addr, destination: Addr) -> u16
    ensures { result ≡ header_checksum (header_with_sum size source.0 destination.0 0) }
{
    let total = header_words(size, source, destination);
    (65534 - (total - 1) % 65535) as u16
}

// The words of a header without its checksum, added.
fn header_words(size: u16, source: Addr, destination: Addr) -> u32
    ensures { result ≡ sum (words (header_with_sum size source.0 destination.0 0)) }
{
    FIXED_WORDS + u32::from(size) + address_words(source) + address_words(destination)
}

// The two words of an address, added.
fn address_words(address: Addr) -> u32
    ensures { result ≡ sum (words (number_bytes 4 address.0)) }
{
    address.0 / 65536 + address.0 % 65536
}
