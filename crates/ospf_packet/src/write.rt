//! Packets that are written.

ghost use Rattle.std.specs.Prelude.{◌≡◌, ◌+◌, ◌*◌, ◌^◌, ◌<◌, ◌≤◌, ◌∷◌, ◌++◌, ◌↔◌, IfSome, IfNone, OnSome, OnOk, OnErr, Some, Err, length, take, drop, vec_len, vec_capacity};
ghost use Rattle.std.specs.List.{flat_map, AllByRecursion};
ghost use Rattle.ospf_base.specs.Constants.{largest_packet, lsa_header, packet_header};
ghost use Rattle.ospf_packet.specs.Fields.{hello_fields};
ghost use Rattle.ospf_base.specs.Sums.{packet_checksum};
ghost use Rattle.ospf_lsa.specs.Attached.{routers_bytes, RouterFits};
ghost use Rattle.ospf_packet.specs.Headers.{aged_bytes, AgedFits};
ghost use Rattle.ospf_packet.specs.Meaning.{packet_body_type, packet_body_bytes, head_bytes, no_authentication, with_packet_sum, packet_bytes, PacketBodyFits, CountFits, MeaningFits};
ghost use Rattle.ospf_packet.specs.PacketOf.{packet_of};
ghost use Rattle.ospf_packet.specs.Requests.{request_entry_bytes, RequestEntryFits};
ghost use Rattle.ospf_packet.specs.Said.{body_meant, meant};
ghost use Rattle.ospf_packet.specs.Slices.{lsas_bytes, IsSlice};
ghost use Rattle.ospf_packet.specs.declared.fault.WriteFault.TheVariants as fault;

use crate::entry::RequestEntry;
use crate::fault::WriteFault;
use crate::layout::{
    ACKNOWLEDGMENT, COUNT_SIZE, DESCRIPTION, DESCRIPTION_FIELDS, HELLO, HELLO_FIELDS, REQUEST,
    REQUEST_SIZE, ROUTER_SIZE, SUM_AT, SUM_LOW_AT, UPDATE, VERSION,
};
use crate::value::{BodyValue, PacketValue};
use ospf_base::{AreaId, LARGEST_PACKET, LSA_HEADER, MAX_AGE, PACKET_HEADER, RouterId, packet_sum};
use ospf_lsa::{Lsa, LsaHeader};

/// Writes a packet at the end: its checksum is right, and its authentication is zeros (RFC
/// 2328, appendices A.3 and D.4).
///
/// `TooLong` where the packet is longer than `LARGEST_PACKET`, else `Memory` where the output had
/// no room for it and could not grow. The output is unchanged by each.
pub fn write_packet(value: &PacketValue, out: &mut Vec<u8>) -> Result<(), WriteFault>
    // The packet is appended to what was there, and reads back as what it was made of.
    ensures ok { OnOk result (out.new.items ≡ out.old.items ++ packet_bytes (meant value.now)) }
    ensures again { OnOk result (packet_of (packet_bytes (meant value.now))
        ≡ Some (meant value.now)) }
    // A refusal leaves the output unchanged: `TooLong` exactly where the packet is that long,
    ensures err { OnErr result (out.new.items ≡ out.old.items) }
    ensures too_long { (result ≡ Err fault.TooLong)
        ↔ (largest_packet < length (packet_bytes (meant value.now))) }
    // and out of memory only where there is no room for it.
    ensures memory { (result ≡ Err fault.Memory)
        → vec_capacity out.old < vec_len out.old + length (packet_bytes (meant value.now)) }
{
    let Some(length) = body_length(&value.body) else {
        return Err(WriteFault::TooLong);
    };
    let size = PACKET_HEADER + length;
    if out.reserve(size).is_err() {
        return Err(WriteFault::Memory);
    }
    push_packet(out, value, size as u16);
    Ok(())
}

// The number of bytes of a body, unless a packet does not hold it.
fn body_length(body: &BodyValue) -> Option<usize>
    ensures found { IfSome result (λ n. (n ≡ length (packet_body_bytes (body_meant body.now)))
        × (packet_header + n ≤ largest_packet)) }
    ensures count { OnSome result (CountFits (body_meant body.now)) }
    ensures none { IfNone result (largest_packet
        < packet_header + length (packet_body_bytes (body_meant body.now))) }
{
    match body {
        BodyValue::Hello(_, neighbours) => entries_length(
            HELLO_FIELDS,
            neighbours.len(),
            ROUTER_SIZE,
        ),
        BodyValue::Description(_, headers) => entries_length(
            DESCRIPTION_FIELDS,
            headers.len(),
            LSA_HEADER,
        ),
        BodyValue::Request(entries) => entries_length(0, entries.len(), REQUEST_SIZE),
        BodyValue::Update(lsas) => Some(COUNT_SIZE + lsas_length(lsas)?),
        BodyValue::Acknowledgment(headers) => entries_length(0, headers.len(), LSA_HEADER),
    }
}

// The number of bytes of this many entries after the fields of a body,
// unless they do not fit in a packet.
fn entries_length(fields: usize, count: usize, size: usize) -> Option<usize>
    // The fields and the entries are those of a body.
    requires fields { fields ≤ hello_fields }
    requires positive { 0 < size }
    requires small { size ≤ lsa_header }
    // The length is returned exactly where it fits in a packet.
    ensures found { IfSome result (λ n. (n ≡ fields + count * size)
        × (packet_header + n ≤ largest_packet)) }
    ensures none { IfNone result (largest_packet < packet_header + (fields + count * size)) }
{
    if count > LARGEST_PACKET {
        return None;
    }
    let length = fields + count * size;
    if length > LARGEST_PACKET - PACKET_HEADER {
        return None;
    }
    Some(length)
}

// The number of bytes of the LSAs, unless they are more than an Update holds.
fn lsas_length(lsas: &[Lsa]) -> Option<usize>
    ensures found { IfSome result (λ n. (n ≡ length (lsas_bytes lsas.now))
        × (packet_header + 4 + n ≤ largest_packet)) }
    ensures count { OnSome result (length lsas.now < 2 ^ 32) }
    ensures none { IfNone result (largest_packet
        < packet_header + 4 + length (lsas_bytes lsas.now)) }
{
    let mut total = 0;
    for lsa in lsas {
        let length = lsa.view().as_bytes().len();
        if length > LARGEST_PACKET - PACKET_HEADER - COUNT_SIZE - total {
            return None;
        }
        total += length;
    }
    Some(total)
}

// Appends a packet of this many bytes, where there is room for them.
fn push_packet(out: &mut Vec<u8>, value: &PacketValue, size: u16)
    // The size is that of the packet, which is short enough, and there is room for it.
    requires size { size ≡ packet_header + length (packet_body_bytes (body_meant value.now.body)) }
    requires short { size ≤ largest_packet }
    requires count { CountFits (body_meant value.now.body) }
    requires room { vec_len out.old + size ≤ vec_capacity out.old }
    // Then its bytes follow what was there.
    ensures bytes { out.new.items ≡ out.old.items ++ packet_bytes (meant value.now) }
    ensures fits { MeaningFits (meant value.now) }
{
    let start = out.len();
    push_bytes(
        out,
        &head(kind_of(&value.body), size, value.router, value.area),
    );
    push_body(out, &value.body);
    seal(out, start);
}

// Puts bytes at the end, where there is room for them.
fn push_bytes(out: &mut Vec<u8>, bytes: &[u8])
    requires room { vec_len out.old + length bytes.now ≤ vec_capacity out.old }
    ensures bytes { out.new.items ≡ out.old.items ++ bytes.now }
    ensures capacity { vec_capacity out.old ≤ vec_capacity out.new }
{
    // Refused only where there is no room.
    let _ = out.extend_from_slice(bytes);
}

// The 24 bytes of a header without its checksum.
fn head(kind: u8, size: u16, router: RouterId, area: AreaId) -> [u8; 24]
    ensures bytes { result ≡ head_bytes kind size router area ++ (0 ∷ 0 ∷ no_authentication) }
    ensures router { router.0 < 2 ^ 32 }
    ensures area { area.0 < 2 ^ 32 }
{
    let [a, b] = size.to_be_bytes();
    let [c, d, e, f] = router.0.to_be_bytes();
    let [g, h, i, j] = area.0.to_be_bytes();
    [
        VERSION, kind, a, b, c, d, e, f, g, h, i, j, 0, 0, 0, 0, 0, 0, 0, 0, 0, 0, 0, 0,
    ]
}

// The type of a body.
fn kind_of(body: &BodyValue) -> u8
    ensures { result ≡ packet_body_type (body_meant body.now) }
{
    match body {
        BodyValue::Hello(..) => HELLO,
        BodyValue::Description(..) => DESCRIPTION,
        BodyValue::Request(_) => REQUEST,
        BodyValue::Update(_) => UPDATE,
        BodyValue::Acknowledgment(_) => ACKNOWLEDGMENT,
    }
}

// Puts the bytes of a body at the end.
fn push_body(out: &mut Vec<u8>, body: &BodyValue)
    requires count { CountFits (body_meant body.now) }
    requires room { vec_len out.old + length (packet_body_bytes (body_meant body.now))
        ≤ vec_capacity out.old }
    ensures bytes { out.new.items ≡ out.old.items ++ packet_body_bytes (body_meant body.now) }
    ensures fits { PacketBodyFits (body_meant body.now) }
{
    match body {
        BodyValue::Hello(fields, neighbours) => {
            push_bytes(out, &fields.to_bytes());
            push_neighbours(out, neighbours);
        }
        BodyValue::Description(fields, headers) => {
            push_bytes(out, &fields.to_bytes());
            push_headers(out, headers);
        }
        BodyValue::Request(entries) => push_entries(out, entries),
        BodyValue::Update(lsas) => {
            let count = lsas.len() as u32;
            push_bytes(out, &count.to_be_bytes());
            push_lsas(out, lsas);
        }
        BodyValue::Acknowledgment(headers) => push_headers(out, headers),
    }
}

// Puts the bytes of Router IDs at the end.
fn push_neighbours(out: &mut Vec<u8>, routers: &[RouterId])
    requires room { vec_len out.old + length (routers_bytes routers.now) ≤ vec_capacity out.old }
    ensures routers { out.new.items ≡ out.old.items ++ routers_bytes routers.now }
    ensures fit { AllByRecursion RouterFits routers.now }
{
    for router in routers {
        let number = router.0;
        push_bytes(out, &number.to_be_bytes());
    }
}

// Puts the bytes of headers at the end.
fn push_headers(out: &mut Vec<u8>, headers: &[LsaHeader])
    requires room { vec_len out.old + length (flat_map aged_bytes headers.now)
        ≤ vec_capacity out.old }
    ensures headers { out.new.items ≡ out.old.items ++ flat_map aged_bytes headers.now }
    ensures fit { AllByRecursion AgedFits headers.now }
{
    for header in headers {
        push_bytes(out, &header_bytes(header));
    }
}

// The bytes of a header. By its type the age is at most `MAX_AGE`, which
// the reader of the bytes needs.
fn header_bytes(header: &LsaHeader) -> [u8; 20]
    ensures bytes { result ≡ aged_bytes header.now }
    ensures fits { AgedFits header.now }
{
    let age = header.age.ticks();
    prove!(age <= MAX_AGE);
    header.to_bytes()
}

// Puts the bytes of the entries of a Request at the end.
fn push_entries(out: &mut Vec<u8>, entries: &[RequestEntry])
    requires room { vec_len out.old + length (flat_map request_entry_bytes entries.now)
        ≤ vec_capacity out.old }
    ensures entries { out.new.items ≡ out.old.items ++ flat_map request_entry_bytes entries.now }
    ensures fit { AllByRecursion RequestEntryFits entries.now }
{
    for entry in entries {
        push_bytes(out, &entry.to_bytes());
    }
}

// Puts the bytes of LSAs at the end.
fn push_lsas(out: &mut Vec<u8>, lsas: &[Lsa])
    requires room { vec_len out.old + length (lsas_bytes lsas.now) ≤ vec_capacity out.old }
    ensures lsas { out.new.items ≡ out.old.items ++ lsas_bytes lsas.now }
    ensures fit { AllByRecursion IsSlice lsas.now }
{
    for lsa in lsas {
        push_bytes(out, lsa.view().as_bytes());
    }
}

// Puts the checksum into the packet that begins there.
fn seal(out: &mut Vec<u8>, start: usize)
    requires { start + packet_header ≤ vec_len out.old }
    ensures { let packet = drop start out.old.items in
        out.new.items ≡ take start out.old.items
        ++ with_packet_sum packet (packet_checksum packet) }
{
    let [high, low] = packet_sum(&out[start..]).to_be_bytes();
    out[start + SUM_AT] = high;
    out[start + SUM_LOW_AT] = low;
}
