//! Reading the packet of a frame.

ghost use Rattle.std.specs.Prelude.{◌≡◌, ◌≤◌, ◌∷◌, [], length, Some, None, IfOk, if◌then◌else◌};
ghost use Rattle.messages.specs.Ranges.{is_body};
ghost use Rattle.fc_base.specs.Layouts.{numbers};
ghost use Rattle.messages.specs.Bodies.{Reads, body_at};
ghost use Rattle.messages.specs.Kinds.{kind_numbered};
ghost use Rattle.messages.specs.Packets.{Answers, header, body_limit};
ghost use Rattle.messages.specs.Laws.{Says};
ghost use Rattle.messages.specs.Headers.{HeaderIs, FieldsAre, EndsAre, end_faults};

mod frames;
mod look;
mod plain;
mod report;
mod states;
mod texts;

use crate::body::Body;
use crate::kind::PacketKind;
use crate::law::one_spelling;
use crate::limits::MAX_BODY;
use crate::node::Node;
use crate::packet::{Packet, PacketParts};
use crate::writing::{HEADER, VERSION};
use fc_base::{Fault, split_u8, split_u32};
pub use frames::decode_frame;
pub use look::{FrameLook, look_at};
use std::alloc::Global;

/// The packet that a frame says, all of the bytes.
///
/// The refusals, in this order: `FrameShort` for fewer than 16 bytes; `FrameBadMagic` where they
/// don't begin with FC and version 1; `BadKind`; `FrameBadField` for a node above 9; `FrameTooLong`
/// for a body of more than 16,400 bytes; `FrameShort` and `FrameTrailing` where fewer or more bytes
/// follow than the header says; `FrameBadField` for a body that isn't of its kind or has a number out
/// of its range. `FrameNoMemory` is answered only of bytes that have none of these: memory is asked
/// for a job file's text alone, and last.
pub fn decode(alloc: Global, bytes: &[u8]) -> Result<Packet, Fault>
    ensures answer { Answers result bytes.now }
    ensures said { IfOk result (Says bytes.now) }
{
    one_spelling();
    let header = header_of(bytes)?;
    let (_, body) = bytes.split_at(HEADER);
    let body = body_of(alloc, header.kind, body)?;
    Ok(Packet::new(PacketParts {
        from: header.ends.from,
        to: header.ends.to,
        body,
    }))
}

/// The numbers of a header, as they stand.
#[derive(Clone, Copy)]
struct HeaderFields {
    first: u8,
    second: u8,
    version: u8,
    kind: u8,
    from: u32,
    to: u32,
    len: u32,
}

/// Who sends a frame, and to whom.
#[derive(Clone, Copy)]
struct Ends {
    from: Node,
    to: Node,
}

/// What a header says of a frame that is as long as it says.
#[derive(Clone, Copy)]
struct Header<K> {
    kind: K,
    ends: Ends,
}

fn header_fields(bytes: &[u8]) -> HeaderFields
    requires { 16 ≤ length bytes.now }
    ensures { result.first ∷ result.second ∷ result.version ∷ result.kind ∷ result.from ∷ result.to
        ∷ result.len ∷ [] ≡ numbers header bytes.now }
{
    let (first, rest) = split_u8(bytes);
    let (second, rest) = split_u8(rest);
    let (version, rest) = split_u8(rest);
    let (kind, rest) = split_u8(rest);
    let (from, rest) = split_u32(rest);
    let (to, rest) = split_u32(rest);
    let (len, _) = split_u32(rest);
    HeaderFields {
        first,
        second,
        version,
        kind,
        from,
        to,
        len,
    }
}

/// The numbers of a header that begins as headers do.
fn fields_of(bytes: &[u8]) -> Result<HeaderFields, Fault>
    ensures { FieldsAre result bytes.now }
{
    if bytes.len() < HEADER {
        return Err(Fault::FrameShort);
    }
    let fields = header_fields(bytes);
    if !(fields.first == b'F' && fields.second == b'C' && fields.version == VERSION) {
        return Err(Fault::FrameBadMagic);
    }
    Ok(fields)
}

/// The ends of a frame of so many bytes, which is as long as its header says, and at most `limit`
/// behind it.
fn ends_of(fields: HeaderFields, limit: u32, len: usize) -> Result<Ends, Fault>
    ensures { EndsAre result
        (end_faults fields.from fields.to fields.len limit len) fields.from fields.to }
{
    let from = Node::numbered(fields.from).ok_or(Fault::FrameBadField)?;
    let to = Node::numbered(fields.to).ok_or(Fault::FrameBadField)?;
    if fields.len > limit {
        return Err(Fault::FrameTooLong);
    }
    let end = HEADER + fields.len as usize;
    if len < end {
        return Err(Fault::FrameShort);
    }
    if len > end {
        return Err(Fault::FrameTrailing);
    }
    Ok(Ends { from, to })
}

fn header_of(bytes: &[u8]) -> Result<Header<PacketKind>, Fault>
    ensures { HeaderIs kind_numbered body_limit result bytes.now }
{
    let fields = fields_of(bytes)?;
    let kind = PacketKind::numbered(fields.kind).ok_or(Fault::BadKind)?;
    let ends = ends_of(fields, MAX_BODY, bytes.len())?;
    Ok(Header { kind, ends })
}

/// A body whose ranges hold.
fn in_range(body: Body) -> Option<Body>
    ensures { result ≡ (if is_body body then Some body else None) }
{
    if body.is_in_range() { Some(body) } else { None }
}

/// The body of a kind, all of the bytes.
pub(crate) fn body_of(alloc: Global, kind: PacketKind, bytes: &[u8]) -> Result<Body, Fault>
    ensures { Reads result (body_at kind bytes.now) }
{
    match kind {
        PacketKind::Jobs => texts::jobs(alloc, bytes),
        PacketKind::JobsOk => in_place(plain::jobs_ok(bytes)),
        PacketKind::Start => in_place(plain::start(bytes)),
        PacketKind::Started => in_place(plain::started(bytes)),
        PacketKind::Trigger => in_place(plain::trigger(bytes)),
        PacketKind::State => in_place(states::state(bytes)),
        PacketKind::NoState => in_place(plain::no_state(bytes)),
        PacketKind::StateAck => in_place(plain::state_ack(bytes)),
        PacketKind::Stop => in_place(plain::stop(bytes)),
        PacketKind::Stopped => in_place(plain::stopped(bytes)),
        PacketKind::Verify => texts::verify(alloc, bytes),
        PacketKind::WantState => in_place(plain::want_state(bytes)),
        PacketKind::Saved => in_place(states::saved(bytes)),
        PacketKind::NoSaved => in_place(plain::no_saved(bytes)),
        PacketKind::Report => in_place(report::report(bytes)),
        PacketKind::Refused => in_place(plain::refused(bytes)),
        PacketKind::Copy => in_place(states::copy(bytes)),
        PacketKind::CopyOk => in_place(plain::copy_ok(bytes)),
        PacketKind::Fetch => in_place(plain::fetch(bytes)),
        PacketKind::Granted => in_place(plain::granted(bytes)),
    }
}

/// A body that takes no memory.
fn in_place(body: Option<Body>) -> Result<Body, Fault>
    ensures { Reads result body }
{
    body.ok_or(Fault::FrameBadField)
}
