//! Reading frames: whole packets and pieces.

ghost use Rattle.std.specs.Prelude.{◌≡◌, ◌≤◌, length, drop, IsTrue, IfOk};
ghost use Rattle.messages.specs.declared.frame.FrameKind.TheVariants.{Packet as PacketSort, Piece as PieceSort};
ghost use Rattle.fc_base.specs.Layouts.{numbers};
ghost use Rattle.messages.specs.Bodies.{Reads};
ghost use Rattle.messages.specs.FrameBytes.{piece_layout, sort_numbered, frame_limit, frame_said, FrameAnswers, IsShort};
ghost use Rattle.messages.specs.FrameLaws.{SaysFrame};
ghost use Rattle.messages.specs.Headers.{HeaderIs, are_nodes};
ghost use Rattle.messages.specs.PieceNumbers.{fields_numbers, tag_said};

use crate::chunk::Chunk;
use crate::frame::{Frame, FrameKind};
use crate::kind::PacketKind;
use crate::limits::{CHUNK_LIMIT, FRAME_LIMIT};
use crate::packet::{Packet, PacketParts};
use crate::piece::{Piece, PieceParts, Tag, is_place};
use crate::piece_law::only_frames_are_read;
use crate::reading::{Ends, Header, body_of, ends_of, fields_of};
use crate::writing::HEADER;
use fc_base::{Fault, JobNo, RunNo, ServerNo, split_u8, split_u32, split_u64};
use std::alloc::Global;

/// How many bytes the numbers of a piece take.
const NUMBERS: usize = 33;

/// The frame that these bytes say, all of them.
///
/// The refusals are those of `decode`, in the same order, but that a piece is a frame of kind 17;
/// `FrameTooLong` is answered from 1,058 bytes on behind the header, and `FrameBadField` for a packet
/// whose body has more than 1,024 bytes, and for a piece with a number out of its range.
pub fn decode_frame(alloc: Global, bytes: &[u8]) -> Result<Frame, Fault>
    ensures answer { FrameAnswers result bytes.now }
    ensures said { IfOk result (SaysFrame bytes.now) }
    ensures short { IfOk result IsShort }
{
    only_frames_are_read();
    let header = frame_header_of(bytes)?;
    let (_, body) = bytes.split_at(HEADER);
    frame_of(alloc, header.ends, header.kind, body)
}

fn frame_header_of(bytes: &[u8]) -> Result<Header<FrameKind>, Fault>
    ensures { HeaderIs sort_numbered frame_limit result bytes.now }
{
    let fields = fields_of(bytes)?;
    let kind = FrameKind::numbered(fields.kind).ok_or(Fault::BadKind)?;
    let ends = ends_of(fields, FRAME_LIMIT, bytes.len())?;
    Ok(Header { kind, ends })
}

/// What the bytes behind a header say.
fn frame_of(alloc: Global, ends: Ends, kind: FrameKind, bytes: &[u8]) -> Result<Frame, Fault>
    requires { IsTrue (are_nodes ends) }
    ensures { Reads result (frame_said ends.from ends.to bytes.now kind) }
{
    match kind {
        FrameKind::Packet(kind) => whole(alloc, ends, kind, bytes),
        FrameKind::Piece => piece(alloc, ends, bytes),
    }
}

fn whole(alloc: Global, ends: Ends, kind: PacketKind, bytes: &[u8]) -> Result<Frame, Fault>
    requires { IsTrue (are_nodes ends) }
    ensures { Reads result (frame_said ends.from ends.to bytes.now (PacketSort kind)) }
{
    if bytes.len() > CHUNK_LIMIT {
        return Err(Fault::FrameBadField);
    }
    let body = body_of(alloc, kind, bytes)?;
    Ok(Frame::Whole(Packet::new(PacketParts {
        from: ends.from,
        to: ends.to,
        body,
    })))
}

/// The numbers of a piece, as they stand.
#[derive(Clone, Copy)]
struct PieceFields {
    whole: u8,
    run: u64,
    number: u64,
    server: u32,
    job: u32,
    length: u32,
    at: u32,
}

fn piece_fields(bytes: &[u8]) -> (PieceFields, &[u8])
    requires { 33 ≤ length bytes.now }
    ensures numbers { fields_numbers result.0 ≡ numbers piece_layout bytes.now }
    ensures rest { result.1.now ≡ drop 33 bytes.now }
{
    let (whole, rest) = split_u8(bytes);
    let (run, rest) = split_u64(rest);
    let (number, rest) = split_u64(rest);
    let (server, rest) = split_u32(rest);
    let (job, rest) = split_u32(rest);
    let (length, rest) = split_u32(rest);
    let (at, rest) = split_u32(rest);
    let fields = PieceFields {
        whole,
        run,
        number,
        server,
        job,
        length,
        at,
    };
    (fields, rest)
}

/// What pieces with these numbers have in common, where they are in their ranges.
fn tag_of(fields: PieceFields) -> Option<Tag>
    ensures { result ≡ tag_said fields }
{
    let tag = Tag {
        whole: PacketKind::numbered(fields.whole)?,
        run: RunNo(fields.run),
        number: fields.number,
        server: ServerNo(fields.server),
        job: JobNo(fields.job),
        length: fields.length,
    };
    if tag.is_in_range() { Some(tag) } else { None }
}

fn piece(alloc: Global, ends: Ends, bytes: &[u8]) -> Result<Frame, Fault>
    requires { IsTrue (are_nodes ends) }
    ensures { Reads result (frame_said ends.from ends.to bytes.now PieceSort) }
{
    if bytes.len() < NUMBERS {
        return Err(Fault::FrameBadField);
    }
    let (fields, rest) = piece_fields(bytes);
    let Some(tag) = tag_of(fields) else {
        return Err(Fault::FrameBadField);
    };
    if !is_place(tag.length, fields.at, rest.len()) {
        return Err(Fault::FrameBadField);
    }
    match Chunk::copied(alloc, rest) {
        Ok(bytes) => Ok(Frame::Piece(Piece::new(PieceParts {
            from: ends.from,
            to: ends.to,
            tag,
            at: fields.at,
            bytes,
        }))),
        Err(_) => Err(Fault::FrameNoMemory),
    }
}
