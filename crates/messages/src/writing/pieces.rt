//! Writing frames: whole packets and pieces.

ghost use Rattle.std.specs.Prelude.{◌≡◌, ◌+◌, ◌≤◌, ◌∷◌, [], ◌++◌, length, OnOk, IfOk};
ghost use Rattle.std.specs.Int.{w32};
ghost use Rattle.fc_base.specs.Layouts.{spelled};
ghost use Rattle.messages.specs.declared.limits.TheConstants.{CHUNK_LIMIT, MAX_FRAME};
ghost use Rattle.messages.specs.Nodes.{node_number};
ghost use Rattle.messages.specs.Packets.{header};
ghost use Rattle.messages.specs.FrameBytes.{piece_layout, piece_spelling, frame_spelling, IsShort};
ghost use Rattle.messages.specs.Kinds.{number_of};

use crate::frame::{Frame, PIECE};
use crate::node::Node;
use crate::piece::Tag;
use crate::writing::{VERSION, encode};
use fc_base::{put_u8, put_u32, put_u64};
use std::alloc::{AllocError, Global};

/// How many bytes the numbers of a piece take.
const NUMBERS: u32 = 33;

/// The bytes of a frame. A packet whose body is longer than 1,024 bytes has no frame of its own: it
/// goes out in pieces.
pub fn encode_frame(alloc: Global, frame: &Frame) -> Result<Vec<u8>, AllocError>
    requires { IsShort frame.now }
    ensures spelling { IfOk result (λ bytes. bytes.items ≡ frame_spelling frame.now) }
    ensures len { IfOk result (λ bytes. length bytes.items ≤ MAX_FRAME) }
{
    match frame {
        Frame::Whole(packet) => encode(alloc, packet),
        Frame::Piece(piece) => {
            let mut out = Vec::new(alloc);
            put_piece(
                &mut out,
                piece.from(),
                piece.to(),
                piece.tag(),
                piece.at(),
                piece.bytes(),
            )?;
            Ok(out)
        }
    }
}

/// Appends the frame of a piece.
pub(crate) fn put_piece(
    out: &mut Vec<u8>,
    from: Node,
    to: Node,
    tag: Tag,
    at: u32,
    bytes: &[u8],
) -> Result<(), AllocError>
    requires { length bytes.now ≤ CHUNK_LIMIT }
    ensures { OnOk result
        (out.new.items ≡ out.old.items ++ piece_spelling
        (record { from = from; to = to; tag = tag; at = at; bytes = bytes.now })) }
{
    put_head(out, from, to, NUMBERS + bytes.len() as u32)?;
    put_tag(out, tag, at)?;
    out.extend_from_slice(bytes)
}

/// Appends the header of a piece.
fn put_head(out: &mut Vec<u8>, from: Node, to: Node, len: u32) -> Result<(), AllocError>
    ensures { OnOk result
        (out.new.items ≡ out.old.items ++ spelled header
        (70 ∷ 67 ∷ 1 ∷ 17 ∷ node_number from ∷ node_number to ∷ len ∷ [])) }
{
    put_u8(out, b'F')?;
    put_u8(out, b'C')?;
    put_u8(out, VERSION)?;
    put_u8(out, PIECE)?;
    put_u32(out, from.number())?;
    put_u32(out, to.number())?;
    put_u32(out, len)
}

/// Appends the numbers of a piece.
fn put_tag(out: &mut Vec<u8>, tag: Tag, at: u32) -> Result<(), AllocError>
    ensures { OnOk result
        (out.new.items ≡ out.old.items ++ spelled piece_layout
        (number_of tag.whole ∷ tag.run ∷ tag.number ∷ tag.server ∷ tag.job ∷ tag.length ∷ at ∷ [])) }
{
    put_u8(out, tag.whole.number())?;
    put_u64(out, tag.run.0)?;
    put_u64(out, tag.number)?;
    put_place(out, tag, at)
}

fn put_place(out: &mut Vec<u8>, tag: Tag, at: u32) -> Result<(), AllocError>
    ensures { OnOk result
        (out.new.items ≡ out.old.items ++ spelled (w32 ∷ w32 ∷ w32 ∷ w32 ∷ [])
        (tag.server ∷ tag.job ∷ tag.length ∷ at ∷ [])) }
{
    put_u32(out, tag.server.0)?;
    put_u32(out, tag.job.0)?;
    put_u32(out, tag.length)?;
    put_u32(out, at)
}
