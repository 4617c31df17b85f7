//! Packets go out in frames, and come out of them.

ghost use Rattle.std.specs.Prelude.{◌≡◌, [], ◌∷◌, List, Ok, Some, All, Contains, IfOk, IfSome, IfNone, map};
ghost use Rattle.messages.specs.declared.frame.Frame.{Frame};
ghost use Rattle.messages.specs.declared.packet.PacketParts.{PacketParts};
ghost use Rattle.messages.specs.Assemblies.{look_at_frame, LookAnswers};
ghost use Rattle.messages.specs.FrameBytes.{frame_at};
ghost use Rattle.messages.specs.Laws.{IsPacket};
ghost use Rattle.messages.specs.PieceLaws.{left_by, ArePackets, AreFramesOf, OneBodyOfEachTag};
ghost use Rattle.messages.specs.Pieces.{frames_of};

use fc_base::Fault;
use messages::{
    Assembly, Frame, Frames, Packet, decode_frame, frames_are_read_back, frames_are_readable,
    frames_of, only_sent_comes_together, pieces_come_together,
};
use std::alloc::Global;

/// Cuts a packet into frames, and puts it together of them: it comes back as it was.
pub fn cut_and_join(alloc: Global, packet: &Packet) -> Result<Option<Packet>, Fault>
    ensures { IfOk result (λ again. again ≡ Some packet.now) }
{
    packet.keeps_its_ranges();
    frames_are_readable();
    frames_are_read_back();
    let Ok(frames) = frames_of(alloc, packet) else {
        return Err(Fault::NoMemory);
    };
    first_packet(alloc, &frames)
}

/// The first packet that comes together of frames, if one does. Where they are frames of some
/// packets, in whatever order, some lost and some repeated, it is one of these packets; and where
/// they are all frames of one packet, in whatever order and however often, it is that packet.
pub fn first_packet(alloc: Global, frames: &Frames) -> Result<Option<Packet>, Fault>
    ensures sent { (sent : List PacketParts) (came : List Frame) →
        ArePackets sent → OneBodyOfEachTag sent
        → map frame_at frames.now ≡ map Some came → AreFramesOf sent came
        → IfOk result (λ packet. IfSome packet (Contains sent)) }
    ensures whole { (p : PacketParts) (came : List Frame) → IsPacket p
        → map frame_at frames.now ≡ map Some came → AreFramesOf (p ∷ []) came
        → All (Contains came) (frames_of p)
        → IfOk result (λ packet. packet ≡ Some p) }
{
    only_sent_comes_together();
    pieces_come_together();
    let mut assembly = Assembly::new(alloc);
    for index in 0..frames.len() {
        let Some(bytes) = frames.get(index) else {
            return Ok(None);
        };
        let frame = decode_frame(alloc, bytes)?;
        if let Some(packet) = take_frame(&mut assembly, frame)? {
            return Ok(Some(packet));
        }
    }
    Ok(None)
}

/// Takes a frame: the packet that it gives, or what has come together with it.
fn take_frame(assembly: &mut Assembly, frame: Frame) -> Result<Option<Packet>, Fault>
    ensures given { IfOk result
        (λ packet. LookAnswers (Ok packet) (look_at_frame assembly.old frame)) }
    ensures left { IfOk result (λ packet.
        IfNone packet (assembly.new ≡ left_by assembly.old frame)) }
{
    match frame {
        Frame::Whole(packet) => Ok(Some(packet)),
        Frame::Piece(piece) => {
            if let Some(packet) = assembly.look(&piece)? {
                return Ok(Some(packet));
            }
            let Ok(()) = assembly.take(&piece) else {
                return Err(Fault::NoMemory);
            };
            Ok(None)
        }
    }
}
