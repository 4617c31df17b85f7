//! What the client, the servers and the mirror say to each other, and its bytes: packets and their
//! frames; and the network of nodes that run in threads, under one lock: every frame that was ever
//! sent, and the journal of who took and sent which.
//!
//! ```text
//! let packet = Packet::make(PacketParts { from, to, body })?;
//! let frames = frames_of(alloc, &packet)?;    // one, or several of a long body
//! match decode_frame(alloc, bytes)? {         // at the other end, frame by frame
//!     Frame::Whole(packet) => ..,
//!     Frame::Piece(piece) => ..,              // an `Assembly` puts pieces together
//! }
//!
//! let mut hub = Hub::new(alloc);
//! hub.reserve(frames, bytes)?;                // room for what an event may send
//! hub.note(Node::Client, 0, None, &sent);     // it sent these, and wants for no memory
//! let number = hub.pick(Node::Server(ServerNo(0)), word);
//! ```
//!
//! Begin with `packet` and `body`; `specs/Bodies.antt` says the bytes of each kind, `specs/Pieces.antt`
//! how a long body is cut. Of the network begin with `hub`; `specs/Network.antt` says what contracts
//! see of it, and `specs/Waiting.antt` which frames a node hasn't taken.
#![tactic(auto)]

mod assembly;
mod body;
mod chunk;
mod frame;
mod frames;
mod hub;
mod kind;
mod law;
mod limits;
mod line;
mod network_law;
mod node;
mod packet;
mod piece;
mod piece_law;
mod places;
mod queues;
mod ranges;
mod reading;
mod refusal;
mod store;
mod text;
mod writing;

pub use assembly::Assembly;
pub use body::Body;
pub use chunk::Chunk;
pub use frame::{Frame, FrameKind};
pub use frames::{Frames, frames_of};
pub use hub::Hub;
pub use kind::PacketKind;
pub use law::{lengths_are_bounded, no_spelling_begins_another, one_spelling};
pub use limits::{
    CHUNK_LIMIT, CLIENT_NUMBER, MAX_BODY, MAX_FRAME, MAX_FRAMED, MAX_FRAMES, MAX_NODES,
    MIRROR_NUMBER,
};
pub use line::Line;
pub use network_law::frames_are_spelled;
pub use node::Node;
pub use packet::{Packet, PacketParts};
pub use piece::{Piece, PieceParts, Tag};
pub use piece_law::{
    frames_are_few, frames_are_read_back, frames_are_readable, no_frame_begins_another,
    only_frames_are_read, only_sent_comes_together, only_whole_bodies_are_given,
    pieces_come_together,
};
pub use reading::{FrameLook, decode, decode_frame, look_at};
pub use refusal::{Act, Reason, Refusal, RefusedRequest};
pub use text::Text;
pub use writing::{encode, encode_frame};
